//! The common counts of the threads of a soak.

use std::alloc::Global;
use std::sync::atomic::Ordering::SeqCst;
use std::sync::atomic::{AtomicBool, AtomicU64};
use sysv_model::Body;

/// How many messages of each sender are distinguished.
const NUMBERS: u64 = 1 << 24;

/// The number of threads: eight, and the one that ends them.
const SENDERS: u64 = 9;

/// Returns the bits of all messages, none of which is set, or `None` if memory is refused.
fn no_bits(alloc: Global) -> Option<Vec<AtomicU64>> {
    let mut bits = Vec::new(alloc);
    for _ in 0..SENDERS * NUMBERS / 64 {
        if bits.push(AtomicU64::new(0)).is_err() {
            return None;
        }
    }
    Some(bits)
}

/// The counts.
#[derive(Drop)]
pub(crate) struct Tallies {
    over: AtomicBool,
    /// The number of threads that ended.
    finished: AtomicU64,
    /// The number of messages that were sent, or are being sent, to kept queues.
    sent: AtomicU64,
    /// The number of messages that were received from kept queues.
    received: AtomicU64,
    /// The number of messages that were received a second time, or were never sent.
    doubled: AtomicU64,
    /// A bit for each message of each sender that was received.
    seen: Vec<AtomicU64>,
}

impl Tallies {
    pub(crate) fn open(alloc: Global) -> Option<Tallies> {
        let seen = no_bits(alloc)?;
        Some(Tallies {
            over: AtomicBool::new(false),
            finished: AtomicU64::new(0),
            sent: AtomicU64::new(0),
            received: AtomicU64::new(0),
            doubled: AtomicU64::new(0),
            seen,
        })
    }

    pub(crate) fn is_over(&self) -> bool {
        self.over.load(SeqCst)
    }

    /// Requests that all threads end.
    pub(crate) fn end(&self) {
        self.over.store(true, SeqCst);
    }

    /// Notes that a thread has ended.
    pub(crate) fn finish(&self) {
        self.finished.fetch_add(1, SeqCst);
    }

    pub(crate) fn finished(&self) -> u64 {
        self.finished.load(SeqCst)
    }

    /// Counts a message that is about to be sent. Returns `false` and counts nothing after an end
    /// was requested.
    pub(crate) fn begin_send(&self, kept: bool) -> bool {
        if kept {
            self.sent.fetch_add(1, SeqCst);
        }
        if self.is_over() {
            self.withdraw(kept);
            return false;
        }
        true
    }

    /// Takes back the count of a message that was not sent.
    pub(crate) fn withdraw(&self, kept: bool) {
        if kept {
            self.sent.fetch_sub(1, SeqCst);
        }
    }

    /// Counts a message that was received.
    pub(crate) fn count(&self, text: &Body, kept: bool) {
        if kept {
            self.received.fetch_add(1, SeqCst);
        }
        if !self.is_first(text) {
            self.doubled.fetch_add(1, SeqCst);
        }
    }

    /// Returns whether the message was sent, and is received for the first time.
    fn is_first(&self, text: &Body) -> bool {
        let [sender, number @ ..] = text.block(0) else {
            return false;
        };
        match number.first_chunk::<8>() {
            Some(number) => self.is_new(*sender, u64::from_be_bytes(*number)),
            None => false,
        }
    }

    /// Notes that the message of this sender with this number was received. Returns whether it is
    /// received for the first time. Numbers from `NUMBERS` on are not noted.
    fn is_new(&self, sender: u8, number: u64) -> bool {
        if number >= NUMBERS {
            return true;
        }
        let place = (u64::from(sender) * NUMBERS + number) / 64;
        let bit = 1 << (number % 64);
        match self.seen.get(place as usize) {
            Some(word) => word.fetch_or(bit, SeqCst) & bit == 0,
            None => false,
        }
    }

    /// Returns whether all messages of the kept queues were received.
    pub(crate) fn is_drained(&self) -> bool {
        self.sent.load(SeqCst) == self.received.load(SeqCst)
    }

    /// Returns the number of messages of the kept queues, how many of them were lost, and how many
    /// were received twice.
    pub(crate) fn told(&self) -> (u64, u64, u64) {
        let sent = self.sent.load(SeqCst);
        let lost = sent.saturating_sub(self.received.load(SeqCst));
        (sent, lost, self.doubled.load(SeqCst))
    }
}
