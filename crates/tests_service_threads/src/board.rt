//! How threads report their progress to one another, beside the service.
use std::sync::Wait;
use std::sync::atomic::AtomicU64;
use std::sync::atomic::Ordering::SeqCst;
use std::thread;
use sysv_service::Clock;

/// The maximum number of looks for which a thread is held.
pub(crate) const LOOKS: u32 = 10_000_000;

/// The number of reports so far.
#[derive(Drop)]
pub(crate) struct Board {
    said: AtomicU64,
}

impl Board {
    pub(crate) fn new() -> Board {
        Board {
            said: AtomicU64::new(0),
        }
    }

    pub(crate) fn two() -> [Board; 2] {
        [Board::new(), Board::new()]
    }

    /// Makes one more report.
    pub(crate) fn say(&self) {
        self.said.fetch_add(1, SeqCst);
    }

    pub(crate) fn said(&self) -> u64 {
        self.said.load(SeqCst)
    }

    /// Waits until this number of reports was made.
    pub(crate) fn hear(&self, rt: &impl Wait, goal: u64) {
        for _ in rt.forever() {
            if self.said() >= goal {
                return;
            }
            thread::yield_now();
        }
        unreachable!()
    }

    /// Looks until this number of reports was made, at most ten million times.
    fn look_for(&self, goal: u64) {
        for _ in 0..LOOKS {
            if self.said() >= goal {
                return;
            }
            thread::yield_now();
        }
    }
}

/// The clock of a thread.
#[derive(Clone, Copy)]
pub(crate) enum Moment<'a> {
    /// Always returns the same time.
    Still,
    /// Makes a report whenever it is called.
    Counts(&'a Board),
    /// Makes a report whenever it is called. Its time is the number of reports made so far.
    Rises(&'a Board),
    /// Makes a report, and holds the call until this number of reports was made.
    Holds(&'a Board, u64),
}

impl Clock for Moment<'_> {
    ghost may = { λ _ _. Unit {0} };

    fn now(&self) -> u64 {
        match self {
            Moment::Still => {}
            Moment::Counts(board) => board.say(),
            Moment::Rises(board) => return board.said(),
            Moment::Holds(board, goal) => {
                board.say();
                board.look_for(*goal);
            }
        }
        7
    }
}
