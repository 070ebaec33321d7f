//! Several sockets that connections are accepted from.
ghost use Rattle.std.specs.Prelude.{◌≡◌, ◌<◌, ◌+◌, ◌⊎◌, ◌||◌, ℕ, IfErr, IfOk, List, MatchResult, None, OnErr, OnOk, Some, drop, false, length, min, pos, take, true, vec_len};
ghost use Rattle.std.specs.IoError.{raw_os_error};
ghost use Rattle.std.specs.List.{list_any};
ghost use Rattle.sysv_seats.specs.Untold.{limits_of};
ghost use Rattle.sysv_server.specs.Doors.{IsFailure, OneCame};

use crate::accepting::is_passing;
use crate::host::{Host, Notice};
use crate::listening::{Listens, Shown};
use std::io;
use std::io::ErrorKind;
use sysv_seats::{Limits, SocketStream};
use sysv_system::{EAGAIN, Several};

/// Several sockets that connections are accepted from, in turn: after one from a socket, the next one
/// comes from the first socket after it at which a client waits.
///
/// If an accept at a socket fails and is not tried again, only that socket is closed, unless it is the
/// last one that is open.
///
/// The last socket may be one at which sessions are served alone: it is opened before the others, and
/// again after them.
#[derive(Drop)]
pub struct Doors<L, H> {
    sockets: Vec<L>,
    /// The number of the sockets that are opened together: all of them but the one at which sessions are
    /// served alone.
    common: usize,
    /// The number of the socket at which the next accept is tried first.
    next: usize,
    host: H,
}

impl<L: Listens, H: Host> Doors<L, H> {
    /// Creates the doors with these sockets, of which there are at most 66. Their numbers are their
    /// places in the vector.
    pub fn new(sockets: Vec<L>, host: H) -> Doors<L, H>
        ensures { result.sockets ≡ sockets }
    {
        Doors {
            common: sockets.len(),
            sockets,
            next: 0,
            host,
        }
    }

    /// Creates the doors with these sockets like `new`, of which the last one is that at which sessions
    /// are served alone.
    pub fn with_alone(sockets: Vec<L>, host: H) -> Doors<L, H>
        ensures { result.sockets ≡ sockets }
    {
        Doors {
            common: sockets.len().saturating_sub(1),
            sockets,
            next: 0,
            host,
        }
    }

    /// Returns whether another socket than the one of this number is open.
    fn has_other(&self, number: usize) -> bool
        requires { number < length self.now.sockets.items }
        ensures { result ≡ (list_any L.listens (take number self.now.sockets.items)
            || list_any L.listens (drop (number + 1) self.now.sockets.items)) }
    {
        any_open(&self.sockets[..number]) || any_open(&self.sockets[number + 1..])
    }

    /// Returns the number after this one, or 0 after the last one.
    fn after(&self, number: usize) -> usize {
        let next = number.saturating_add(1);
        if next < self.sockets.len() { next } else { 0 }
    }

    /// Returns the number of the socket at which an accept is tried now. The next one is tried at the
    /// socket after it.
    fn turn(&mut self) -> usize
        ensures items { self.new.sockets.items ≡ self.old.sockets.items }
        ensures length { vec_len self.new.sockets ≡ vec_len self.old.sockets }
    {
        let number = self.next;
        self.next = self.after(number);
        number
    }

    /// Opens the socket of this number.
    #[tactic(auto, using(crate::proofs::Came::one_at))]
    fn open_at(&mut self, number: usize) -> io::Result<()>
        requires { number < length self.old.sockets.items }
        ensures came { OneCame L.steps self.old.sockets.items None self.new.sockets.items }
        ensures ok { OnOk result (list_any L.listens self.new.sockets.items ≡ true) }
        ensures err { OnErr result (list_any L.listens self.new.sockets.items
            ≡ list_any L.listens self.old.sockets.items) }
        ensures length { vec_len self.new.sockets ≡ vec_len self.old.sockets }
        ensures common { self.new.common ≡ self.old.common }
        ensures rest { (from : ℕ) → number < from → drop from self.new.sockets.items
            ≡ drop from self.old.sockets.items }
    {
        self.sockets[number].open()
    }

    /// Closes the socket of this number.
    #[tactic(auto, using(crate::proofs::Came::one_at))]
    fn close_at(&mut self, number: usize)
        requires { number < length self.old.sockets.items }
        ensures came { OneCame L.steps self.old.sockets.items None self.new.sockets.items }
        ensures open { list_any L.listens self.new.sockets.items
            ≡ (list_any L.listens (take number self.old.sockets.items)
            || list_any L.listens (drop (number + 1) self.old.sockets.items)) }
        ensures closed { list_any L.listens (take (number + 1) self.new.sockets.items)
            ≡ list_any L.listens (take number self.old.sockets.items) }
        ensures length { vec_len self.new.sockets ≡ vec_len self.old.sockets }
        ensures rest { (from : ℕ) → number < from → drop from self.new.sockets.items
            ≡ drop from self.old.sockets.items }
    {
        self.sockets[number].close();
    }

    /// Accepts a connection at the socket of this number while there is `room` for so many, whose client
    /// may be cut off under these limits.
    #[tactic(auto, using(crate::proofs::Came::one_at, crate::proofs::Came::one_after))]
    fn accept_at(&mut self, number: usize, room: u64, limits: Limits) -> io::Result<SocketStream>
        requires { number < length self.old.sockets.items }
        ensures came { MatchResult result
            (λ stream. OneCame L.steps self.old.sockets.items (Some stream) self.new.sockets.items)
            (λ why. OneCame L.steps self.old.sockets.items None self.new.sockets.items) }
        ensures limits { IfOk result (λ stream. limits_of stream ≡ limits) }
        ensures failed { IfErr result (IsFailure L.fails) }
        ensures open { list_any L.listens self.new.sockets.items
            ≡ list_any L.listens self.old.sockets.items }
        ensures length { vec_len self.new.sockets ≡ vec_len self.old.sockets }
    {
        match self.sockets[number].accept(room, limits) {
            Ok(stream) => Ok(stream),
            Err(why) => Err(self.give_up(number, why)),
        }
    }

    /// Gives up the socket of this number, at which an accept failed, unless it may be tried again or
    /// no other is open. Returns why nothing was accepted.
    #[tactic(auto, using(crate::proofs::Came::none_came))]
    fn give_up(&mut self, number: usize, why: io::Error) -> io::Error
        requires { number < length self.old.sockets.items }
        ensures why { (result ≡ why) ⊎ (raw_os_error result ≡ Some (pos 11)) }
        ensures came { OneCame L.steps self.old.sockets.items None self.new.sockets.items }
        ensures open { list_any L.listens self.new.sockets.items
            ≡ list_any L.listens self.old.sockets.items }
        ensures length { vec_len self.new.sockets ≡ vec_len self.old.sockets }
    {
        if is_passing(&why) || !self.has_other(number) {
            return why;
        }
        self.close_at(number);
        self.host.note(Notice::Lost(number, why));
        none_waits()
    }

    /// Closes all sockets.
    #[tactic(auto, using(crate::proofs::Came::none_came, crate::proofs::Came::one_after))]
    fn close_all(&mut self)
        ensures closed { list_any L.listens self.new.sockets.items ≡ false }
        ensures came { OneCame L.steps self.old.sockets.items None self.new.sockets.items }
    {
        for number in 0..self.sockets.len() {
            self.close_at(number);
        }
    }

    /// Returns the number of the sockets that are opened together.
    fn common(&self) -> usize
        ensures { result ≡ min self.now.common (vec_len self.now.sockets) }
    {
        self.common.min(self.sockets.len())
    }

    /// Opens all sockets that are opened together, or returns why one of them could not be opened.
    #[tactic(auto, using(crate::proofs::Came::none_came, crate::proofs::Came::one_after))]
    fn open_all(&mut self) -> io::Result<()>
        ensures came { OneCame L.steps self.old.sockets.items None self.new.sockets.items }
        ensures length { vec_len self.new.sockets ≡ vec_len self.old.sockets }
        ensures common { self.new.common ≡ self.old.common }
        ensures rest { drop (min self.old.common (vec_len self.old.sockets)) self.new.sockets.items
            ≡ drop (min self.old.common (vec_len self.old.sockets)) self.old.sockets.items }
    {
        for number in 0..self.common() {
            self.open_at(number)?;
        }
        Ok(())
    }

    /// Closes all sockets that are opened together.
    #[tactic(auto, using(crate::proofs::Came::none_came, crate::proofs::Came::one_after))]
    fn close_common(&mut self)
        ensures came { OneCame L.steps self.old.sockets.items None self.new.sockets.items }
        ensures open { list_any L.listens self.new.sockets.items
            ≡ list_any L.listens (drop (min self.old.common (vec_len self.old.sockets))
            self.old.sockets.items) }
    {
        for number in 0..self.common() {
            self.close_at(number);
        }
    }
}

impl<L: Listens, H: Host> Listens for Doors<L, H> {
    ghost accepted = { λ _. None };

    ghost listens = { λ doors. list_any L.listens doors.sockets.items };

    ghost fails = { λ _ why _. IsFailure L.fails why };

    ghost steps = { λ old step new. OneCame L.steps old.sockets.items step new.sockets.items };

    fn is_open(&self) -> bool {
        any_open(&self.sockets)
    }

    #[tactic(auto, using(crate::proofs::Came::none_came, crate::proofs::Came::one_after))]
    fn open(&mut self) -> io::Result<()> {
        if any_open(&self.sockets[..self.common()]) {
            return Ok(());
        }
        let opened = self.open_all();
        if opened.is_err() {
            self.close_common();
            return opened;
        }
        if self.is_open() {
            Ok(())
        } else {
            Err(io::Error::from(ErrorKind::NotConnected))
        }
    }

    #[tactic(auto, using(crate::proofs::Came::none_came, crate::proofs::Came::one_after))]
    fn open_alone(&mut self) -> io::Result<()> {
        let number = self.common;
        if number >= self.sockets.len() {
            return Err(io::Error::from(ErrorKind::NotConnected));
        }
        self.open_at(number)
    }

    fn watch(&self, room: u64, listeners: &mut Several) -> bool {
        let mut all = true;
        for socket in self.sockets.iter() {
            all = socket.watch(room, listeners) && all;
        }
        all
    }

    fn show<'s>(&'s self, shown: &mut Vec<Shown<'s>>) -> Option<()> {
        for socket in self.sockets.iter() {
            socket.show(shown)?;
        }
        Some(())
    }

    #[tactic(auto, using(crate::proofs::Came::none_came, crate::proofs::Came::one_after))]
    fn accept(&mut self, room: u64, limits: Limits) -> io::Result<SocketStream> {
        let mut listeners = Several::none();
        self.watch(room, &mut listeners);
        let seen = listeners.looked_at();
        let mut failed = none_waits();
        for _ in 0..self.sockets.len() {
            let number = self.turn();
            if number >= self.sockets.len() || !seen.has_client(number) {
                continue;
            }
            match self.accept_at(number, room, limits) {
                Ok(stream) => return Ok(stream),
                Err(why) => failed = why,
            }
        }
        Err(failed)
    }

    fn close(&mut self) {
        self.close_all();
    }
}

/// Returns whether one of these sockets is open.
fn any_open<L: Listens>(sockets: &[L]) -> bool
    ensures { result ≡ list_any L.listens sockets.now }
{
    sockets.iter().any(|socket| socket.is_open())
}

/// Returns the error that no client waits, which is tried again.
fn none_waits() -> io::Error
    ensures { raw_os_error result ≡ Some (pos 11) }
{
    io::Error::from_raw_os_error(EAGAIN)
}
