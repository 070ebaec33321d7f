//! A `load`: a session that makes the queues that a file states, and sends their messages.

ghost use Rattle.std.specs.Prelude.{◌≡◌, ◌⊎◌, ◌+◌, ◌-◌, ◌<◌, ◌≤◌, ◌^◌, ℕ, List, Option, [], true, IfErr, IfOk, OnOk};
ghost use Rattle.std.specs.Bool.{MatchBool};
ghost use Rattle.std.specs.Io.KnownBytes.{prepend_known};
ghost use Rattle.sysv_clients.specs.declared.loading.Loading.{Loading as ALoading};
ghost use Rattle.sysv_clients.specs.declared.loading.Unloaded.TheVariants as unloadeds;
ghost use Rattle.sysv_clients.specs.declared.saved.Entry.TheVariants as entries;
ghost use Rattle.sysv_clients.specs.declared.stated.TheConstants.{OBJECT_BYTES};
ghost use Rattle.sysv_clients.specs.Feed.{failure_of, feed_name, feed_stream};
ghost use Rattle.sysv_clients.specs.Lines.{IsNext};
ghost use Rattle.sysv_clients.specs.Loaded.{Admits, Checks, EndsAt, Finds, IsAsked, IsCutLoad, IsOfLine, Loads, MayBeAt, Passes, ReadsEntry, Stops, StopsBy, TakesLine, TakesNext, one_taken};
ghost use Rattle.sysv_clients.specs.Loading.{FailsLoadBy, IsDue, LoadsAhead, LoadsAll, find_ask, is_own, make_ask, outset, sending_to_load, set_ask, unloaded_by, window_to_load};
ghost use Rattle.sysv_clients.specs.Dialogue.{Exchanges};
ghost use Rattle.sysv_clients.specs.Asks.{request_of};
ghost use Rattle.sysv_clients.specs.Saved.{IsFormatLine, StatesEntry};
ghost use Rattle.sysv_clients.specs.Window.{empty};
ghost use Rattle.sysv_model.specs.Instrumented.{stream_name, stream_of};
ghost use Rattle.sysv_wire.specs.Requests.{request_encoding};

use crate::client::found;
use crate::command::make_flags;
use crate::exchange::exchange;
use crate::fault::ClientFault;
use crate::feed::Feed;
use crate::saved::{Entry, SavedQueue, read_entry, read_queue};
use crate::sending::{Cut, Sender, Sending, Unsent, Window, Wording, kept};
use bitflags::Flags as _;
use std::alloc::Global;
use std::io;
use std::io::{Read, Write};
use sysv_model::{Body, Cred, Flags, Instrumented, NoMemory, SetTo};
use sysv_wire::{Ask, ReplyContent};
use thiserror::Error;

/// How a file of queues is loaded.
#[derive(Clone, Copy, PartialEq, Eq, Debug)]
pub struct Loading {
    /// The credentials that the client states in its hello. It is the creator of the queues.
    pub cred: Cred,
    /// The number of the first line that is loaded, counted from 1.
    pub from: u64,
    /// Whether a queue may exist.
    pub into: bool,
    /// Whether queues of other creators are made too.
    pub adopt: bool,
    /// Whether to fail at once instead of waiting for room.
    pub nowait: bool,
}

/// Why a line of a file cannot be loaded.
#[derive(Clone, Copy, PartialEq, Eq, Debug, Error)]
pub enum Unfit {
    /// It is longer than a line may be.
    #[error("it has more than 65536 bytes")]
    Long,
    /// It states nothing that a file of queues may have.
    #[error("bad line")]
    Nothing,
    /// It is the first one, and does not state the format.
    #[error("no file of queues, or one of another version")]
    Format,
    /// It belongs to a private queue, which has no key.
    #[error("a private queue, which has no key")]
    Private,
    /// It belongs to a queue of this user and group, who are not the caller.
    #[error("a queue that user {uid}, group {gid} made; --adopt makes it as the caller")]
    Creator {
        /// The creator's user ID.
        uid: u32,
        /// The creator's group ID.
        gid: u32,
    },
    /// It states a message, and no queue is before it.
    #[error("a message before any queue")]
    NoQueue,
    /// Memory for it was refused.
    #[error("no memory")]
    Memory,
}

/// Why a load ends early.
#[derive(Debug, Drop, Error)]
pub enum Unloaded {
    /// The hello ends it, or memory was refused.
    #[error("{0}")]
    Fault(ClientFault),
    /// A request for a line ends it.
    #[error("{}", .0.fault)]
    Cut(Cut),
    /// A line cannot be loaded.
    #[error("a line cannot be loaded after {before} lines")]
    Line {
        /// The number of lines before it. All of them are loaded.
        before: u64,
        /// Why it cannot be loaded.
        why: Unfit,
    },
    /// 2^64 - 1 lines were loaded, each with its LF, and no more are.
    #[error("too many lines")]
    Many,
    /// The file could not be read.
    #[error("cannot read: {0}")]
    Input(io::Error),
}

impl From<Unsent> for Unloaded {
    ghost from_gives = { λ unsent given. given ≡ unloaded_by unsent };

    fn from(unsent: Unsent) -> Unloaded {
        match unsent {
            Unsent::Fault(fault) => Unloaded::Fault(fault),
            Unsent::Cut(cut) => Unloaded::Cut(cut),
            Unsent::Long { before } => at_line(before, Unfit::Long),
            Unsent::NoObject { before } => at_line(before, Unfit::Nothing),
            Unsent::Memory { before } => at_line(before, Unfit::Memory),
            Unsent::Many => Unloaded::Many,
            Unsent::Input(why) => Unloaded::Input(why),
        }
    }
}

/// Returns the end of a load at a line that cannot be loaded.
fn at_line(before: u64, why: Unfit) -> Unloaded
    ensures { result ≡ unloadeds.Line before why }
{
    Unloaded::Line { before, why }
}

impl Loading {
    /// Returns whether the queue is made: its creator is the caller, or need not be.
    fn is_own(&self, queue: &SavedQueue) -> bool
        ensures { result ≡ is_own self.now queue.now }
    {
        self.adopt || (queue.cuid == self.cred.uid && queue.cgid == self.cred.gid)
    }

    /// Returns the request that makes the queue.
    fn make(&self, queue: &SavedQueue) -> Ask
        ensures { result ≡ make_ask self.now queue.now }
    {
        let flags = if self.into {
            Flags::IPC_CREAT.union(Flags::from_bits_retain(queue.mode))
        } else {
            make_flags(queue.mode)
        };
        Ask::Get {
            key: queue.key,
            flags,
        }
    }

    /// Returns the sends to the queues.
    fn sending(&self) -> Sending
        ensures { result ≡ sending_to_load self.now }
    {
        Sending {
            cred: self.cred,
            key: 0,
            wording: Wording::Objects,
            nowait: self.nowait,
        }
    }
}

impl SavedQueue {
    /// Returns the request that finds the queue.
    fn find(&self) -> Ask
        ensures { result ≡ find_ask self.now }
    {
        Ask::Get {
            key: self.key,
            flags: Flags::empty(),
        }
    }

    /// Returns the request that sets the attributes of the queue, which has this identifier.
    fn set(&self, id: i32) -> Ask
        ensures { result ≡ set_ask self.now id }
    {
        Ask::Set {
            id,
            to: SetTo {
                uid: self.uid,
                gid: self.gid,
                mode: self.mode,
                qbytes: self.qbytes,
            },
        }
    }
}

/// Makes the queues that the lines of an input state, as `save_all` writes them, sets them to their
/// owners, modes and limits, and sends their messages, over one session and in order.
///
/// The client writes a hello. For the line of a queue it writes a get of its key, with IPC_CREAT,
/// IPC_EXCL and its mode, without IPC_EXCL with `into`, and then a set of the identifier that this
/// returned; for the line of a message a send to that queue. All are of version 2. Sends are in a
/// window, as those of `send_lines`; a get is written only once all sends before it have a reply.
/// Lines before `from` are read, and nothing is requested for them. If a message is the first line
/// of its queue that is loaded, a get of its key with flags 0 finds the queue.
///
/// # Errors
///
/// The lines before are loaded, and after all errors but `Cut` nothing else is.
///
/// - `Fault`: the hello is refused, cannot be written or has no reply. Or memory was refused; it is
///   allocated first, so nothing was written to the server or read.
/// - `Cut`: a get, a set or a send is refused, cannot be written or has no reply. It states how
///   many lines are loaded before, how many later ones were sent, and of how many that is unknown.
///   If the set of a queue is refused, the queue stays.
/// - `Line`: the next line cannot be loaded: it has more than 65,536 bytes; it states no format, no
///   queue and no message; it is the first line and states no format; its queue is private, or,
///   without `adopt`, has a creator who is not the caller; it is a message before any queue; or
///   memory for it was refused.
/// - `Many`: 2^64 - 1 lines are loaded. Whether there are more is not looked at.
/// - `Input`: a read of the input failed.
pub fn load_lines<I: Read, R: Read, W: Write>(
    alloc: Global,
    loading: &Loading,
    input: &mut I,
    reader: &mut R,
    writer: &mut W,
) -> Result<(), Unloaded>
    ensures { LoadsAhead loading.now result (R.remaining reader.old) (R.remaining reader.new)
        (W.contents writer.old) (W.contents writer.new)
        (I.remaining input.old) (I.remaining input.new) }
{
    load_feed(alloc, loading, &mut Feed::new(input), reader, writer)
}

/// Loads lines like `load_lines`. If the input could not be read, then the last read of it failed,
/// and the feed states the kind of the error that is returned.
///
/// # Errors
///
/// Those of `load_lines`.
pub fn load_feed<I: Read, R: Read, W: Write>(
    alloc: Global,
    loading: &Loading,
    input: &mut Feed<'_, I>,
    reader: &mut R,
    writer: &mut W,
) -> Result<(), Unloaded>
    ensures loads { LoadsAhead loading.now result
        (R.remaining reader.old) (R.remaining reader.new)
        (W.contents writer.old) (W.contents writer.new)
        (I.remaining (feed_stream input.old)) (I.remaining (feed_stream input.new)) }
    ensures failed { FailsLoadBy result (failure_of input.new) }
    // The input stays the same.
    ensures same { feed_name input.new ≡ feed_name input.old }
{
    load_instrumented(
        alloc,
        loading,
        input,
        &mut Instrumented::new(reader),
        &mut Instrumented::new(writer),
    )
}

/// Loads lines like `load_feed`.
fn load_instrumented<I: Read, R: Read, W: Write>(
    alloc: Global,
    loading: &Loading,
    input: &mut Feed<'_, I>,
    reader: &mut Instrumented<'_, R>,
    writer: &mut Instrumented<'_, W>,
) -> Result<(), Unloaded>
    ensures loads { LoadsAhead loading.now result
        (R.remaining (stream_of reader.old)) (R.remaining (stream_of reader.new))
        (W.contents (stream_of writer.old)) (W.contents (stream_of writer.new))
        (I.remaining (feed_stream input.old)) (I.remaining (feed_stream input.new)) }
    ensures failed { FailsLoadBy result (failure_of input.new) }
    ensures same_input { feed_name input.new ≡ feed_name input.old }
    ensures same_reader { stream_name reader.new ≡ stream_name reader.old }
    ensures same_writer { stream_name writer.new ≡ stream_name writer.old }
{
    match Loader::open(alloc) {
        Ok(mut loader) => loader.load_all(alloc, loading, input, reader, writer),
        Err(NoMemory) => Err(Unloaded::Fault(ClientFault::NoMemory)),
    }
}

/// Where a load is.
#[derive(Clone, Copy)]
pub(crate) struct Place {
    /// The number of lines that were taken: passed over or loaded.
    lines: u64,
    /// The queue of the last queue's line, if there is one since the last line of a format.
    queue: Option<SavedQueue>,
    /// The identifier of that queue, once it was made or found.
    found: Option<i32>,
}

impl Place {
    /// Returns the place before the first line.
    fn outset() -> Place
        ensures { result ≡ outset }
    {
        Place {
            lines: 0,
            queue: None,
            found: None,
        }
    }

    /// Returns whether the next line is before the one to load from. The first line is not, since
    /// it states the format.
    fn is_early(&self, loading: &Loading) -> bool
        requires { self.now.lines < 2 ^ 64 - 1 }
        ensures { MatchBool result
            ((1 ≤ self.now.lines) × (self.now.lines + 1 < loading.now.from))
            (IsDue loading.now self.now.lines) }
    {
        self.lines > 0 && self.lines + 1 < loading.from
    }
}

/// A client that loads queues.
#[derive(Drop)]
struct Loader {
    /// What reads the lines, and sends the messages.
    sender: Sender,
    /// The body of the other requests, which is empty.
    none: Body,
    /// Where it is.
    place: Place,
    /// The sends on their way, and the number of lines before theirs.
    window: Window,
}

impl Loader {
    /// Creates a client that has made no request. Fails with `NoMemory` if allocation fails.
    fn open(alloc: Global) -> Result<Loader, NoMemory>
        ensures { IfOk result (λ loader. (loader.none ≡ []) × (loader.sender.chunk ≡ [])
            × (loader.place ≡ outset) × (loader.window ≡ empty)) }
    {
        Ok(Loader {
            sender: Sender::open(alloc, Wording::Objects)?,
            none: Body::open(alloc)?,
            place: Place::outset(),
            window: Window::empty(),
        })
    }

    /// Says hello, and loads each line.
    fn load_all<I: Read, R: Read, W: Write>(
        &mut self,
        alloc: Global,
        loading: &Loading,
        input: &mut Feed<'_, I>,
        reader: &mut Instrumented<'_, R>,
        writer: &mut Instrumented<'_, W>,
    ) -> Result<(), Unloaded>
        requires none { self.old.none ≡ [] }
        requires chunk { self.old.sender.chunk ≡ [] }
        requires place { self.old.place ≡ outset }
        requires window { self.old.window ≡ empty }
        ensures loads { LoadsAhead loading.now result
            (R.remaining (stream_of reader.old)) (R.remaining (stream_of reader.new))
            (W.contents (stream_of writer.old)) (W.contents (stream_of writer.new))
            (I.remaining (feed_stream input.old)) (I.remaining (feed_stream input.new)) }
        ensures failed { FailsLoadBy result (failure_of input.new) }
        ensures same_input { feed_name input.new ≡ feed_name input.old }
        ensures same_reader { stream_name reader.new ≡ stream_name reader.old }
        ensures same_writer { stream_name writer.new ≡ stream_name writer.old }
    {
        if let Err(fault) = self.request(Ask::Hello(loading.cred), reader, writer) {
            return Err(Unloaded::Fault(fault));
        }
        while self.place.lines < u64::MAX {
            match self.load_next(alloc, loading, input, reader, writer) {
                Ok(true) => {}
                Ok(false) => return self.end(reader, writer, Ok(())),
                Err(why) => return self.stop(reader, writer, why),
            }
        }
        self.end(reader, writer, Err(Unloaded::Many))
    }

    /// Reads and loads the next line, if there is one. Returns whether another one may follow.
    fn load_next<I: Read, R: Read, W: Write>(
        &mut self,
        alloc: Global,
        loading: &Loading,
        input: &mut Feed<'_, I>,
        reader: &mut Instrumented<'_, R>,
        writer: &mut Instrumented<'_, W>,
    ) -> Result<bool, Unloaded>
        requires none { self.old.none ≡ [] }
        requires lines { self.old.place.lines < 2 ^ 64 - 1 }
        requires many { self.old.window.done + self.old.window.waiting ≡ self.old.place.lines }
        requires room { self.old.window.waiting < window_to_load loading.now }
        ensures takes { (left taken fed : Option (List ℕ)) →
            Loads loading.now left (R.remaining (stream_of reader.old)) taken
            (W.contents (stream_of writer.old)) fed (prepend_known self.old.sender.chunk
            (I.remaining (feed_stream input.old))) self.old.place self.old.window
            → TakesNext loading.now result left (R.remaining (stream_of reader.new)) taken
            (W.contents (stream_of writer.new)) fed (prepend_known self.new.sender.chunk
            (I.remaining (feed_stream input.new))) self.new.place self.new.window }
        ensures lines { IfOk result (λ more. more ≡ true
            → self.new.place.lines ≡ self.old.place.lines + 1) }
        ensures many { OnOk result
            (self.new.window.done + self.new.window.waiting ≡ self.new.place.lines) }
        ensures room { OnOk result (self.new.window.waiting < window_to_load loading.now) }
        ensures bound { self.new.place.lines ≤ self.old.place.lines + 1 }
        ensures none { self.new.none ≡ self.old.none }
        ensures failed { IfErr result (λ why. FailsLoadBy (Err why) (failure_of input.new)) }
        ensures same_input { feed_name input.new ≡ feed_name input.old }
        ensures same_reader { stream_name reader.new ≡ stream_name reader.old }
        ensures same_writer { stream_name writer.new ≡ stream_name writer.old }
    {
        let fetched = self
            .sender
            .fetch(input, Wording::Objects, self.place.lines)?;
        if fetched.is_nothing() {
            return self.at_end();
        }
        self.pass_or_load(alloc, loading, reader, writer)?;
        Ok(fetched.is_line())
    }

    /// Returns false: no line is left. Fails if there was none, since the first states the format.
    fn at_end(&self) -> Result<bool, Unloaded>
        ensures { EndsAt self.now.place.lines result }
    {
        if self.place.lines == 0 {
            Err(at_line(0, Unfit::Format))
        } else {
            Ok(false)
        }
    }

    /// Takes the line that was read: passes over it, or loads it.
    fn pass_or_load<R: Read, W: Write>(
        &mut self,
        alloc: Global,
        loading: &Loading,
        reader: &mut Instrumented<'_, R>,
        writer: &mut Instrumented<'_, W>,
    ) -> Result<(), Unloaded>
        requires none { self.old.none ≡ [] }
        requires lines { self.old.place.lines < 2 ^ 64 - 1 }
        requires many { self.old.window.done + self.old.window.waiting ≡ self.old.place.lines }
        requires room { self.old.window.waiting < window_to_load loading.now }
        ensures takes { (left taken fed unloaded unfed : Option (List ℕ)) →
            IsNext OBJECT_BYTES self.old.sender.line unloaded unfed
            → Loads loading.now left (R.remaining (stream_of reader.old)) taken
            (W.contents (stream_of writer.old)) fed unloaded self.old.place self.old.window
            → TakesLine loading.now result left (R.remaining (stream_of reader.new)) taken
            (W.contents (stream_of writer.new)) fed unfed self.new.place self.new.window }
        ensures lines { OnOk result (self.new.place.lines ≡ self.old.place.lines + 1) }
        ensures bound { self.new.place.lines ≤ self.old.place.lines + 1 }
        ensures many { OnOk result
            (self.new.window.done + self.new.window.waiting ≡ self.new.place.lines) }
        ensures room { OnOk result (self.new.window.waiting < window_to_load loading.now) }
        ensures of_line { IfErr result IsOfLine }
        ensures chunk { self.new.sender.chunk ≡ self.old.sender.chunk }
        ensures none { self.new.none ≡ self.old.none }
        ensures same_reader { stream_name reader.new ≡ stream_name reader.old }
        ensures same_writer { stream_name writer.new ≡ stream_name writer.old }
    {
        if self.place.is_early(loading) {
            self.pass()
        } else {
            self.load(alloc, loading, reader, writer)
        }
    }

    /// Passes over the line that was read, which is not loaded. If it is that of a queue, the next
    /// messages belong to it.
    fn pass(&mut self) -> Result<(), Unloaded>
        requires lines { self.old.place.lines < 2 ^ 64 - 1 }
        requires many { self.old.window.done + self.old.window.waiting ≡ self.old.place.lines }
        ensures passes { Passes result self.old.sender.line self.old.place self.new.place }
        ensures lines { OnOk result (self.new.place.lines ≡ self.old.place.lines + 1) }
        ensures bound { self.new.place.lines ≤ self.old.place.lines + 1 }
        ensures window { OnOk result (self.new.window ≡ one_taken self.old.window) }
        ensures same_window { IfErr result (λ _. self.new.window ≡ self.old.window) }
        ensures many { OnOk result
            (self.new.window.done + self.new.window.waiting ≡ self.new.place.lines) }
        ensures waiting { self.new.window.waiting ≡ self.old.window.waiting }
        ensures of_line { IfErr result IsOfLine }
        ensures chunk { self.new.sender.chunk ≡ self.old.sender.chunk }
        ensures none { self.new.none ≡ self.old.none }
    {
        match read_queue(self.sender.line.bytes(), &mut self.sender.scratch) {
            Ok(None) => self.take(self.place.queue, self.place.found),
            Ok(queue) => self.take(queue, None),
            Err(NoMemory) => return Err(at_line(self.place.lines, Unfit::Memory)),
        }
        Ok(())
    }

    /// Counts the next line, which was taken, and for which no send is on its way. The next
    /// messages belong to this queue.
    fn take(&mut self, queue: Option<SavedQueue>, found: Option<i32>)
        requires lines { self.old.place.lines < 2 ^ 64 - 1 }
        requires done { self.old.window.done < 2 ^ 64 - 1 }
        ensures place { self.new.place ≡ record {
          lines = self.old.place.lines + 1;
          queue = queue;
          found = found;
        } }
        ensures window { self.new.window ≡ one_taken self.old.window }
        ensures chunk { self.new.sender.chunk ≡ self.old.sender.chunk }
        ensures none { self.new.none ≡ self.old.none }
    {
        self.window.done += 1;
        self.place = Place {
            lines: self.place.lines + 1,
            queue,
            found,
        };
    }

    /// Loads the line that was read.
    fn load<R: Read, W: Write>(
        &mut self,
        alloc: Global,
        loading: &Loading,
        reader: &mut Instrumented<'_, R>,
        writer: &mut Instrumented<'_, W>,
    ) -> Result<(), Unloaded>
        requires none { self.old.none ≡ [] }
        requires lines { self.old.place.lines < 2 ^ 64 - 1 }
        requires many { self.old.window.done + self.old.window.waiting ≡ self.old.place.lines }
        requires room { self.old.window.waiting < window_to_load loading.now }
        ensures takes { (left taken fed unloaded unfed : Option (List ℕ)) →
            IsDue loading.now self.old.place.lines
            → IsNext OBJECT_BYTES self.old.sender.line unloaded unfed
            → Loads loading.now left (R.remaining (stream_of reader.old)) taken
            (W.contents (stream_of writer.old)) fed unloaded self.old.place self.old.window
            → TakesLine loading.now result left (R.remaining (stream_of reader.new)) taken
            (W.contents (stream_of writer.new)) fed unfed self.new.place self.new.window }
        ensures lines { OnOk result (self.new.place.lines ≡ self.old.place.lines + 1) }
        ensures bound { self.new.place.lines ≤ self.old.place.lines + 1 }
        ensures many { OnOk result
            (self.new.window.done + self.new.window.waiting ≡ self.new.place.lines) }
        ensures room { OnOk result (self.new.window.waiting < window_to_load loading.now) }
        ensures of_line { IfErr result IsOfLine }
        ensures chunk { self.new.sender.chunk ≡ self.old.sender.chunk }
        ensures none { self.new.none ≡ self.old.none }
        ensures same_reader { stream_name reader.new ≡ stream_name reader.old }
        ensures same_writer { stream_name writer.new ≡ stream_name writer.old }
    {
        match self.entry(alloc)? {
            Entry::Format => self.load_format(reader, writer),
            Entry::Queue(queue) => self.load_queue(loading, queue, reader, writer),
            Entry::Message(mtype) => self.load_message(loading, mtype, reader, writer),
        }
    }

    /// Loads a line that states the format.
    fn load_format<R: Read, W: Write>(
        &mut self,
        reader: &mut Instrumented<'_, R>,
        writer: &mut Instrumented<'_, W>,
    ) -> Result<(), Unloaded>
        requires lines { self.old.place.lines < 2 ^ 64 - 1 }
        requires many { self.old.window.done + self.old.window.waiting ≡ self.old.place.lines }
        ensures takes { (loading : ALoading) (left taken fed unloaded unfed : Option (List ℕ)) →
            IsDue loading self.old.place.lines → IsFormatLine self.old.sender.line
            → IsNext OBJECT_BYTES self.old.sender.line unloaded unfed
            → Loads loading left (R.remaining (stream_of reader.old)) taken
            (W.contents (stream_of writer.old)) fed unloaded self.old.place self.old.window
            → TakesLine loading result left (R.remaining (stream_of reader.new)) taken
            (W.contents (stream_of writer.new)) fed unfed self.new.place self.new.window }
        ensures lines { OnOk result (self.new.place.lines ≡ self.old.place.lines + 1) }
        ensures bound { self.new.place.lines ≤ self.old.place.lines + 1 }
        ensures many { OnOk result
            (self.new.window.done + self.new.window.waiting ≡ self.new.place.lines) }
        ensures none_waits { OnOk result (self.new.window.waiting ≡ 0) }
        ensures of_line { IfErr result IsOfLine }
        ensures chunk { self.new.sender.chunk ≡ self.old.sender.chunk }
        ensures none { self.new.none ≡ self.old.none }
        ensures same_reader { stream_name reader.new ≡ stream_name reader.old }
        ensures same_writer { stream_name writer.new ≡ stream_name writer.old }
    {
        self.sender.drain(reader, writer, &mut self.window, 0)?;
        self.take(None, None);
        Ok(())
    }

    /// Loads the line of a queue.
    fn load_queue<R: Read, W: Write>(
        &mut self,
        loading: &Loading,
        queue: SavedQueue,
        reader: &mut Instrumented<'_, R>,
        writer: &mut Instrumented<'_, W>,
    ) -> Result<(), Unloaded>
        requires none { self.old.none ≡ [] }
        requires lines { self.old.place.lines < 2 ^ 64 - 1 }
        requires many { self.old.window.done + self.old.window.waiting ≡ self.old.place.lines }
        requires room { self.old.window.waiting < window_to_load loading.now }
        ensures takes { (left taken fed unloaded unfed : Option (List ℕ)) →
            IsDue loading.now self.old.place.lines
            → StatesEntry self.old.sender.line (entries.Queue queue) self.old.sender.text
            → (self.old.place.lines ≡ 0 → (entries.Queue queue) ≡ entries.Format)
            → IsNext OBJECT_BYTES self.old.sender.line unloaded unfed
            → Loads loading.now left (R.remaining (stream_of reader.old)) taken
            (W.contents (stream_of writer.old)) fed unloaded self.old.place self.old.window
            → TakesLine loading.now result left (R.remaining (stream_of reader.new)) taken
            (W.contents (stream_of writer.new)) fed unfed self.new.place self.new.window }
        ensures lines { OnOk result (self.new.place.lines ≡ self.old.place.lines + 1) }
        ensures bound { self.new.place.lines ≤ self.old.place.lines + 1 }
        ensures many { OnOk result
            (self.new.window.done + self.new.window.waiting ≡ self.new.place.lines) }
        ensures room { OnOk result (self.new.window.waiting < window_to_load loading.now) }
        ensures of_line { IfErr result IsOfLine }
        ensures chunk { self.new.sender.chunk ≡ self.old.sender.chunk }
        ensures none { self.new.none ≡ self.old.none }
        ensures same_reader { stream_name reader.new ≡ stream_name reader.old }
        ensures same_writer { stream_name writer.new ≡ stream_name writer.old }
    {
        self.sender.drain(reader, writer, &mut self.window, 0)?;
        check(loading, self.place.lines, &queue)?;
        let id = self.asked(loading.make(&queue), reader, writer)?;
        self.asked(queue.set(id), reader, writer)?;
        self.take(Some(queue), Some(id));
        Ok(())
    }

    /// Loads the line of a message of this type. Its body was read.
    fn load_message<R: Read, W: Write>(
        &mut self,
        loading: &Loading,
        mtype: i64,
        reader: &mut Instrumented<'_, R>,
        writer: &mut Instrumented<'_, W>,
    ) -> Result<(), Unloaded>
        requires none { self.old.none ≡ [] }
        requires lines { self.old.place.lines < 2 ^ 64 - 1 }
        requires many { self.old.window.done + self.old.window.waiting ≡ self.old.place.lines }
        requires room { self.old.window.waiting < window_to_load loading.now }
        ensures takes { (left taken fed unloaded unfed : Option (List ℕ)) →
            IsDue loading.now self.old.place.lines
            → StatesEntry self.old.sender.line (entries.Message mtype) self.old.sender.text
            → (self.old.place.lines ≡ 0 → (entries.Message mtype) ≡ entries.Format)
            → IsNext OBJECT_BYTES self.old.sender.line unloaded unfed
            → Loads loading.now left (R.remaining (stream_of reader.old)) taken
            (W.contents (stream_of writer.old)) fed unloaded self.old.place self.old.window
            → TakesLine loading.now result left (R.remaining (stream_of reader.new)) taken
            (W.contents (stream_of writer.new)) fed unfed self.new.place self.new.window }
        ensures lines { OnOk result (self.new.place.lines ≡ self.old.place.lines + 1) }
        ensures bound { self.new.place.lines ≤ self.old.place.lines + 1 }
        ensures many { OnOk result
            (self.new.window.done + self.new.window.waiting ≡ self.new.place.lines) }
        ensures room { OnOk result (self.new.window.waiting < window_to_load loading.now) }
        ensures of_line { IfErr result IsOfLine }
        ensures chunk { self.new.sender.chunk ≡ self.old.sender.chunk }
        ensures none { self.new.none ≡ self.old.none }
        ensures same_reader { stream_name reader.new ≡ stream_name reader.old }
        ensures same_writer { stream_name writer.new ≡ stream_name writer.old }
    {
        let id = self.find(loading, reader, writer)?;
        let sending = loading.sending();
        let ask = sending.send(id, mtype);
        self.sender.send(writer, &mut self.window, ask)?;
        self.place.lines += 1;
        self.place.found = Some(id);
        let keep = kept(&sending, self.window.waiting, self.sender.chunk.has_line());
        self.sender.drain(reader, writer, &mut self.window, keep)?;
        Ok(())
    }

    /// Reads what the line states that was read. The first one states the format.
    fn entry(&mut self, alloc: Global) -> Result<Entry, Unloaded>
        ensures reads { ReadsEntry self.old.place.lines result self.old.sender.line
            self.new.sender.text }
        ensures place { self.new.place ≡ self.old.place }
        ensures window { self.new.window ≡ self.old.window }
        ensures chunk { self.new.sender.chunk ≡ self.old.sender.chunk }
        ensures line { self.new.sender.line ≡ self.old.sender.line }
        ensures none { self.new.none ≡ self.old.none }
    {
        let lines = self.place.lines;
        let line = self.sender.line.bytes();
        match read_entry(alloc, line, &mut self.sender.scratch, &mut self.sender.text) {
            Ok(found) => admit(lines, found),
            Err(NoMemory) => Err(at_line(lines, Unfit::Memory)),
        }
    }

    /// Finds the queue of a message, which is the next line, unless it was made or found before.
    /// Returns its identifier.
    fn find<R: Read, W: Write>(
        &mut self,
        loading: &Loading,
        reader: &mut Instrumented<'_, R>,
        writer: &mut Instrumented<'_, W>,
    ) -> Result<i32, Unloaded>
        requires { self.old.none ≡ [] }
        ensures finds { MayBeAt loading.now self.old.place → Finds loading.now self.old.place
            result (R.remaining (stream_of reader.old)) (R.remaining (stream_of reader.new))
            (W.contents (stream_of writer.old)) (W.contents (stream_of writer.new)) }
        ensures of_line { IfErr result IsOfLine }
        ensures place { self.new.place ≡ self.old.place }
        ensures window { self.new.window ≡ self.old.window }
        ensures text { self.new.sender.text ≡ self.old.sender.text }
        ensures chunk { self.new.sender.chunk ≡ self.old.sender.chunk }
        ensures none { self.new.none ≡ self.old.none }
        ensures same_reader { stream_name reader.new ≡ stream_name reader.old }
        ensures same_writer { stream_name writer.new ≡ stream_name writer.old }
    {
        if let Some(id) = self.place.found {
            return Ok(id);
        }
        let Some(queue) = self.place.queue else {
            return Err(at_line(self.place.lines, Unfit::NoQueue));
        };
        check(loading, self.place.lines, &queue)?;
        self.asked(queue.find(), reader, writer)
    }

    /// Makes a request for the next line; all lines before are loaded. Returns the identifier in
    /// the reply, or 0 if there is none.
    fn asked<R: Read, W: Write>(
        &mut self,
        ask: Ask,
        reader: &mut Instrumented<'_, R>,
        writer: &mut Instrumented<'_, W>,
    ) -> Result<i32, Unloaded>
        requires { self.old.none ≡ [] }
        ensures asks { IsAsked self.old.place.lines ask result
            (R.remaining (stream_of reader.old)) (R.remaining (stream_of reader.new))
            (W.contents (stream_of writer.old)) (W.contents (stream_of writer.new)) }
        ensures of_line { IfErr result IsOfLine }
        ensures place { self.new.place ≡ self.old.place }
        ensures window { self.new.window ≡ self.old.window }
        ensures text { self.new.sender.text ≡ self.old.sender.text }
        ensures chunk { self.new.sender.chunk ≡ self.old.sender.chunk }
        ensures none { self.new.none ≡ self.old.none }
        ensures same_reader { stream_name reader.new ≡ stream_name reader.old }
        ensures same_writer { stream_name writer.new ≡ stream_name writer.old }
    {
        match self.request(ask, reader, writer) {
            Ok(answer) => Ok(found(0, &answer)),
            Err(fault) => Err(Unloaded::Cut(Cut {
                before: self.place.lines,
                fault,
                after: 0,
                unknown: match fault {
                    ClientFault::Refused(_) | ClientFault::NoMemory => 0,
                    ClientFault::NoReply => 1,
                },
            })),
        }
    }

    /// Makes a request without a body.
    fn request<R: Read, W: Write>(
        &mut self,
        ask: Ask,
        reader: &mut Instrumented<'_, R>,
        writer: &mut Instrumented<'_, W>,
    ) -> Result<ReplyContent, ClientFault>
        requires { self.old.none ≡ [] }
        ensures exchanges { Exchanges (request_encoding (request_of ask) []) ask result
            (R.remaining (stream_of reader.old)) (R.remaining (stream_of reader.new))
            (W.contents (stream_of writer.old)) (W.contents (stream_of writer.new))
            self.new.sender.given }
        ensures place { self.new.place ≡ self.old.place }
        ensures window { self.new.window ≡ self.old.window }
        ensures text { self.new.sender.text ≡ self.old.sender.text }
        ensures chunk { self.new.sender.chunk ≡ self.old.sender.chunk }
        ensures none { self.new.none ≡ self.old.none }
        ensures same_reader { stream_name reader.new ≡ stream_name reader.old }
        ensures same_writer { stream_name writer.new ≡ stream_name writer.old }
    {
        exchange(reader, writer, ask, &self.none, &mut self.sender.given)
    }

    /// Ends the load at a line or a request that ends it, after the replies that are left.
    fn stop<R: Read, W: Write>(
        &mut self,
        reader: &mut Instrumented<'_, R>,
        writer: &mut Instrumented<'_, W>,
        why: Unloaded,
    ) -> Result<(), Unloaded>
        requires { ¬ IsCutLoad why
            → self.old.window.done + self.old.window.waiting < 2 ^ 64 }
        ensures stops { (loading : ALoading) (left taken fed unfed : Option (List ℕ)) →
            StopsBy loading why left (R.remaining (stream_of reader.old)) taken
            (W.contents (stream_of writer.old)) fed unfed self.old.place self.old.window
            → LoadsAll loading result left (R.remaining (stream_of reader.new)) taken
            (W.contents (stream_of writer.new)) fed unfed }
        ensures same_end { (result ≡ Err why) ⊎ IfErr result IsCutLoad }
        ensures same_reader { stream_name reader.new ≡ stream_name reader.old }
        ensures same_writer { stream_name writer.new ≡ stream_name writer.old }
    {
        match why {
            Unloaded::Cut(cut) => Err(Unloaded::Cut(cut)),
            why => self.end(reader, writer, Err(why)),
        }
    }

    /// Reads the replies that are left, and ends the load like its lines.
    fn end<R: Read, W: Write>(
        &mut self,
        reader: &mut Instrumented<'_, R>,
        writer: &mut Instrumented<'_, W>,
        ended: Result<(), Unloaded>,
    ) -> Result<(), Unloaded>
        requires { self.old.window.done + self.old.window.waiting < 2 ^ 64 }
        ensures ends { (loading : ALoading) (left taken fed unfed : Option (List ℕ)) →
            Stops loading ended left (R.remaining (stream_of reader.old)) taken
            (W.contents (stream_of writer.old)) fed unfed self.old.place self.old.window
            → LoadsAll loading result left (R.remaining (stream_of reader.new)) taken
            (W.contents (stream_of writer.new)) fed unfed }
        ensures same_end { (result ≡ ended) ⊎ IfErr result IsCutLoad }
        ensures chunk { self.new.sender.chunk ≡ self.old.sender.chunk }
        ensures same_reader { stream_name reader.new ≡ stream_name reader.old }
        ensures same_writer { stream_name writer.new ≡ stream_name writer.old }
    {
        self.sender.drain(reader, writer, &mut self.window, 0)?;
        ended
    }
}

/// Returns the entry that a line after this number of lines states. The first one states the
/// format.
fn admit(lines: u64, found: Option<Entry>) -> Result<Entry, Unloaded>
    ensures { Admits lines found result }
{
    let Some(entry) = found else {
        if lines == 0 {
            return Err(at_line(lines, Unfit::Format));
        }
        return Err(at_line(lines, Unfit::Nothing));
    };
    if lines > 0 {
        return Ok(entry);
    }
    match entry {
        Entry::Format => Ok(entry),
        Entry::Queue(_) => Err(at_line(lines, Unfit::Format)),
        Entry::Message(_) => Err(at_line(lines, Unfit::Format)),
    }
}

/// Fails if this queue, to which the line after this number of lines belongs, is not loaded: it is
/// private, or its creator is not the caller.
fn check(loading: &Loading, lines: u64, queue: &SavedQueue) -> Result<(), Unloaded>
    ensures { Checks loading.now lines queue.now result }
{
    if queue.key == 0 {
        Err(at_line(lines, Unfit::Private))
    } else if loading.is_own(queue) {
        Ok(())
    } else {
        Err(at_line(
            lines,
            Unfit::Creator {
                uid: queue.cuid,
                gid: queue.cgid,
            },
        ))
    }
}
