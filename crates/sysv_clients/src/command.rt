//! The commands of a client.

ghost use Rattle.std.specs.Prelude.{◌≡◌, ◌<◌, false, true, IfSome, slice_get};
ghost use Rattle.sysv_clients.specs.Asks.{asks_of, find_ask, hold_ask, is_receive, make_asks, receive_ask, receive_asks, remove_asks, row_asks, task_asks, flags_to_create, flags_to_find, flags_to_make, flags_to_receive, flags_to_wait};

use bitflags::Flags as _;
use sysv_model::{Cred, Flags, SetTo};
use sysv_wire::Ask;

/// The maximum number of rows that `ipcs` requests, whatever number of slots a server states. Linux
/// allows at most this number of queues in a namespace (its `IPCMNI`), so no table of `ipcs` is
/// longer.
pub(crate) const MAX_ROWS: u32 = 32_768;

/// The maximum number of requests of a command: those of `ipcs`, a hello and one for each row.
pub(crate) const MAX_REQUESTS: u32 = 32_769;

/// The maximum number of rows whose requests are on their way: written, and without a reply. These
/// requests, or the replies to them, fit in the buffer of a socket, so neither side waits for the
/// other to read.
pub(crate) const ROW_WINDOW: u32 = 256;

/// A client's task, with the credentials for it.
#[derive(Clone, Copy, PartialEq, Eq, Debug)]
pub struct Command<'a> {
    /// The credentials that the client states in its hello.
    pub cred: Cred,
    /// The task.
    pub task: Task<'a>,
}

/// The task of a client.
#[derive(Clone, Copy, PartialEq, Eq, Debug)]
pub enum Task<'a> {
    /// `ipcs`: lists the queues.
    List(Format),
    /// `ipcs -i`: shows the attributes of the queue with this identifier.
    Show(i32),
    /// `ipcrm`: removes a queue.
    Remove(Target),
    /// `ipcmk`: makes a queue.
    Make(Making),
    /// `snd`: sends a message to a queue, which is created with mode 0600 if there is none.
    Send {
        /// The queue's key. Key 0 is `IPC_PRIVATE`.
        key: i32,
        /// The message's body, at most 8,256 bytes.
        text: &'a [u8],
        /// The message's type.
        mtype: i64,
        /// Whether to fail at once instead of waiting for room.
        nowait: bool,
    },
    /// `rcv`: receives a message from a queue.
    Receive(Receipt),
}

/// The form in which `ipcs` lists the queues.
#[derive(Clone, Copy, PartialEq, Eq, Debug)]
pub enum Format {
    /// A table with a head.
    Table,
    /// A JSON object per line and queue.
    Json,
}

/// The queue that an `ipcmk` makes. The client's user and group own it.
#[derive(Clone, Copy, PartialEq, Eq, Debug)]
pub struct Making {
    /// The queue's key. Key 0 is `IPC_PRIVATE`. There is no queue of another key yet.
    pub key: i32,
    /// The queue's mode, 0 to 0o777.
    pub mode: u32,
    /// The maximum number of queued bytes, or `None` for that of a new queue.
    pub qbytes: Option<u32>,
}

/// What a `rcv` receives, and how it shows it.
#[derive(Clone, Copy, PartialEq, Eq, Debug)]
pub struct Receipt {
    /// The queue's key.
    pub key: i32,
    /// Whether the queue is created if there is none.
    pub create: bool,
    /// The mode of a queue that is created, 0 to 0o777.
    pub mode: u32,
    /// The maximum number of bytes of the body to receive.
    pub size: u32,
    /// The type to receive, as `msgrcv` defines it: 0 for any type, a positive number for
    /// exactly that type, and a negative number for the lowest type up to its absolute value.
    pub mtype: i64,
    /// Whether to receive a message of any type but `mtype`.
    pub except: bool,
    /// Whether to fail at once instead of waiting for a message.
    pub nowait: bool,
    /// Whether to shorten a longer body instead of failing.
    pub noerror: bool,
    /// Whether to show the message's type and a tab before its body. A JSON object has the type
    /// anyway.
    pub show_type: bool,
    /// The form in which to show the message.
    pub form: Form,
}

/// The form in which a `rcv` shows a message.
#[derive(Clone, Copy, PartialEq, Eq, Debug)]
pub enum Form {
    /// The body and an LF.
    Line,
    /// The body alone.
    Raw,
    /// The body and a zero byte.
    Zero,
    /// A JSON object per line and message.
    Object,
}

/// The queue that an `ipcrm` removes.
#[derive(Clone, Copy, PartialEq, Eq, Debug)]
pub enum Target {
    /// The queue with this identifier.
    Id(i32),
    /// The queue with this key.
    Key(i32),
    /// All queues. `run_client` removes none of them; `remove_all` does.
    All,
}

impl Command<'_> {
    /// Returns the request at `place`, counted from 0, or `None` after the last. `slots` is the
    /// number of slots that the reply to the hello states, and `id` is the identifier that the last
    /// `msgget` returned.
    pub(crate) fn ask(&self, place: u32, slots: u32, id: i32) -> Option<Ask>
        ensures ask { result ≡ slice_get (asks_of self.now slots id) place }
        ensures few { IfSome result (λ _. place < MAX_REQUESTS) }
        ensures receive { IfSome result (λ ask. is_receive ask ≡ true → place ≡ 2) }
    {
        match place {
            0 => Some(Ask::Hello(self.cred)),
            _ => self.task.ask(&self.cred, place - 1, slots, id),
        }
    }
}

impl Task<'_> {
    /// Returns the request at `place` after the hello, counted from 0, or `None` after the last.
    fn ask(&self, owner: &Cred, place: u32, slots: u32, id: i32) -> Option<Ask>
        ensures ask { result ≡ slice_get (task_asks owner.now self.now slots id) place }
        ensures few { IfSome result (λ _. place < MAX_ROWS) }
        ensures receive { IfSome result (λ ask. is_receive ask ≡ true → place ≡ 1) }
    {
        match *self {
            Task::List(_) => row(place, slots),
            Task::Show(id) => match place {
                0 => Some(Ask::Stat { id }),
                _ => None,
            },
            Task::Remove(target) => target.remove(place, id),
            Task::Make(making) => making.ask(owner, place, id),
            Task::Send {
                key,
                mtype,
                nowait,
                ..
            } => match place {
                0 => Some(Ask::Get {
                    key,
                    flags: create_flags(),
                }),
                1 => Some(Ask::Snd {
                    id,
                    mtype,
                    flags: wait_flags(nowait),
                }),
                _ => None,
            },
            Task::Receive(receipt) => receipt.ask(place, id),
        }
    }
}

/// Returns the request for the row of a slot, or `None` if the slot is not below both `slots` and
/// `MAX_ROWS`.
pub(crate) fn row(slot: u32, slots: u32) -> Option<Ask>
    ensures ask { result ≡ slice_get (row_asks slots) slot }
    ensures few { IfSome result (λ _. slot < MAX_ROWS) }
    ensures receive { IfSome result (λ ask. is_receive ask ≡ false) }
{
    let rows = slots.min(MAX_ROWS);
    if slot < rows {
        Some(Ask::Row { slot })
    } else {
        None
    }
}

impl Target {
    /// Returns the request of an `ipcrm` at `place`, counted from 0, or `None` after the last.
    fn remove(self, place: u32, id: i32) -> Option<Ask>
        ensures ask { result ≡ slice_get (remove_asks self id) place }
        ensures few { IfSome result (λ _. place < 2) }
        ensures receive { IfSome result (λ ask. is_receive ask ≡ false) }
    {
        match (self, place) {
            (Target::Id(id), 0) => Some(Ask::Rm { id }),
            (Target::Key(key), 0) => Some(Ask::Get {
                key,
                flags: Flags::empty(),
            }),
            (Target::Key(_), 1) => Some(Ask::Rm { id }),
            _ => None,
        }
    }
}

impl Making {
    /// Returns the request of an `ipcmk` at `place`, counted from 0, or `None` after the last.
    fn ask(self, owner: &Cred, place: u32, id: i32) -> Option<Ask>
        ensures ask { result ≡ slice_get (make_asks owner.now self id) place }
        ensures few { IfSome result (λ _. place < 2) }
        ensures receive { IfSome result (λ ask. is_receive ask ≡ false) }
    {
        match (place, self.qbytes) {
            (0, _) => Some(Ask::Get {
                key: self.key,
                flags: make_flags(self.mode),
            }),
            (1, Some(qbytes)) => Some(Ask::Set {
                id,
                to: SetTo {
                    uid: owner.uid,
                    gid: owner.gid,
                    mode: self.mode,
                    qbytes,
                },
            }),
            _ => None,
        }
    }
}

impl Receipt {
    /// Returns the request of a `rcv` at `place`, counted from 0, or `None` after the last.
    fn ask(&self, place: u32, id: i32) -> Option<Ask>
        ensures ask { result ≡ slice_get (receive_asks self.now id) place }
        ensures few { IfSome result (λ _. place < 2) }
        ensures receive { IfSome result (λ ask. is_receive ask ≡ true → place ≡ 1) }
    {
        match place {
            0 => Some(self.find()),
            1 => Some(self.receive(id)),
            _ => None,
        }
    }

    /// Returns the request that finds the queue.
    pub(crate) fn find(&self) -> Ask
        ensures { result ≡ find_ask self.now }
    {
        Ask::Get {
            key: self.key,
            flags: find_flags(self.create, self.mode),
        }
    }

    /// Returns the request that holds a message of the queue with this identifier, for as long as
    /// the session lasts.
    pub(crate) fn hold(&self, id: i32) -> Ask
        ensures { result ≡ hold_ask self.now id }
    {
        Ask::Hold {
            id,
            size: self.size,
            mtype: self.mtype,
            flags: receive_flags(self.nowait, self.noerror, self.except),
            seconds: 0,
        }
    }

    /// Returns the request that receives a message from the queue with this identifier.
    pub(crate) fn receive(&self, id: i32) -> Ask
        ensures { result ≡ receive_ask self.now id }
    {
        Ask::Rcv {
            id,
            size: self.size,
            mtype: self.mtype,
            flags: receive_flags(self.nowait, self.noerror, self.except),
        }
    }
}

/// Returns `IPC_CREAT` with mode 0600.
pub(crate) fn create_flags() -> Flags
    ensures { result ≡ flags_to_create }
{
    Flags::IPC_CREAT
        .union(Flags::USER_READ)
        .union(Flags::USER_WRITE)
}

/// Returns `IPC_CREAT` and `IPC_EXCL` with this mode.
pub(crate) fn make_flags(mode: u32) -> Flags
    ensures { result ≡ flags_to_make mode }
{
    Flags::IPC_CREAT
        .union(Flags::IPC_EXCL)
        .union(Flags::from_bits_retain(mode))
}

/// Returns `IPC_CREAT` with this mode if `create` is true, and otherwise no flags.
fn find_flags(create: bool, mode: u32) -> Flags
    ensures { result ≡ flags_to_find create mode }
{
    if create {
        Flags::IPC_CREAT.union(Flags::from_bits_retain(mode))
    } else {
        Flags::empty()
    }
}

/// Returns `IPC_NOWAIT` if `nowait` is true, and otherwise no flags.
pub(crate) fn wait_flags(nowait: bool) -> Flags
    ensures { result ≡ flags_to_wait nowait }
{
    if nowait {
        Flags::IPC_NOWAIT
    } else {
        Flags::empty()
    }
}

/// Returns those of `IPC_NOWAIT`, `MSG_NOERROR` and `MSG_EXCEPT` that a receive has.
pub(crate) fn receive_flags(nowait: bool, noerror: bool, except: bool) -> Flags
    ensures { result ≡ flags_to_receive nowait noerror except }
{
    let mut flags = wait_flags(nowait);
    if noerror {
        flags = flags.union(Flags::MSG_NOERROR);
    }
    if except {
        flags = flags.union(Flags::MSG_EXCEPT);
    }
    flags
}
