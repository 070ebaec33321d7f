//! What the faults of a client mean, in sentences.
use crate::room::Room;
use crate::silence::Silence;
use std::fmt;
use sysv_clients::{Command, OBJECT_BYTES, Receipt, Target, Task};
use sysv_model::{
    BODY_ROOM, Cred, MAX_QBYTES, MESSAGE_BYTES, QBYTES_AT_CREATION, QUEUE_MESSAGES, Stat,
};

/// What the line of a fault begins with.
const BEFORE: &str = "sysvmsg: ";

/// What is known of a fault beyond its name.
#[derive(Clone, Copy, PartialEq, Eq, Debug)]
pub(crate) enum Detail {
    /// Nothing.
    Plain,
    /// The time of `--wait` was over.
    Late,
    /// A line of the input is longer than a message may be.
    LongLine,
    /// A line of the input is longer than the JSON object of a message may be.
    LongObject,
    /// Why there is no reply.
    Silent(Silence),
    /// The server has ended a session that would hold messages before its first reply.
    NoHolds,
    /// What keeps a message from its queue.
    Full(Room),
}

/// The sentence that tells a fault: what was requested, what went wrong, and the fault's name.
#[derive(Clone, Copy)]
pub(crate) struct Sentence<'a> {
    pub(crate) head: Head<'a>,
    pub(crate) name: &'a str,
    pub(crate) detail: Detail,
}

impl Sentence<'_> {
    /// Returns whether there are words for the fault besides its name.
    fn has_words(&self) -> bool {
        match self.name {
            "no memory" | "too many lines" | "cannot read" => false,
            "no reply" => self.detail != Detail::Plain,
            _ => true,
        }
    }
}

impl fmt::Display for Sentence<'_> {
    fn fmt<W: fmt::Write>(&self, f: &mut fmt::Formatter<W>) -> fmt::Result {
        let Sentence { head, name, detail } = *self;
        if self.has_words() {
            let words = Words { head, name, detail };
            write!(f, "{head}: {words} ({name})")
        } else {
            write!(f, "{head}: {name}")
        }
    }
}

/// What a client does.
#[derive(Clone, Copy)]
pub(crate) enum Subject<'a> {
    /// The task of a command.
    Command(&'a Command<'a>),
    /// What its name says, for no queue of its own.
    Named(&'static str),
}

impl<'a> Subject<'a> {
    /// Returns the command, if it is one with a task.
    pub(crate) fn command(self) -> Option<&'a Command<'a>> {
        match self {
            Subject::Command(command) => Some(command),
            Subject::Named(_) => None,
        }
    }
}

/// What a sentence begins with: the command, and the key or the identifier of its queue.
#[derive(Clone, Copy)]
pub(crate) struct Head<'a>(pub(crate) Subject<'a>);

impl fmt::Display for Head<'_> {
    fn fmt<W: fmt::Write>(&self, f: &mut fmt::Formatter<W>) -> fmt::Result {
        let command = match self.0 {
            Subject::Command(command) => command,
            Subject::Named(name) => return write!(f, "{name}"),
        };
        match command.task {
            Task::List(_) => write!(f, "ipcs"),
            Task::Show(id) => write!(f, "ipcs: identifier {id}"),
            Task::Remove(Target::Id(id)) => write!(f, "ipcrm: identifier {id}"),
            Task::Remove(Target::Key(key)) => write!(f, "ipcrm: key {}", Key(key)),
            Task::Remove(Target::All) => write!(f, "ipcrm"),
            Task::Make(making) if making.key == 0 => write!(f, "ipcmk"),
            Task::Make(making) => write!(f, "ipcmk: key {}", Key(making.key)),
            Task::Send { key, .. } => write!(f, "snd: key {}", Key(key)),
            Task::Receive(receipt) => write!(f, "rcv: key {}", Key(receipt.key)),
        }
    }
}

/// A key as it is told: in decimal, or by its bits if it is negative.
#[derive(Clone, Copy)]
struct Key(i32);

impl fmt::Display for Key {
    fn fmt<W: fmt::Write>(&self, f: &mut fmt::Formatter<W>) -> fmt::Result {
        if self.0 < 0 {
            write!(f, "{:#x}", self.0)
        } else {
            write!(f, "{}", self.0)
        }
    }
}

/// What the name of a fault means for a command.
#[derive(Clone, Copy)]
struct Words<'a> {
    head: Head<'a>,
    name: &'a str,
    detail: Detail,
}

impl fmt::Display for Words<'_> {
    fn fmt<W: fmt::Write>(&self, f: &mut fmt::Formatter<W>) -> fmt::Result {
        match self.name {
            "EPERM" => self.not_permitted(f),
            "ENOENT" => self.no_queue(f),
            "E2BIG" => self.too_big(f),
            "EAGAIN" => self.no_room(f),
            "EACCES" => self.denied(f, "permission denied"),
            "EEXIST" => write!(f, "a queue has this key"),
            "EINVAL" => self.not_valid(f),
            "ENOSPC" => write!(f, "the server has no place for another queue"),
            "ENOMSG" => self.no_message(f),
            "EIDRM" => write!(f, "the queue was removed"),
            "EOVERFLOW" => write!(f, "a counter of the server has reached its bound"),
            "bad line" => self.no_object(f),
            _ => self.no_reply(f),
        }
    }
}

impl Words<'_> {
    /// Says that the caller may not do this, and who it is.
    fn not_permitted<W: fmt::Write>(&self, f: &mut fmt::Formatter<W>) -> fmt::Result {
        if let Some(Task::Make(making)) = self.task()
            && making
                .qbytes
                .is_some_and(|qbytes| qbytes > QBYTES_AT_CREATION)
        {
            return write!(
                f,
                "only user 0 may have --qbytes above {QBYTES_AT_CREATION}; the queue is made without it"
            );
        }
        self.denied(f, "not permitted")
    }

    /// Says that something is refused to the caller, and who it is.
    fn denied<W: fmt::Write>(&self, f: &mut fmt::Formatter<W>, what: &'static str) -> fmt::Result {
        match self.head.0.command() {
            Some(command) => {
                let cred = command.cred;
                write!(f, "{}", Denied { what, cred })
            }
            None => write!(f, "{what}"),
        }
    }

    /// Says that no queue has the key.
    fn no_queue<W: fmt::Write>(&self, f: &mut fmt::Formatter<W>) -> fmt::Result {
        match self.task() {
            Some(Task::Receive(_)) => write!(f, "no queue has this key; --create makes one"),
            _ => write!(f, "no queue has this key"),
        }
    }

    /// Says that a message is longer than its receiver accepts.
    fn too_big<W: fmt::Write>(&self, f: &mut fmt::Formatter<W>) -> fmt::Result {
        match self.task() {
            Some(Task::Receive(Receipt { size, .. })) => write!(
                f,
                "the message is longer than {size} bytes and stays on the queue; --noerror cuts it"
            ),
            _ => write!(f, "the message is too long"),
        }
    }

    /// Says that a message does not fit, or that a receiver may hold none.
    fn no_room<W: fmt::Write>(&self, f: &mut fmt::Formatter<W>) -> fmt::Result {
        if let Some(Task::Receive(_)) = self.task() {
            return write!(
                f,
                "the server can hold no more messages: it lacks a place (--at-once) or memory"
            );
        }
        match self.detail {
            Detail::Full(Room::Queue(stat)) => {
                let Stat {
                    cbytes,
                    qbytes,
                    qnum,
                    ..
                } = stat;
                write!(
                    f,
                    "no room on the queue, which has {cbytes} of {qbytes} bytes"
                )?;
                write!(f, " and {qnum} of {QUEUE_MESSAGES} messages")
            }
            Detail::Full(Room::Pool) => write!(
                f,
                "the queue has room, but too few blocks of the server's pool are free"
            ),
            Detail::Late => write!(f, "no room in time: the queue or the server's pool is full"),
            _ => write!(f, "no room: the queue or the server's pool is full"),
        }
    }

    /// Says that no message can be received.
    fn no_message<W: fmt::Write>(&self, f: &mut fmt::Formatter<W>) -> fmt::Result {
        let which = match self.task() {
            Some(Task::Receive(Receipt { mtype, .. })) if mtype != 0 => " of this type",
            _ => "",
        };
        let since = if self.detail == Detail::Late {
            " in time"
        } else {
            ""
        };
        write!(f, "no message{which}{since}")
    }

    /// Says which argument is not valid, or that the queue is gone.
    fn not_valid<W: fmt::Write>(&self, f: &mut fmt::Formatter<W>) -> fmt::Result {
        match self.task() {
            Some(Task::Show(_) | Task::Remove(Target::Id(_))) => write!(f, "no such queue"),
            Some(Task::Send { .. }) if self.detail == Detail::LongLine => {
                write!(f, "a line has more than {MESSAGE_BYTES} bytes")
            }
            Some(Task::Send { .. }) if self.detail == Detail::LongObject => {
                write!(f, "a line has more than {OBJECT_BYTES} bytes")
            }
            Some(Task::Send { text, .. }) if text.len() >= BODY_ROOM => {
                write!(
                    f,
                    "the message has {BODY_ROOM} bytes or more, at most {MESSAGE_BYTES}"
                )
            }
            Some(Task::Send { text, .. }) if text.len() > MESSAGE_BYTES => {
                write!(
                    f,
                    "the message has {} bytes, at most {MESSAGE_BYTES}",
                    text.len()
                )
            }
            Some(Task::Make(making)) => match making.qbytes {
                Some(qbytes) if qbytes > MAX_QBYTES => write!(
                    f,
                    "--qbytes is {qbytes}, at most {MAX_QBYTES}; the queue is made without it"
                ),
                _ => write!(f, "the queue was removed"),
            },
            _ => write!(f, "the queue was removed"),
        }
    }

    /// Says that a line states no message.
    fn no_object<W: fmt::Write>(&self, f: &mut fmt::Formatter<W>) -> fmt::Result {
        write!(
            f,
            "a line is no JSON object with only the type of a message, 1 or more, and its body, \
            at most {MESSAGE_BYTES} bytes"
        )
    }

    /// Says why there is no reply.
    fn no_reply<W: fmt::Write>(&self, f: &mut fmt::Formatter<W>) -> fmt::Result {
        match self.detail {
            Detail::Silent(silence) => write!(f, "{silence}"),
            Detail::NoHolds => write!(
                f,
                "the connection was closed before a reply: the server lets clients hold no messages \
                (without --hold), or has ended, or the socket is another program's"
            ),
            _ => Ok(()),
        }
    }

    /// Returns the task of the command.
    fn task(&self) -> Option<Task<'_>> {
        self.head.0.command().map(|command| command.task)
    }
}

/// That something is refused to a caller, and who it is. `--me` is named if the caller has stated
/// another user or group than its own.
#[derive(Clone, Copy, Drop)]
pub(crate) struct Denied {
    pub(crate) what: &'static str,
    pub(crate) cred: Cred,
}

impl fmt::Display for Denied {
    fn fmt<W: fmt::Write>(&self, f: &mut fmt::Formatter<W>) -> fmt::Result {
        let Denied {
            what,
            cred: Cred { uid, gid, .. },
        } = *self;
        write!(f, "{what} to user {uid}, group {gid}")?;
        if uid == sysv_system::user() && gid == sysv_system::group() {
            return Ok(());
        }
        write!(f, "; --me states your own")
    }
}

/// Returns the name of the fault in its line.
pub(crate) fn name_in(line: &str) -> &str {
    line.strip_prefix(BEFORE).unwrap_or(line).trim_end()
}
