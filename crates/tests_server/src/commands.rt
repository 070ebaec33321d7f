//! Clients of a server, by what they show.
ghost use Rattle.sysv_clients.specs.Run.{HasShortText};

use crate::server::{CREATE, FOUND, HELLO, KNOWN, SEND, SENT, converses};
use std::alloc::Global;
use std::net::Net;
use std::os::unix::net::UnixStream;
use sysv_clients::{Command, Form, Format, Receipt, Target, Task, run_client};
use sysv_model::Cred;

/// The number of bytes that a screen has space for.
const SCREEN_ROOM: usize = 128;

/// The table if queue 0 has key 7, user 1000, mode 0640, and three bytes in one message.
const TABLE: &[u8] =
    b"key             msqid      owner perms  bytes messages\n0x00000007          0       1000   640      3        1\n";

const OWNER: Cred = Cred {
    uid: 1000,
    gid: 1000,
    pid: 1,
};

const OTHER: Cred = Cred {
    uid: 2000,
    gid: 2000,
    pid: 1,
};

/// A receive of any message of key 7.
const RECEIVE: Task<'static> = Task::Receive(Receipt {
    key: 7,
    create: false,
    mode: 0o600,
    size: 8192,
    mtype: 0,
    except: false,
    nowait: false,
    noerror: false,
    show_type: false,
    form: Form::Line,
});

/// Asserts that a client with this task shows these bytes and ends with this status.
fn shows(
    rt: &impl Net,
    alloc: Global,
    path: &str,
    command: &Command<'_>,
    shown: &[u8],
    status: i32,
) -> bool
    requires { HasShortText command.now.task }
{
    let Ok(stream) = UnixStream::connect(rt, path) else {
        return false;
    };
    let (mut reader, mut writer) = (&stream, &stream);
    let mut bytes = [0; SCREEN_ROOM];
    let mut screen = bytes.as_mut_slice();
    let told = run_client(alloc, command, &mut reader, &mut writer, &mut screen);
    let len = SCREEN_ROOM.saturating_sub(screen.len());
    told == status && len == shown.len() && bytes.starts_with(shown)
}

/// A queue is created and sent to with frames written by hand, listed, kept from another user,
/// removed, and not found, in five sessions. All sessions are made, answered or not, since the
/// server waits for that number of them.
pub(crate) fn five_sessions(rt: &impl Net, alloc: Global, path: &str) -> bool {
    let list = Command {
        cred: OWNER,
        task: Task::List(Format::Table),
    };
    let by_other = Command {
        cred: OTHER,
        task: Task::Remove(Target::Id(0)),
    };
    let by_owner = Command {
        cred: OWNER,
        task: Task::Remove(Target::Id(0)),
    };
    let receive = Command {
        cred: OWNER,
        task: RECEIVE,
    };
    converses(rt, path, &[HELLO, CREATE, SEND], &[KNOWN, FOUND, SENT])
        & shows(rt, alloc, path, &list, TABLE, 0)
        & shows(rt, alloc, path, &by_other, b"sysvmsg: EPERM\n", 1)
        & shows(rt, alloc, path, &by_owner, b"", 0)
        & shows(rt, alloc, path, &receive, b"sysvmsg: ENOENT\n", 1)
}
