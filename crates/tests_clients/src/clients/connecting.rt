//! Clients at a place in memory: what they request and show, and how they end.
ghost use Rattle.sysv_clients.specs.Run.{HasShortText};

use super::*;
use std::io::Eprint;
use std::process::ExitCode;
use std::time::Duration;
use sysv_connect::{
    Contact, FAULT, How, Leave, Looking, Place, Screen, Telling, complain, look_at, run_as, say,
};

/// A place in memory. Its server has already sent its replies.
#[derive(Drop)]
struct Desk<'a> {
    replies: Replies<'a>,
    requests: &'a mut Tape,
    /// Whether there is a server.
    is_served: bool,
}

/// What a server has sent.
#[derive(Drop)]
struct Replies<'a> {
    tape: &'a mut Tape,
    /// Whether the read after the last byte waits too long. Then the session ends.
    is_slow: bool,
}

impl Read for Replies<'_> {
    fn read(&mut self, buf: &mut [u8]) -> io::Result<usize> {
        let count = self.tape.read(buf)?;
        if count == 0 && self.is_slow {
            self.is_slow = false;
            return Err(io::Error::from(ErrorKind::WouldBlock));
        }
        Ok(count)
    }
}

impl Leave for Replies<'_> {
    fn limit(&self, _: Duration) {}

    fn leave(&self) {}
}

impl<'a> Place for Desk<'a> {
    type Input = Replies<'a>;

    type Output = &'a mut Tape;

    fn connect(self, _path: &str) -> io::Result<(Replies<'a>, &'a mut Tape)> {
        if self.is_served {
            Ok((self.replies, self.requests))
        } else {
            Err(io::Error::from(ErrorKind::NotFound))
        }
    }
}

/// No options.
const PLAIN: How = How {
    from_input: false,
    lines: false,
    objects: false,
    progress: false,
    follow: false,
    purge: false,
    holds: false,
    count: None,
    ahead: None,
    wait: None,
    telling: Telling::Line,
};

/// A send of type 1 to key 7.
const SEND: Task<'static> = Task::Send {
    key: 7,
    text: b"",
    mtype: 1,
    nowait: false,
};

/// `msgget` of key 7 with IPC_CREAT and mode 0600, and a send of type 1 to identifier 64.
const MAKE: &[u8] = b"\0\0\0\x0a\x02\x01\0\0\0\x07\0\0\x03\x80";

const SEND_ABC: &[u8] = b"\0\0\0\x15\x02\x02\0\0\0\x40\0\0\0\0\0\0\0\x01\0\0\0\0abc";

/// Returns the place of a server that has sent these replies. `how` has a time only if the last
/// read waits too long.
fn make_desk<'a>(
    replies: &'a mut Tape,
    requests: &'a mut Tape,
    how: &How,
    is_served: bool,
) -> Desk<'a> {
    Desk {
        replies: Replies {
            tape: replies,
            is_slow: how.wait.is_some(),
        },
        requests,
        is_served,
    }
}

/// Runs a client with this task, and returns how it ends. Tolerates one refusal of memory, after
/// which nothing was requested.
fn run(
    rt: &(impl Eprint + AllocGlobal + Abort),
    dialogue: &mut Dialogue,
    input: &mut Tape,
    task: Task<'_>,
    how: &How,
) -> ExitCode {
    if let Task::Send { text, .. } = task {
        assert!(rt; text.len() <= BODY_ROOM);
    }
    let command = Command { cred: WHO, task };
    let exit = run_once(rt, dialogue, input, &command, how);
    if dialogue.requests.len() > 0 {
        return exit;
    }
    run_once(rt, dialogue, input, &command, how)
}

/// Runs a client with this command at the place of a server, with an empty screen. Returns how it
/// ends.
fn run_once(
    rt: &(impl Eprint + AllocGlobal + Abort),
    dialogue: &mut Dialogue,
    input: &mut Tape,
    command: &Command<'_>,
    how: &How,
) -> ExitCode
    requires { HasShortText command.now.task }
{
    let place = make_desk(&mut dialogue.replies, &mut dialogue.requests, how, true);
    let mut screen = Screen::new(Tape::new(rt, rt.alloc()));
    let exit = exit_of(rt, input, place, command, how, &mut screen);
    dialogue.screen = screen.writer;
    exit
}

/// Runs a client with this command at a place. Returns how it ends.
fn exit_of<P: Place>(
    rt: &(impl Eprint + AllocGlobal),
    input: &mut Tape,
    place: P,
    command: &Command<'_>,
    how: &How,
    screen: &mut Screen<Tape>,
) -> ExitCode
    requires { HasShortText command.now.task }
{
    run_as(rt, input, place, "./q", command, how, screen).exit
}

#[test]
fn queues_at_a_place_are_listed(rt: HostRuntime) {
    let welcome = b"\0\0\0\x07\x02\0\0\0\0\0\x01";
    let mut dialogue = Dialogue::new(&rt, rt.alloc(), &[welcome, ROW]);
    let mut input = Tape::new(&rt, rt.alloc());
    let exit = run(&rt, &mut dialogue, &mut input, LIST, &PLAIN);
    assert_is(&rt, exit, ExitCode::SUCCESS);
    let rows = [HELLO, b"\0\0\0\x06\x02\x07\0\0\0\0"];
    dialogue.assert_requests(&rt, rt.alloc(), &rows);
    dialogue.assert_shown(&rt, joined(&rt, rt.alloc(), &[HEAD, LINE]).text(), 0);
}

#[test]
fn an_input_is_sent_as_a_body(rt: HostRuntime) {
    let mut dialogue = Dialogue::new(&rt, rt.alloc(), &[WELCOME, GOT, SENT]);
    let mut input = joined(&rt, rt.alloc(), &[b"abc"]);
    let how = How {
        from_input: true,
        ..PLAIN
    };
    let exit = run(&rt, &mut dialogue, &mut input, SEND, &how);
    assert_is(&rt, exit, ExitCode::SUCCESS);
    dialogue.assert_requests(&rt, rt.alloc(), &[HELLO, MAKE, SEND_ABC]);
    dialogue.assert_shown(&rt, b"", 0);
}

#[test]
fn a_receive_that_waits_too_long_is_left(rt: HostRuntime) {
    let mut dialogue = Dialogue::new(&rt, rt.alloc(), &[WELCOME, GOT]);
    let mut input = Tape::new(&rt, rt.alloc());
    let how = How {
        wait: Some(1),
        ..PLAIN
    };
    let exit = run(&rt, &mut dialogue, &mut input, RECEIVE_ANY, &how);
    assert_is(&rt, exit, ExitCode::from(3));
    dialogue.assert_shown(&rt, b"sysvmsg: ENOMSG\n", 0);
}

/// `msgget` of key 7 without flags, and a receive of no bytes from identifier 64, with IPC_NOWAIT and
/// MSG_NOERROR.
const FIND: &[u8] = b"\0\0\0\x0a\x02\x01\0\0\0\x07\0\0\0\0";

const TAKE: &[u8] = b"\0\0\0\x16\x02\x03\0\0\0\x40\0\0\0\0\0\0\0\0\0\0\0\0\0\0\x18\0";

/// A message of type 5 without a body, and ENOMSG.
const TAKEN: &[u8] = b"\0\0\0\x0b\x02\x03\0\0\0\0\0\0\0\0\x05";

const NO_MORE: &[u8] = b"\0\0\0\x03\x02\x03\x2a";

#[test]
fn a_queue_is_emptied(rt: HostRuntime) {
    let replies = [WELCOME, GOT, TAKEN, TAKEN, NO_MORE];
    let mut dialogue = Dialogue::new(&rt, rt.alloc(), &replies);
    let mut input = Tape::new(&rt, rt.alloc());
    let how = How {
        purge: true,
        ..PLAIN
    };
    let exit = run(&rt, &mut dialogue, &mut input, RECEIVE_ANY, &how);
    assert_is(&rt, exit, ExitCode::SUCCESS);
    let requests = [HELLO, FIND, TAKE, TAKE, TAKE];
    dialogue.assert_requests(&rt, rt.alloc(), &requests);
    dialogue.assert_shown(&rt, b"2\n", 0);
}

/// What a client that holds one message requests, with the replies.
const TO_HOLD: [&[u8]; 4] = [
    b"\0\0\0\x0e\x03\0\0\0\x03\xe8\0\0\x03\xe8\0\0\0\x01",
    b"\0\0\0\x0a\x03\x01\0\0\0\x07\0\0\0\0",
    b"\0\0\0\x1a\x03\x08\0\0\0\x40\0\0\x20\0\0\0\0\0\0\0\0\0\0\0\0\0\0\0\0\0",
    b"\0\0\0\x02\x03\x09",
];

const HELD: [&[u8]; 4] = [
    b"\0\0\0\x07\x03\0\0\0\0\0\x40",
    b"\0\0\0\x07\x03\x01\0\0\0\0\x40",
    b"\0\0\0\x0e\x03\x08\0\0\0\0\0\0\0\0\x05abc",
    b"\0\0\0\x03\x03\x09\0",
];

#[test]
fn a_message_at_a_place_is_held_until_it_was_shown(rt: HostRuntime) {
    let mut dialogue = Dialogue::new(&rt, rt.alloc(), &HELD);
    let mut input = Tape::new(&rt, rt.alloc());
    let how = How {
        holds: true,
        ..PLAIN
    };
    let exit = run(&rt, &mut dialogue, &mut input, RECEIVE_ANY, &how);
    assert_is(&rt, exit, ExitCode::SUCCESS);
    dialogue.assert_requests(&rt, rt.alloc(), &TO_HOLD);
    dialogue.assert_shown(&rt, b"abc\n", 0);
}

#[test]
fn an_object_of_an_input_is_sent(rt: HostRuntime) {
    let mut dialogue = Dialogue::new(&rt, rt.alloc(), &[WELCOME, GOT, SENT]);
    let mut input = joined(&rt, rt.alloc(), &[b"{\"type\":1,\"body\":\"abc\"}\n"]);
    let how = How {
        objects: true,
        ..PLAIN
    };
    let exit = run(&rt, &mut dialogue, &mut input, SEND, &how);
    assert_is(&rt, exit, ExitCode::SUCCESS);
    dialogue.assert_requests(&rt, rt.alloc(), &[HELLO, MAKE, SEND_ABC]);
    dialogue.assert_shown(&rt, b"", 0);
}

#[test]
fn a_client_without_a_server_fails(rt: HostRuntime) {
    let mut dialogue = Dialogue::new(&rt, rt.alloc(), &[]);
    let mut input = Tape::new(&rt, rt.alloc());
    let place = make_desk(&mut dialogue.replies, &mut dialogue.requests, &PLAIN, false);
    let command = Command {
        cred: WHO,
        task: LIST,
    };
    let mut screen = Screen::new(Tape::new(&rt, rt.alloc()));
    let (exit, is_made) = contact_of(&rt, &mut input, place, &command, &mut screen);
    assert_is(&rt, exit, ExitCode::from(FAULT));
    assert_is(&rt, is_made, false);
    let shown = screen.writer.text();
    let is_told = shown == b"sysvmsg: no server\n".as_slice();
    assert!(&rt; is_told || shown == b"sysvmsg: no memory\n".as_slice());
}

/// Runs a client with this command at a place. Returns how it ends, and whether a connection was
/// made.
fn contact_of<P: Place>(
    rt: &(impl Eprint + AllocGlobal),
    input: &mut Tape,
    place: P,
    command: &Command<'_>,
    screen: &mut Screen<Tape>,
) -> (ExitCode, bool)
    requires { HasShortText command.now.task }
{
    let visit = run_as(rt, input, place, "./q", command, &PLAIN, screen);
    (visit.exit, matches!(visit.contact, Contact::Made(_)))
}

/// A state of a server.
const STATE: &[u8] = b"sysvmsg_sessions_open 3\n";

/// Shows the state of a server as a JSON object, and returns how that ends.
fn look(rt: &(impl Eprint + AllocGlobal + Abort), dialogue: &mut Dialogue) -> ExitCode {
    let looking = Looking {
        path: "./q.stats",
        json: true,
        wait: None,
        telling: Telling::Line,
    };
    let place = make_desk(&mut dialogue.replies, &mut dialogue.requests, &PLAIN, true);
    let mut screen = Screen::new(Tape::new(rt, rt.alloc()));
    let exit = exit_of_look(rt, place, &looking, &mut screen);
    dialogue.screen = screen.writer;
    exit
}

/// Shows the state of the server at a place, and returns how that ends.
fn exit_of_look<P: Place>(
    rt: &(impl Eprint + AllocGlobal),
    place: P,
    looking: &Looking<'_>,
    screen: &mut Screen<Tape>,
) -> ExitCode {
    look_at(rt, place, looking, screen).exit
}

#[test]
fn a_state_is_requested_and_shown(rt: HostRuntime) {
    let mut dialogue = Dialogue::new(&rt, rt.alloc(), &[STATE]);
    let mut exit = look(&rt, &mut dialogue);
    if exit != ExitCode::SUCCESS {
        dialogue = Dialogue::new(&rt, rt.alloc(), &[STATE]);
        exit = look(&rt, &mut dialogue);
    }
    assert_is(&rt, exit, ExitCode::SUCCESS);
    dialogue.assert_requests(&rt, rt.alloc(), &[b"json\n"]);
    dialogue.assert_shown(&rt, STATE, 0);
}

#[test]
fn a_fault_is_reported(rt: HostRuntime) {
    complain(&rt, "./q", &io::Error::from(ErrorKind::NotFound), "");
    let mut screen = Tape::new(&rt, rt.alloc());
    let exit = say(&mut screen, "sysvmsg: no server\n");
    assert_is(&rt, exit, ExitCode::from(FAULT));
    assert_is(
        &rt,
        screen.text() == b"sysvmsg: no server\n".as_slice(),
        true,
    );
}

#[test]
fn a_screen_remembers_how_it_failed(rt: HostRuntime) {
    let mut bytes = [0; 3];
    let mut screen = Screen::new(&mut bytes[..]);
    assert_is(&rt, screen.write_all(b"abc").is_ok(), true);
    assert_is(&rt, screen.flush().is_ok(), true);
    assert_is(&rt, screen.failure.is_none(), true);
    assert_is(&rt, screen.write_all(b"d").is_err(), true);
}

#[test]
fn faults_are_told_by_a_line_or_a_sentence_or_both(rt: HostRuntime) {
    for (telling, has_line, has_sentence) in [
        (Telling::Line, true, false),
        (Telling::Both, true, true),
        (Telling::Sentence, false, true),
    ] {
        assert_is(&rt, telling.has_line(), has_line);
        assert_is(&rt, telling.has_sentence(), has_sentence);
    }
}

#[test]
fn a_fault_is_told_aside(rt: HostRuntime) {
    let mut dialogue = Dialogue::new(&rt, rt.alloc(), &[WELCOME]);
    let mut input = Tape::new(&rt, rt.alloc());
    let how = How {
        telling: Telling::Sentence,
        ..PLAIN
    };
    let exit = run(&rt, &mut dialogue, &mut input, RECEIVE_ANY, &how);
    assert_is(&rt, exit, ExitCode::from(FAULT));
    dialogue.assert_shown(&rt, b"", 0);
}
