//! The requests that command lines make, and the credentials that a client states.
use crate::parts::{assert_is, assert_that};
use clap::Error;
use std::process::Abort;
use sysv_clients::{Form, Receipt, Target, Task};
use sysv_connect::{How, Looking, Telling};
use sysv_model::Cred;
use sysv_options::{
    Asked, Entrance, Entrances, NoWords, Process, Serving, SocketFile, Surroundings, Who,
    credentials, no_text, read_words, surroundings, telling,
};
use sysv_server::{Callers, MAX_CLIENTS, Patience, Terms};

/// Where neither the environment nor a terminal wants anything.
const NOWHERE: Surroundings = Surroundings {
    wants_me: false,
    wants_stderr: false,
    is_terminal: false,
    own: Cred {
        uid: 0,
        gid: 0,
        pid: 0,
    },
    open_files: None,
};

/// No credentials.
const NOBODY: Who = Who {
    me: false,
    uid: None,
    gid: None,
    pid: None,
};

/// No options of a client.
const PLAIN: How = How {
    from_input: false,
    lines: false,
    objects: false,
    progress: false,
    follow: false,
    purge: false,
    holds: false,
    count: None,
    ahead: None,
    wait: None,
    telling: Telling::Line,
};

/// Parses a command line. Tolerates one refusal of memory.
fn read<'a>(rt: &impl AllocGlobal, words: &'a [&'a str]) -> Result<Asked<'a, Serving<'a>>, Error> {
    match read_words(rt.alloc(), words) {
        Ok(asked) => Ok(asked),
        Err(_) => read_words(rt.alloc(), words),
    }
}

/// Asserts that the words request this.
fn assert_asks(rt: &(impl Abort + AllocGlobal), words: &[&str], wanted: Asked<'_, Serving<'_>>) {
    match read(rt, words) {
        Ok(asked) => assert_is(rt, asked, wanted),
        Err(why) => panic!(rt; "{why}"),
    }
}

/// Asserts that an error says this.
fn assert_says(rt: &(impl Abort + AllocGlobal), why: &Error, wanted: &str) {
    let said = format!(in rt.alloc(); "{why}").expect(rt, "memory for a text");
    assert_that(rt, said.as_str().contains(wanted));
}

/// Asserts that the words request nothing, with an error that says this.
fn assert_refused(rt: &(impl Abort + AllocGlobal), words: &[&str], wanted: &str) {
    match read(rt, words) {
        Ok(asked) => panic!(rt; "{asked:?}"),
        Err(why) => assert_says(rt, &why, wanted),
    }
}

/// Returns the request of a client at `./q`.
fn client(who: Who, task: Task<'_>, how: How) -> Asked<'_, Serving<'_>> {
    Asked::Client {
        path: "./q",
        who,
        task,
        how,
    }
}

#[test]
fn a_script_is_requested(rt: HostRuntime) {
    assert_asks(&rt, &["sysvmsg", "script"], Asked::Script);
}

#[test]
fn a_send_is_requested(rt: HostRuntime) {
    let words = [
        "sysvmsg", "snd", "./q", "0x10", "hello", "--type", "5", "--uid", "7", "--wait", "1.5",
    ];
    let task = Task::Send {
        key: 16,
        text: b"hello",
        mtype: 5,
        nowait: false,
    };
    let who = Who {
        uid: Some(7),
        ..NOBODY
    };
    let how = How {
        wait: Some(1500),
        ..PLAIN
    };
    assert_asks(&rt, &words, client(who, task, how));
}

#[test]
fn a_receive_is_requested(rt: HostRuntime) {
    let words = [
        "sysvmsg", "rcv", "./q", "7", "--upto", "3", "--json", "--count", "2", "--me", "--stderr",
    ];
    let task = Task::Receive(Receipt {
        key: 7,
        create: false,
        mode: 0o600,
        size: 8192,
        mtype: -3,
        except: false,
        nowait: false,
        noerror: false,
        show_type: false,
        form: Form::Object,
    });
    let who = Who { me: true, ..NOBODY };
    let how = How {
        objects: true,
        count: Some(2),
        telling: Telling::Sentence,
        ..PLAIN
    };
    assert_asks(&rt, &words, client(who, task, how));
}

#[test]
fn a_copy_of_a_queue_is_requested(rt: HostRuntime) {
    let words = ["sysvmsg", "snd", "./q", "7", "--json"];
    let task = Task::Send {
        key: 7,
        text: b"",
        mtype: 1,
        nowait: false,
    };
    let how = How {
        objects: true,
        ..PLAIN
    };
    assert_asks(&rt, &words, client(NOBODY, task, how));
}

#[test]
fn options_exclude_one_another(rt: HostRuntime) {
    let table: [&[&str]; 5] = [
        &["sysvmsg", "snd", "./q", "7", "--json", "--type", "5"],
        &["sysvmsg", "snd", "./q", "7", "--json", "--lines"],
        &["sysvmsg", "rcv", "./q", "7", "--hold", "--noerror"],
        &["sysvmsg", "rcv", "./q", "7", "--hold", "--purge"],
        &[
            "sysvmsg", "rcv", "./q", "7", "--hold", "--count", "2", "--ahead", "2",
        ],
    ];
    for words in table {
        assert_refused(&rt, words, "cannot be used with");
    }
}

#[test]
fn a_removal_is_requested(rt: HostRuntime) {
    let words = ["sysvmsg", "ipcrm", "./q", "-q", "64"];
    assert_asks(
        &rt,
        &words,
        client(NOBODY, Task::Remove(Target::Id(64)), PLAIN),
    );
}

#[test]
fn a_state_is_requested(rt: HostRuntime) {
    let looking = Looking {
        path: "./q.stats",
        json: true,
        wait: Some(0),
        telling: Telling::Line,
    };
    let words = ["sysvmsg", "stats", "./q.stats", "--json", "--wait", "0"];
    assert_asks(&rt, &words, Asked::Look(looking));
}

/// The file of a socket at this path.
fn file_at(path: &str) -> SocketFile<'_> {
    SocketFile {
        path,
        mode: Some(0o660),
        replace: false,
    }
}

/// The terms of a server with this number of sockets, for the options of the tests.
fn terms_with(sockets: u32) -> Terms {
    Terms {
        blocks: 128,
        workers: 4,
        at_once: MAX_CLIENTS,
        sessions: 0,
        patience: Patience { idle: 0, stall: 0 },
        drain: 9,
        stats: true,
        hold: true,
        sockets,
        alone: false,
    }
}

#[test]
fn a_server_is_requested(rt: HostRuntime) {
    let words = [
        "sysvmsg", "serve", "./q", "--mode", "660", "--blocks", "128", "--stats", "./s", "--drain",
        "9", "--hold",
    ];
    let serving = Serving {
        file: file_at("./q"),
        others: Entrances::none(),
        no_main: false,
        stats: Some(file_at("./s")),
        alone: None,
        terms: terms_with(1),
        until_eof: false,
    };
    assert_asks(&rt, &words, Asked::Serve(serving));
}

#[test]
fn sessions_that_are_served_alone_are_requested(rt: HostRuntime) {
    let words = [
        "sysvmsg",
        "serve",
        "./q",
        "--mode",
        "660",
        "--blocks=128",
        "--stats=./s",
        "--drain=9",
        "--hold",
        "--until-eof",
        "--alone",
        "./a",
        "--sessions=0",
    ];
    let mut serving = Serving {
        file: file_at("./q"),
        others: Entrances::none(),
        no_main: false,
        stats: Some(file_at("./s")),
        alone: Some(SocketFile {
            path: "./a",
            mode: Some(0o600),
            replace: true,
        }),
        terms: terms_with(2),
        until_eof: true,
    };
    serving.terms.alone = true;
    assert_asks(&rt, &words, Asked::Serve(serving));
}

#[test]
fn sockets_for_users_are_requested(rt: HostRuntime) {
    let anna = Entrance {
        file: file_at("./a=1:1"),
        callers: Callers::Only { uid: 1001, gid: 0 },
    };
    let ben = Entrance {
        file: file_at("./b"),
        callers: Callers::Only {
            uid: 0,
            gid: 4_294_967_295,
        },
    };
    let mut others = Entrances::none();
    assert_that(&rt, others.add(anna) && others.add(ben));
    let words = [
        "sysvmsg",
        "serve",
        "--as",
        "./a=1:1=1001:0",
        "./q",
        "--mode",
        "660",
        "--blocks",
        "128",
        "--stats",
        "./s",
        "--drain",
        "9",
        "--hold",
        "--as=./b=0:4294967295",
        "--no-main",
    ];
    let mut serving = Serving {
        file: file_at("./q"),
        others,
        no_main: true,
        stats: Some(file_at("./s")),
        alone: None,
        terms: terms_with(2),
        until_eof: false,
    };
    assert_asks(&rt, &words, Asked::Serve(serving));
    assert_that(
        &rt,
        serving.socket(0) == Some(anna) && serving.socket(2).is_none(),
    );
    serving.no_main = false;
    serving.terms.sockets = 3;
    assert_asks(&rt, &words[..15], Asked::Serve(serving));
    let main = Entrance {
        file: file_at("./q"),
        callers: Callers::Anyone,
    };
    assert_that(
        &rt,
        serving.socket(0) == Some(main) && serving.socket(2) == Some(ben),
    );
}

#[test]
fn at_most_64_sockets_for_users_are_requested(rt: HostRuntime) {
    let mut words = ["--as=./a=1:1"; 68];
    words[0] = "sysvmsg";
    words[1] = "serve";
    words[2] = "./q";
    assert_that(&rt, read(&rt, &words[..67]).is_ok());
    assert_that(&rt, read(&rt, &words).is_err());
}

/// A path of 104 bytes.
const LONG: &str =
    "012345678901234567890123456789012345678901234567890/0123456789012345678901234567890123456789012345678901";

/// What each kind of error of a value says, with words that have it.
const REFUSED: [(&[&str], &str); 26] = [
    (
        &["sysvmsg", "serve", "./q", "--as", "./a=1"],
        "--as takes SOCKET=UID:GID",
    ),
    (
        &["sysvmsg", "serve", "./q", "--as", "./a=1:-1"],
        "--as takes SOCKET=UID:GID",
    ),
    (
        &["sysvmsg", "serve", "./q", "--as", "./a=1:4294967296"],
        "--as takes SOCKET=UID:GID",
    ),
    (
        &["sysvmsg", "serve", "./q", "--as", "=1:1"],
        "--as takes SOCKET=UID:GID",
    ),
    (
        &["sysvmsg", "serve", "./q", "--no-main"],
        "--no-main needs --as",
    ),
    (
        &["sysvmsg", "serve", "./q", "--alone", "./a"],
        "--alone needs --until-eof",
    ),
    (
        &[
            "sysvmsg",
            "serve",
            "./q",
            "--alone=a",
            "--until-eof",
            "--sessions=1",
        ],
        "--alone needs --until-eof, and takes no --sessions",
    ),
    (
        &["sysvmsg", "serve", "./q", "--until-eof", "--alone", "./q"],
        "the SOCKET of --alone has 1 to 103 bytes, and is not PATH",
    ),
    (
        &["sysvmsg", "serve", "./q", "--until-eof", "--alone", LONG],
        "the SOCKET of --alone has 1 to 103 bytes",
    ),
    (
        &["sysvmsg", "serve", "./q", "--until-eof", "--alone="],
        "the SOCKET of --alone has 1 to 103 bytes",
    ),
    (&["sysvmsg", "ipcs", ""], "a PATH has 1 to 107 bytes"),
    (
        &["sysvmsg", "serve", LONG, "--mode", "600"],
        "invalid value of 104 bytes for '<PATH>': with --mode a PATH has 1 to 103 bytes",
    ),
    (
        &["sysvmsg", "serve", "./q", "--stats", "./q"],
        "PATH2 is PATH",
    ),
    (
        &["sysvmsg", "snd", "./q", "0", "hello"],
        "invalid value '0' for '<KEY>': a KEY is 1 to",
    ),
    (
        &["sysvmsg", "ipcs", "./q", "-i", "x"],
        "invalid value 'x' for '-i <ID>': an ID is 0 to",
    ),
    (
        &["sysvmsg", "rcv", "./q", "7", "--upto", "-1"],
        "invalid value '-1' for '--upto <N>': a type is 1 to",
    ),
    (
        &["sysvmsg", "serve", "./q", "--blocks", "x"],
        "invalid value 'x' for '--blocks <B>': the number of blocks is 128 to 65536",
    ),
    (
        &["sysvmsg", "serve", "./q", "--workers", "17"],
        "workers is 1 to 16",
    ),
    (
        &["sysvmsg", "serve", "./q", "--at-once", "16385"],
        "sessions at once is 1 to 16384",
    ),
    (
        &["sysvmsg", "serve", "./q", "--idle", "0.5"],
        "invalid value '0.5' for '--idle <SECONDS>': a whole number of seconds is 0 to 4294967295",
    ),
    (
        &["sysvmsg", "ipcmk", "./q", "9", "--mode", "1000"],
        "a mode is 0 to 777 in octal",
    ),
    (
        &["sysvmsg", "serve", "./q", "--sessions", "x"],
        "sessions is 0 to 18446744073709551615",
    ),
    (
        &["sysvmsg", "rcv", "./q", "7", "--count", "x"],
        "messages or bytes is 0 to 4294967295",
    ),
    (
        &["sysvmsg", "rcv", "./q", "7", "--wait", "1.2345"],
        "a time is 0 to 4294967295 seconds",
    ),
    (
        &[
            "sysvmsg", "rcv", "./q", "7", "--count", "2", "--ahead", "257",
        ],
        "receives ahead is 1 to 256",
    ),
    (
        &["sysvmsg", "snd", "./q", "7", "hello", "--uid", "x"],
        "process ID is 0 to 4294967295",
    ),
];

#[test]
fn words_that_are_not_valid_are_refused(rt: HostRuntime) {
    for (words, wanted) in REFUSED {
        assert_refused(&rt, words, wanted);
    }
}

#[test]
fn a_text_that_is_too_long_is_refused(rt: HostRuntime) {
    let text = "x"
        .repeat(rt.alloc(), 8257)
        .expect(&rt, "memory for a text");
    let words = ["sysvmsg", "snd", "./q", "7", text.as_str()];
    let why = "invalid value of 8257 bytes for '[TEXT]': a message has at most 8192 bytes";
    assert_refused(&rt, &words, why);
}

#[test]
fn a_word_that_is_no_text_is_refused(rt: HostRuntime) {
    assert_says(&rt, &no_text(rt.alloc()), "a word is not UTF-8");
}

#[test]
fn credentials_are_those_of_the_words(rt: HostRuntime) {
    let who = Who {
        uid: Some(7),
        ..NOBODY
    };
    let around = Surroundings {
        own: Cred {
            uid: 1,
            gid: 2,
            pid: 3,
        },
        ..NOWHERE
    };
    let usual = Cred {
        uid: 7,
        gid: 1000,
        pid: 1,
    };
    assert_is(&rt, credentials(&who, &around), usual);
    let mine = Cred {
        uid: 7,
        gid: 2,
        pid: 3,
    };
    let around = Surroundings {
        wants_me: true,
        ..around
    };
    assert_is(&rt, credentials(&who, &around), mine);
}

#[test]
fn faults_are_told_as_the_words_and_the_environment_want(rt: HostRuntime) {
    for (asked, wants_stderr, is_terminal, wanted) in [
        (Telling::Line, false, true, Telling::Line),
        (Telling::Line, false, false, Telling::Both),
        (Telling::Line, true, true, Telling::Sentence),
        (Telling::Sentence, false, true, Telling::Sentence),
    ] {
        let around = Surroundings {
            wants_stderr,
            is_terminal,
            ..NOWHERE
        };
        assert_is(&rt, telling(asked, &around), wanted);
    }
}

/// A process whose environment has the value 1 for one variable.
#[derive(Clone, Copy)]
struct Known {
    variable: &'static str,
}

impl Process for Known {
    ghost use Rattle.std.specs.Prelude.{⊤};

    ghost tells = { λ _ _. ⊤ };

    fn words(&self) -> Result<Vec<String>, NoWords> {
        Err(NoWords::NoText)
    }

    fn has_one(&self, name: &str) -> bool {
        name == self.variable
    }

    fn user(&self) -> u32 {
        11
    }

    fn group(&self) -> u32 {
        12
    }

    fn number(&self) -> u32 {
        13
    }

    fn is_terminal(&self) -> bool {
        true
    }

    fn open_files(&self) -> Option<u64> {
        Some(14)
    }
}

#[test]
fn surroundings_are_those_that_the_process_is_told(rt: HostRuntime) {
    let own = Cred {
        uid: 11,
        gid: 12,
        pid: 13,
    };
    for (variable, wants_me, wants_stderr) in [
        ("SYSVMSG_ME", true, false),
        ("SYSVMSG_STDERR", false, true),
        ("SYSVMSG", false, false),
    ] {
        let wanted = Surroundings {
            wants_me,
            wants_stderr,
            is_terminal: true,
            own,
            open_files: Some(14),
        };
        assert_is(&rt, surroundings(&Known { variable }), wanted);
    }
}
