//! The command line: a table of commands, and its translation for clap.
use clap::{Arg, ArgAction, ArgGroup, Command};
use std::alloc::{AllocError, Global};
use std::fmt;
use sysv_server::VERSION;

/// The end of the help of the whole program.
const SESSION: &str = "\
Clients state user 1000, group 1000 and process 1, and the server does not
verify that. --me or SYSVMSG_ME=1 states your own.
Errors of commands are printed on standard output, as `sysvmsg: ENOMSG`, and in
a sentence on standard error if standard output is not a terminal. Those of an
`rcv` with --count, --follow, --hold, --raw, --zero, --json or --show-type, and
those of `save` and `load`, are sentences on standard error.
Exit status: 0 if all is done, 1 after an error, 2 if the command line is not
understood, 3 if the time of --wait is over.

Example:
  $ sysvmsg serve ./q --blocks 65536 &
  sysvmsg: serving ./q, up to 1011 sessions at once, 65536 messages of 64 bytes
  $ sysvmsg snd ./q 7 hello --type 5
  $ sysvmsg ipcs ./q
  key             msqid      owner perms  bytes messages
  0x00000007          0       1000   600      5        1
  $ sysvmsg rcv ./q 7
  hello
  $ sysvmsg ipcrm ./q -Q 7
  $ kill %1; rm ./q";

/// A command.
#[derive(Clone, Copy)]
struct Known {
    name: &'static str,
    about: &'static str,
    /// The end of the command's help.
    example: &'static str,
    arguments: &'static [Argument],
    groups: &'static [Group],
    /// The usage, if not the one that clap composes, which names a required group first.
    usage: Option<&'static str>,
}

/// An argument of a command: its name, its form, and its help.
type Argument = (&'static str, Form, &'static str);

/// The form of an argument. The name of a value is shown in the help.
#[derive(Clone, Copy)]
enum Form {
    /// A required argument, known by its position.
    Word(&'static str),
    /// An argument known by its position, which may be missing.
    OptionalWord(&'static str),
    /// As `--id VALUE`.
    Value(&'static str),
    /// As `--id VALUE`, and only together with the second one.
    ValueWith(&'static str, &'static str),
    /// As `--id VALUE`, any number of times.
    Values(&'static str),
    /// As `-l VALUE`.
    Letter(char, &'static str),
    /// As `--id`.
    Flag,
    /// As `-0` or `--id`.
    ShortFlag(char),
}

/// Arguments of which at most one may be present, or exactly one if `required` is true.
#[derive(Clone, Copy)]
struct Group {
    of: &'static [&'static str],
    required: bool,
}

const SERVER: Argument = ("path", Form::Word("PATH"), "The server's socket");

const USER: Argument = (
    "uid",
    Form::Value("N"),
    "The caller's user ID [default: 1000]",
);

const GROUP: Argument = (
    "gid",
    Form::Value("N"),
    "The caller's group ID [default: 1000]",
);

const PROCESS: Argument = (
    "pid",
    Form::Value("N"),
    "The caller's process ID [default: 1]",
);

const STDERR: Argument = (
    "stderr",
    Form::Flag,
    "Prints errors only on stderr; also by SYSVMSG_STDERR=1",
);

const ME: Argument = (
    "me",
    Form::Flag,
    "Defaults to your own IDs; also by SYSVMSG_ME=1",
);

const WAIT: Argument = (
    "wait",
    Form::Value("SECS"),
    "Waits at most that long for each reply",
);

const KEY: Argument = ("key", Form::Word("KEY"), KEY_HELP);

const KEY_HELP: &str = "1 to 2147483647, or 0x and 1 to 8 hexadecimal digits, not 0";

/// All commands, in the order of the help.
const COMMANDS: [Known; 10] = [
    SERVE, SND, RCV, IPCS, IPCRM, IPCMK, SAVE, LOAD, STATS, SCRIPT,
];

const SERVE: Known = Known {
    name: "serve",
    about: "Serves message queues on a Unix socket",
    example: "\
Serves as many clients at once as descriptors allow, up to 16384; others wait.

Example:
  $ sysvmsg serve ./q --mode 660 --blocks 65536 &
  sysvmsg: serving ./q, up to 1011 sessions at once, 65536 messages of 64 bytes",
    arguments: &[
        (
            "path",
            Form::Word("PATH"),
            "The socket to create, which must not exist",
        ),
        (
            "mode",
            Form::Value("OCTAL"),
            "The mode of the socket [default: 0777 less the umask]",
        ),
        (
            "replace",
            Form::Flag,
            "Removes PATH first if it is a socket on which no server listens",
        ),
        (
            "as",
            Form::Values("SOCKET=UID:GID"),
            "One more socket, which lets in only this user and group; up to 64 times",
        ),
        (
            "no-main",
            Form::Flag,
            "Creates only the sockets of --as, and not PATH",
        ),
        (
            "blocks",
            Form::Value("B"),
            "The number of 64-byte blocks for message bodies, 128 to 65536 [default: 1024]",
        ),
        (
            "workers",
            Form::Value("W"),
            "The number of threads that serve the sessions, 1 to 16 [default: 4]",
        ),
        (
            "at-once",
            Form::Value("N"),
            "The maximum number of sessions at once, 1 to 16384 [default: as descriptors allow]",
        ),
        (
            "sessions",
            Form::Value("N"),
            "Ends after N sessions, 0 for no limit [default: 0]",
        ),
        (
            "until-eof",
            Form::Flag,
            "Ends once standard input has ended and the sessions are over",
        ),
        (
            "idle",
            Form::Value("SECONDS"),
            "Ends a session that sends no request for this time, 0 for never [default: 0]",
        ),
        (
            "stall",
            Form::Value("SECONDS"),
            "Ends a session whose request or reply takes longer than this, 0 for never [default: 0]",
        ),
        (
            "drain",
            Form::Value("SECONDS"),
            "Ends the sessions left this long after the last accept, 0 for never [default: 0]",
        ),
        (
            "hold",
            Form::Flag,
            "Lets clients hold messages that come back unless they are done with",
        ),
        (
            "stats",
            Form::Value("PATH2"),
            "A second socket to create, on which the server shows its state",
        ),
        (
            "alone",
            Form::Value("SOCKET"),
            "A socket for user 0: for one session before all others, and one after them",
        ),
    ],
    groups: &[],
    usage: None,
};

const SND: Known = Known {
    name: "snd",
    about: "Sends a message, and creates the queue with mode 0600 if there is none",
    example: "\
Example:
  $ sysvmsg snd ./q 7 hello --type 5",
    arguments: &[
        SERVER,
        KEY,
        (
            "text",
            Form::OptionalWord("TEXT"),
            "The message's body, at most 8192 bytes",
        ),
        ("stdin", Form::Flag, "Sends the bytes of standard input"),
        (
            "lines",
            Form::Flag,
            "Sends each line of standard input as a message",
        ),
        (
            "json",
            Form::Flag,
            "Sends messages as `rcv --json` prints them, one per line",
        ),
        (
            "progress",
            Form::Flag,
            "Reports on standard error how many lines were sent",
        ),
        (
            "type",
            Form::Value("N"),
            "The type, 1 to 9223372036854775807 [default: 1]",
        ),
        (
            "nowait",
            Form::Flag,
            "Fails with EAGAIN if there is no room (IPC_NOWAIT)",
        ),
        (
            "wait",
            Form::Value("SECONDS"),
            "Waits at most that long per message, else EAGAIN",
        ),
        STDERR,
        ME,
        USER,
        GROUP,
        PROCESS,
    ],
    groups: &[
        Group {
            of: &["text", "stdin", "lines", "json"],
            required: true,
        },
        Group {
            of: &["text", "progress"],
            required: false,
        },
        Group {
            of: &["stdin", "progress"],
            required: false,
        },
        Group {
            of: &["type", "json"],
            required: false,
        },
        Group {
            of: &["nowait", "wait"],
            required: false,
        },
    ],
    usage: Some("sysvmsg snd [OPTIONS] <PATH> <KEY> <TEXT|--stdin|--lines|--json>"),
};

const RCV: Known = Known {
    name: "rcv",
    about: "Receives a message and prints its body",
    example: "\
Example:
  $ sysvmsg rcv ./q 7 --type 5
  hello",
    arguments: &[
        SERVER,
        KEY,
        (
            "type",
            Form::Value("N"),
            "Takes the first of type N, 1 to 9223372036854775807",
        ),
        (
            "upto",
            Form::Value("N"),
            "Takes the first of the lowest type that is at most N",
        ),
        (
            "except",
            Form::Value("N"),
            "Takes the first of any type but N (MSG_EXCEPT)",
        ),
        (
            "count",
            Form::Value("N"),
            "Receives N messages over one connection",
        ),
        (
            "ahead",
            Form::ValueWith("A", "count"),
            "Requests up to A messages ahead, 1 to 256 [default: 1]",
        ),
        ("follow", Form::Flag, "Receives messages until interrupted"),
        (
            "purge",
            Form::Flag,
            "Takes all messages and prints only their number",
        ),
        (
            "hold",
            Form::Flag,
            "Takes a message once it is printed; needs serve --hold",
        ),
        (
            "show-type",
            Form::Flag,
            "Prints the type and a tab before the body",
        ),
        ("raw", Form::Flag, "Prints no newline after the body"),
        (
            "zero",
            Form::ShortFlag('0'),
            "Ends the body with a zero byte, not a newline",
        ),
        (
            "json",
            Form::Flag,
            "Prints a JSON object with the type and the body",
        ),
        (
            "create",
            Form::Flag,
            "Creates the queue if there is none (IPC_CREAT)",
        ),
        (
            "mode",
            Form::ValueWith("OCTAL", "create"),
            "The mode of a queue that is created [default: 600]",
        ),
        (
            "size",
            Form::Value("S"),
            "The largest body to accept, in bytes [default: 8192]",
        ),
        (
            "nowait",
            Form::Flag,
            "Fails with ENOMSG if there is none (IPC_NOWAIT)",
        ),
        (
            "wait",
            Form::Value("SECONDS"),
            "Waits at most that long per message, else ENOMSG",
        ),
        (
            "noerror",
            Form::Flag,
            "Cuts a longer body to S bytes (MSG_NOERROR)",
        ),
        STDERR,
        ME,
        USER,
        GROUP,
        PROCESS,
    ],
    groups: &[
        Group {
            of: &["type", "upto", "except"],
            required: false,
        },
        Group {
            of: &["count", "follow", "purge"],
            required: false,
        },
        Group {
            of: &["ahead", "follow"],
            required: false,
        },
        Group {
            of: &["hold", "ahead"],
            required: false,
        },
        Group {
            of: &["hold", "noerror"],
            required: false,
        },
        Group {
            of: &["hold", "purge"],
            required: false,
        },
        Group {
            of: &["raw", "zero", "json", "purge"],
            required: false,
        },
        Group {
            of: &["nowait", "wait"],
            required: false,
        },
    ],
    usage: None,
};

const IPCS: Known = Known {
    name: "ipcs",
    about: "Prints a table of the queues",
    example: "\
Example:
  $ sysvmsg ipcs ./q
  key             msqid      owner perms  bytes messages
  0x00000007          0       1000   600      5        1",
    arguments: &[
        SERVER,
        (
            "id",
            Form::Letter('i', "ID"),
            "Shows all attributes of one queue",
        ),
        ("json", Form::Flag, "Prints a JSON object per queue"),
        WAIT,
        STDERR,
        ME,
        USER,
        GROUP,
        PROCESS,
    ],
    groups: &[Group {
        of: &["id", "json"],
        required: false,
    }],
    usage: None,
};

const IPCRM: Known = Known {
    name: "ipcrm",
    about: "Removes a queue, or all, and discards the messages",
    example: "\
Example:
  $ sysvmsg ipcrm ./q -Q 7",
    arguments: &[
        SERVER,
        (
            "id",
            Form::Letter('q', "ID"),
            "The queue's identifier, 0 to 2147483647",
        ),
        ("key", Form::Letter('Q', "KEY"), KEY_HELP),
        (
            "all",
            Form::Flag,
            "Removes each queue that the caller may remove",
        ),
        WAIT,
        STDERR,
        ME,
        USER,
        GROUP,
        PROCESS,
    ],
    groups: &[Group {
        of: &["id", "key", "all"],
        required: true,
    }],
    usage: None,
};

const IPCMK: Known = Known {
    name: "ipcmk",
    about: "Makes a queue and prints its identifier",
    example: "\
Example:
  $ sysvmsg ipcmk ./q 9 --mode 660
  1",
    arguments: &[
        SERVER,
        (
            "key",
            Form::OptionalWord("KEY"),
            "The key, which no queue has yet [default: a private queue]",
        ),
        (
            "mode",
            Form::Value("OCTAL"),
            "The mode of the queue [default: 600]",
        ),
        (
            "qbytes",
            Form::Value("N"),
            "The maximum number of queued bytes [default: 16384]",
        ),
        WAIT,
        STDERR,
        ME,
        USER,
        GROUP,
        PROCESS,
    ],
    groups: &[],
    usage: None,
};

const SAVE: Known = Known {
    name: "save",
    about: "Prints queues and takes their messages; the server needs --hold",
    example: "\
Each queue is a JSON object, followed by its messages as `rcv --json` prints
them. A message is taken only once it is printed whole and, if standard output
is a file, synced.

Example:
  $ sysvmsg save ./q --uid 0 > queues",
    arguments: &[
        SERVER,
        (
            "key",
            Form::Value("KEY"),
            "Saves one queue [default: all queues]",
        ),
        (
            "type",
            Form::Value("N"),
            "Takes those of type N, 1 to 9223372036854775807",
        ),
        (
            "upto",
            Form::Value("N"),
            "Takes those of types up to N, the lowest type first",
        ),
        ("except", Form::Value("N"), "Takes those of any type but N"),
        (
            "nosync",
            Form::Flag,
            "Does not sync the file, which is faster",
        ),
        WAIT,
        ME,
        USER,
        GROUP,
        PROCESS,
    ],
    groups: &[Group {
        of: &["type", "upto", "except"],
        required: false,
    }],
    usage: None,
};

const LOAD: Known = Known {
    name: "load",
    about: "Reads queues that `save` printed from standard input, and makes them",
    example: "\
Example:
  $ sysvmsg load ./q --uid 0 --adopt < queues",
    arguments: &[
        SERVER,
        ("from", Form::Value("N"), "Begins at line N [default: 1]"),
        (
            "into",
            Form::Flag,
            "Uses a queue that has the key, and sets its attributes",
        ),
        (
            "adopt",
            Form::Flag,
            "Makes queues of other creators too, as the caller",
        ),
        (
            "nowait",
            Form::Flag,
            "Fails with EAGAIN if there is no room (IPC_NOWAIT)",
        ),
        (
            "wait",
            Form::Value("SECONDS"),
            "Waits at most that long per message, else EAGAIN",
        ),
        ME,
        USER,
        GROUP,
        PROCESS,
    ],
    groups: &[Group {
        of: &["nowait", "wait"],
        required: false,
    }],
    usage: None,
};

const STATS: Known = Known {
    name: "stats",
    about: "Prints the state of a server that has --stats",
    example: "\
Example:
  $ sysvmsg stats ./q.stats | grep ^sysvmsg_sessions_open
  sysvmsg_sessions_open 3",
    arguments: &[
        (
            "path",
            Form::Word("PATH2"),
            "The socket that the server's --stats names",
        ),
        ("json", Form::Flag, "Prints a JSON object"),
        WAIT,
        STDERR,
    ],
    groups: &[],
    usage: None,
};

const SCRIPT: Known = Known {
    name: "script",
    about: "Runs the script on standard input and prints the result of each call",
    example: "\
Example:
  $ printf '1 get 7 CREAT+0600\\n1 snd 0 1 - =hello\\n' | sysvmsg script
  1 get = 0
  1 snd = 0",
    arguments: &[],
    groups: &[],
    usage: None,
};

/// Returns the whole command line.
pub(crate) fn command<'a>(alloc: Global) -> Result<Command<'a>, AllocError> {
    let mut line = Command::new(alloc, "sysvmsg")
        .about("System V message queues on a Unix socket")
        .after_help(SESSION)
        .version(VERSION)
        .propagate_version(true)
        .subcommand_required(true);
    for known in COMMANDS {
        line = line.subcommand(command_of(alloc, known)?)?;
    }
    Ok(line)
}

/// Returns the command of this name, or the whole command line if there is no such command.
pub(crate) fn command_named<'a>(alloc: Global, name: &str) -> Result<Command<'a>, AllocError> {
    for known in COMMANDS {
        if known.name == name {
            let words = format!(in alloc; "sysvmsg {name}")?;
            return command_of(alloc, known)?.bin_name(&words);
        }
    }
    command(alloc)
}

/// Returns the argument that a command has under this name, as an error shows it.
pub(crate) fn option_named(command: &str, id: &str) -> Option<Shown> {
    for known in COMMANDS {
        if known.name == command {
            return argument_named(known.arguments, id);
        }
    }
    None
}

/// Returns the argument of this name, as an error shows it.
fn argument_named(arguments: &[Argument], id: &str) -> Option<Shown> {
    for argument in arguments {
        if argument.0 == id {
            return Some(Shown(*argument));
        }
    }
    None
}

/// An argument as an error shows it: `<PATH>`, `--idle <SECONDS>` or `-q <ID>`.
#[derive(Clone, Copy)]
pub(crate) struct Shown(Argument);

impl fmt::Display for Shown {
    fn fmt<W: fmt::Write>(&self, f: &mut fmt::Formatter<W>) -> fmt::Result {
        let (id, form, _) = self.0;
        match form {
            Form::Word(name) => write!(f, "<{name}>"),
            Form::OptionalWord(name) => write!(f, "[{name}]"),
            Form::Value(name) | Form::ValueWith(name, _) | Form::Values(name) => {
                write!(f, "--{id} <{name}>")
            }
            Form::Letter(letter, name) => write!(f, "-{letter} <{name}>"),
            Form::Flag | Form::ShortFlag(_) => write!(f, "--{id}"),
        }
    }
}

fn command_of<'a>(alloc: Global, known: Known) -> Result<Command<'a>, AllocError> {
    let mut command = with_arguments(alloc, known)?;
    for (place, group) in known.groups.iter().enumerate() {
        command = command.group(group_of(alloc, NAMES[place.min(7)], *group)?)?;
    }
    Ok(command)
}

/// The names of the groups of a command, which has at most eight.
const NAMES: [&str; 8] = [
    "one", "two", "three", "four", "five", "six", "seven", "eight",
];

fn with_arguments<'a>(alloc: Global, known: Known) -> Result<Command<'a>, AllocError> {
    let mut command = Command::new(alloc, known.name)
        .about(known.about)
        .after_help(known.example);
    for given in known.arguments {
        command = command.arg(argument_of(alloc, *given)?)?;
    }
    Ok(match known.usage {
        Some(usage) => command.override_usage(usage),
        None => command,
    })
}

fn argument_of<'a>(alloc: Global, given: Argument) -> Result<Arg<'a>, AllocError> {
    let (id, form, help) = given;
    let argument = Arg::new(alloc, id).help(help);
    Ok(match form {
        Form::Word(name) => valued(argument, name).required(true),
        Form::OptionalWord(name) => valued(argument, name),
        Form::Value(name) => option(argument, name).long(id),
        Form::ValueWith(name, other) => option(argument, name).long(id).requires_arg(other)?,
        Form::Values(name) => option(argument, name).action(ArgAction::Append).long(id),
        Form::Letter(letter, name) => option(argument, name).short(letter),
        Form::Flag => flag(argument, id),
        Form::ShortFlag(letter) => flag(argument, id).short(letter),
    })
}

fn flag<'a>(argument: Arg<'a>, id: &'static str) -> Arg<'a> {
    argument.action(ArgAction::SetTrue).long(id)
}

fn valued<'a>(argument: Arg<'a>, name: &'static str) -> Arg<'a> {
    argument.value_name(name).action(ArgAction::Set)
}

/// Gives an option a value. A word such as `-1` after it is the value, which is then refused as one,
/// and is not taken for an option.
fn option<'a>(argument: Arg<'a>, name: &'static str) -> Arg<'a> {
    valued(argument, name).allow_negative_numbers(true)
}

fn group_of<'a>(
    alloc: Global,
    name: &'static str,
    group: Group,
) -> Result<ArgGroup<'a>, AllocError> {
    let made = ArgGroup::new(alloc, name).args(group.of)?;
    Ok(made.required(group.required))
}
