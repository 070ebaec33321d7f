//! The request that a command line makes.

ghost use Rattle.std.specs.Prelude.{◌≡◌, ◌≤◌, ◌+◌, ◌⊎◌, ℕ, Contains, IfErr, IfOk, IfSome, MatchOption, OnOk, Some, codes, cond, false, is_some, length, map, not, pos, slice_get, true};
ghost use Rattle.clap.specs.Values.{kind_of};
ghost use Rattle.clap.specs.Words.{app_of, subcommand_rows_of};
ghost use Rattle.clap.specs.declared.error.kind.ErrorKind.TheVariants.{InvalidValue, OutOfMemory};
ghost use Rattle.sysv_options.specs.Asked.{AreAtOnce, AreBlocks, AreTerms, AreWorkers, HasLimits, IsWithinLimits};
ghost use Rattle.sysv_options.specs.Requests.{AreRefused, AsksFor, ClientAsks, IsAskedBy, IsMeant, IsRefused};
ghost use Rattle.sysv_options.specs.Servers.{AsksForAtOnce, AsksForBlocks, AsksForFile, AsksForFileAt, AsksForOthers, AsksForTerms, AsksForWorkers, AsksToLoad, AsksToLook, AsksToSave, AsksToServe, AreBoth, AreIds, AreOthers, CountsSockets, HasPath, IsEntrance, IsLineNumber, MayAskForAlone, MayAskForStats, SplitsAtLast};
ghost use Rattle.sysv_options.specs.Sockets.{sockets_of};
ghost use Rattle.sysv_options.specs.Tasks.{AsksToList, AsksToMake, AsksToReceive, AsksToRemove, AsksToSend, HasTask, HasHow, NamesTarget, IsAhead, Receives, ShowsIn, StatesWho, is_json};
ghost use Rattle.sysv_options.specs.Words.{ArePartsOf, AreSeconds, Has, HasFlag, HasMaybe, HasOr, IsMode, IsOctalMode, IsOn, IsRead, IsThousandths, IsTime, IsUnsigned, WantsType, word_of, words_in};
ghost use Rattle.sysv_connect.specs.Telling.{has_line, has_sentence};
ghost use Rattle.sysv_words.specs.Words.{IsNat32, IsNat64};
ghost use Rattle.sysv_clients.specs.Run.{HasShortText};
ghost use Rattle.sysv_clients.specs.Words.{IsKey, IsType};

use crate::commands::{command, command_named, option_named};
use crate::sockets::{Entrance, Entrances, MAX_OTHERS, SocketFile};
use crate::who::Who;
use clap::error::ErrorKind;
use clap::{ArgMatches, Command as CommandLine, Error};
use std::alloc::{AllocError, Global};
use std::convert::AsStr;
use sysv_clients::{
    Form, Format, MAX_AHEAD, Making, Receipt, Target, Task, id_of, key_of, type_of,
};
use sysv_connect::{How, Loading, Looking, Saving, Telling};
use sysv_model::{BODY_ROOM, MAX_BLOCKS, MIN_BLOCKS};
use sysv_server::{Callers, MAX_CLIENTS, Patience, Terms};
use sysv_words::{Reads, one_split, split_at_mark};

/// The request that a command line makes. `S` is what it asks of a server that it starts.
#[derive(Clone, Copy, PartialEq, Eq, Debug)]
pub enum Asked<'a, S> {
    /// Run the script on the standard input.
    Script,
    /// Serve at a path.
    Serve(S),
    /// Show the state of a server.
    Look(Looking<'a>),
    /// Save queues of a server.
    Save(Who, Saving<'a>),
    /// Load a file of queues into a server.
    Load(Who, Loading<'a>),
    /// Run a task of a client at the server at `path`.
    Client {
        /// The path of the server's socket.
        path: &'a str,
        /// The user, the group and the process that the client states.
        who: Who,
        /// The task.
        task: Task<'a>,
        /// How the task is run.
        how: How,
    },
}

/// The socket files and the terms of a server.
#[derive(Clone, Copy, PartialEq, Eq, Debug)]
pub struct Serving<'a> {
    /// The file of its socket, which lets in anyone.
    pub file: SocketFile<'a>,
    /// Its other sockets, each of which lets in one user.
    pub others: Entrances<'a>,
    /// Whether it has only the others.
    pub no_main: bool,
    /// The file of the socket on which its state is shown, if it is to be shown.
    pub stats: Option<SocketFile<'a>>,
    /// The file of the socket for sessions that are served alone, if there are any.
    pub alone: Option<SocketFile<'a>>,
    /// The terms of the server.
    pub terms: Terms,
    /// Whether the server ends after its standard input has ended.
    pub until_eof: bool,
}

impl<'a> Serving<'a> {
    /// Returns the number of sockets at which connections are accepted.
    pub fn count(&self) -> usize
        ensures { self.now.others.count ≤ MAX_OTHERS →
            result ≡ self.now.others.count + cond self.now.no_main 0 1 }
    {
        if self.no_main {
            self.others.count()
        } else {
            self.others.count().saturating_add(1)
        }
    }

    /// Returns the socket of this number, if there is one. The one that lets in anyone is the first.
    pub fn socket(&self, number: usize) -> Option<Entrance<'a>>
        ensures { result ≡ slice_get (sockets_of self.now) number }
    {
        if self.no_main {
            return self.others.get(number);
        }
        match number.checked_sub(1) {
            Some(other) => self.others.get(other),
            None => Some(Entrance {
                file: self.file,
                callers: Callers::Anyone,
            }),
        }
    }
}

/// The maximum number of workers that `--workers` may ask for.
const MAX_WORKERS: u32 = 16;

/// The number of workers without an option.
const WORKERS: u32 = 4;

/// The maximum mode of a socket file.
const MAX_MODE: u32 = 0o777;

/// The maximum number of bytes in a socket's path. The system call has space for one more byte,
/// which is 0.
const MAX_PATH: usize = 107;

/// The maximum number of bytes in a socket's path that has a `--mode`. The socket is created under
/// a name that is four bytes longer.
const MAX_PATH_WITH_MODE: usize = 103;

/// Why a command line is not valid.
#[derive(Clone, Copy, PartialEq, Eq, Debug)]
struct Bad {
    /// The name under which the word that is not valid is in the table of commands, or nothing if
    /// it is not one word.
    name: &'static str,
    /// What would be valid.
    valid: &'static str,
}

const PATH: &str = "a PATH has 1 to 107 bytes";

const PATH_WITH_MODE: &str = "with --mode a PATH has 1 to 103 bytes";

const OTHER_PATH: &str = "PATH2 is PATH: --stats names a socket of its own";

const PATH_ALONE: &str = "the SOCKET of --alone has 1 to 103 bytes, and is not PATH";

/// The mode of the socket for sessions that are served alone.
const MODE_ALONE: u32 = 0o600;

/// The sessions that are served alone lack what they need.
const NOT_ALONE: Bad = Bad {
    name: "",
    valid: "--alone needs --until-eof, and takes no --sessions",
};

/// A word after `--as` is none.
const NO_ENTRANCE: Bad = Bad {
    name: "",
    valid: "--as takes SOCKET=UID:GID: a path of 1 to 107 bytes, a user and a group of 0 to 4294967295",
};

/// There are too many words after `--as`.
const MANY_ENTRANCES: Bad = Bad {
    name: "",
    valid: "--as names at most 64 sockets",
};

/// There is no socket at all.
const NO_SOCKET: Bad = Bad {
    name: "",
    valid: "--no-main needs --as",
};

const KEY: &str =
    "a KEY is 1 to 2147483647, or 0x and one to eight hexadecimal digits that are not all 0";

const ID: &str = "an ID is 0 to 2147483647";

const TYPE: &str = "a type is 1 to 9223372036854775807";

const BLOCKS: &str = "the number of blocks is 128 to 65536";

const WORKERS_ALLOWED: &str = "the number of workers is 1 to 16";

const AT_ONCE: &str = "the number of sessions at once is 1 to 16384";

const SECONDS: &str = "a whole number of seconds is 0 to 4294967295";

const MODE: &str = "a mode is 0 to 777 in octal";

const SESSIONS: &str = "the number of sessions is 0 to 18446744073709551615";

const LINE: &str = "the number of a line is 1 to 18446744073709551615";

const COUNT: &str = "a number of messages or bytes is 0 to 4294967295";

const TIME: &str =
    "a time is 0 to 4294967295 seconds, with or without a point and one to three more digits";

const AHEAD: &str = "the number of receives ahead is 1 to 256";

const OWNER: &str = "a user, group or process ID is 0 to 4294967295";

const TEXT: &str = "a message has at most 8192 bytes";

/// Two options that exclude one another.
const TWO_FORMS: Bad = Bad {
    name: "",
    valid: "--raw, --zero and --json exclude one another",
};

/// There is no command.
const NO_COMMAND: Bad = Bad {
    name: "",
    valid: "a command is missing",
};

/// Returns why the word of this name is not valid.
fn invalid(name: &'static str, valid: &'static str) -> Bad {
    Bad { name, valid }
}

/// Parses a command line, whose first word is the program's name.
///
/// # Errors
///
/// Fails with the error to print if the words are not valid, and with the help or the version if
/// the words request it.
pub fn read_words<'a, S: AsStr>(
    alloc: Global,
    words: &'a [S],
) -> Result<Asked<'a, Serving<'a>>, Error>
    ensures limits { IfOk result IsWithinLimits }
    ensures meaning { IfOk result (IsMeant (map S.text words.entry.now)) }
    ensures refused { IfErr result (AreRefused (map S.text words.entry.now)) }
{
    let mut line: CommandLine<'a> = command(alloc)?;
    read_line(alloc, &mut line, words)
}

/// Parses the words like `read_words`, with this command line.
fn read_line<'a, S: AsStr>(
    alloc: Global,
    line: &mut CommandLine<'a>,
    words: &'a [S],
) -> Result<Asked<'a, Serving<'a>>, Error>
    ensures limits { IfOk result IsWithinLimits }
    ensures meaning { IfOk result (IsAskedBy (app_of line.old) (map S.text words.entry.now)) }
    ensures refused { IfErr result (IsRefused (app_of line.old) (map S.text words.entry.now)) }
{
    let matches = line.try_get_matches_from_mut(words)?;
    match task_of(&matches) {
        Ok(task) => Ok(task),
        Err(bad) => Err(refusal(alloc, &matches, bad)),
    }
}

/// Returns the error that a value is not valid, or that memory was refused for it.
fn refusal(alloc: Global, matches: &ArgMatches<'_>, bad: Bad) -> Error {
    match bad_value(alloc, matches, bad) {
        Ok(error) => error,
        Err(error) => Error::from(error),
    }
}

/// Returns the error that a value is not valid, with the usage of the parsed command.
fn bad_value(alloc: Global, matches: &ArgMatches<'_>, bad: Bad) -> Result<Error, AllocError> {
    let Some((name, words)) = command_in(matches) else {
        return command(alloc)?.error(ErrorKind::ValueValidation, bad.valid);
    };
    let text = text_of(alloc, name, words, bad)?;
    command_named(alloc, name)?.error(ErrorKind::ValueValidation, text.as_str())
}

/// The greatest number of bytes of a value that an error repeats.
const MOST_REPEATED: usize = 40;

/// Returns the text of an error: the option of the command and the value that it was given, and
/// what would be valid.
fn text_of(
    alloc: Global,
    name: &str,
    words: &ArgMatches<'_>,
    bad: Bad,
) -> Result<String, AllocError> {
    let Bad { name: id, valid } = bad;
    let (Some(option), Some(word)) = (option_named(name, id), words.get_str(id)) else {
        return format!(in alloc; "{valid}");
    };
    if word.len() > MOST_REPEATED {
        format!(in alloc;
            "invalid value of {} bytes for '{option}': {valid}",
            word.len()
        )
    } else {
        format!(in alloc; "invalid value '{word}' for '{option}': {valid}")
    }
}

/// Returns the error that a word is not UTF-8, or that memory was refused for it.
pub fn no_text(alloc: Global) -> Error
    ensures { (kind_of result ≡ InvalidValue) ⊎ (kind_of result ≡ OutOfMemory) }
{
    match fault(alloc, "a word is not UTF-8") {
        Ok(error) => error,
        Err(error) => Error::from(error),
    }
}

/// Returns an error about the whole command line.
fn fault(alloc: Global, text: &str) -> Result<Error, AllocError>
    ensures { IfOk result (λ error. kind_of error ≡ InvalidValue) }
{
    command(alloc)?.error(ErrorKind::InvalidValue, text)
}

/// Returns the request of the parsed command.
fn task_of<'a>(matches: &ArgMatches<'a>) -> Result<Asked<'a, Serving<'a>>, Bad>
    ensures limits { IfOk result IsWithinLimits }
    ensures meaning { IsRead result (AsksFor (subcommand_rows_of matches.now)) }
{
    let Some((name, words)) = command_in(matches) else {
        return Err(NO_COMMAND);
    };
    match name {
        "script" => Ok(Asked::Script),
        "serve" => Ok(Asked::Serve(server(words)?)),
        "stats" => Ok(Asked::Look(look_of(words)?)),
        "save" => Ok(Asked::Save(who_of(words)?, saving_of(words)?)),
        "load" => Ok(Asked::Load(who_of(words)?, loading_of(words)?)),
        _ => client(name, words),
    }
}

/// Returns the request of a `stats`.
fn look_of<'a>(words: &ArgMatches<'a>) -> Result<Looking<'a>, Bad>
    ensures { IsRead result (AsksToLook (words_in words.now)) }
{
    Ok(Looking {
        path: path_of(words)?,
        json: has_flag(words, "json"),
        wait: time_if(words, "wait")?,
        telling: telling_of(words),
    })
}

/// Returns what a `save` saves, and how.
fn saving_of<'a>(words: &ArgMatches<'a>) -> Result<Saving<'a>, Bad>
    ensures { IsRead result (AsksToSave (words_in words.now)) }
{
    Ok(Saving {
        path: path_of(words)?,
        key: key_if(words)?,
        mtype: wanted_type(words)?,
        except: has_word(words, "except"),
        nosync: has_flag(words, "nosync"),
        wait: time_if(words, "wait")?,
    })
}

/// Returns how a `load` loads its input.
fn loading_of<'a>(words: &ArgMatches<'a>) -> Result<Loading<'a>, Bad>
    ensures { IsRead result (AsksToLoad (words_in words.now)) }
{
    Ok(Loading {
        path: path_of(words)?,
        from: first_line(words)?,
        into: has_flag(words, "into"),
        adopt: has_flag(words, "adopt"),
        nowait: has_flag(words, "nowait"),
        wait: time_if(words, "wait")?,
    })
}

/// Returns the number of the first line that a `load` loads, 1 without an option.
fn first_line(words: &ArgMatches<'_>) -> Result<u64, Bad>
    ensures { IsRead result (HasOr IsLineNumber 1 (word_of (words_in words.now) (codes "from"))) }
{
    match word_in(words, "from") {
        Some(word) => match u64::read(word.as_bytes()) {
            Some(line) if line >= 1 => Ok(line),
            _ => Err(invalid("from", LINE)),
        },
        None => Ok(1),
    }
}

/// Returns the request of a client's command.
fn client<'a>(name: &str, words: &ArgMatches<'a>) -> Result<Asked<'a, Serving<'a>>, Bad>
    ensures limits { IfOk result IsWithinLimits }
    ensures meaning { IsRead result (ClientAsks name.now (words_in words.now)) }
{
    let task = client_task(name, words)?;
    let path = path_of(words)?;
    let who = who_of(words)?;
    let how = how_of(words)?;
    Ok(Asked::Client {
        path,
        who,
        task,
        how,
    })
}

/// Returns how a client's task is run.
fn how_of(words: &ArgMatches<'_>) -> Result<How, Bad>
    ensures { IsRead result (HasHow (words_in words.now)) }
{
    Ok(How {
        from_input: has_flag(words, "stdin"),
        lines: has_flag(words, "lines"),
        objects: has_flag(words, "json"),
        progress: has_flag(words, "progress"),
        follow: has_flag(words, "follow"),
        purge: has_flag(words, "purge"),
        holds: has_flag(words, "hold"),
        count: number_if(words, "count", COUNT)?,
        ahead: ahead_of(words)?,
        wait: time_if(words, "wait")?,
        telling: telling_of(words),
    })
}

/// Returns how faults are told: by a sentence with `--stderr`, and else by a line.
fn telling_of(words: &ArgMatches<'_>) -> Telling
    ensures line { has_line result ≡ not (has_sentence result) }
    ensures sentence { HasFlag (words_in words.now) (codes "stderr") (has_sentence result) }
{
    if has_flag(words, "stderr") {
        Telling::Sentence
    } else {
        Telling::Line
    }
}

/// Returns the number of receives that may be on their way, if the command has it.
fn ahead_of(words: &ArgMatches<'_>) -> Result<Option<u32>, Bad>
    ensures { IsRead result (HasMaybe IsAhead (word_of (words_in words.now) (codes "ahead"))) }
{
    match word_in(words, "ahead") {
        Some(word) => match u32::read(word.as_bytes()) {
            Some(ahead) if (1..=MAX_AHEAD).contains(&ahead) => Ok(Some(ahead)),
            _ => Err(invalid("ahead", AHEAD)),
        },
        None => Ok(None),
    }
}

/// Returns the task of a client's command.
fn client_task<'a>(name: &str, words: &ArgMatches<'a>) -> Result<Task<'a>, Bad>
    ensures limits { IfOk result HasShortText }
    ensures meaning { IsRead result (HasTask name.now (words_in words.now)) }
{
    match name {
        "ipcs" => listing(words),
        "ipcrm" => removal(words),
        "ipcmk" => making(words),
        "snd" => sending(words),
        "rcv" => receiving(words),
        _ => Err(NO_COMMAND),
    }
}

/// Returns the path of the socket. An empty path is refused: it would create a socket without a
/// name, which no file's mode protects.
fn path_of<'a>(words: &ArgMatches<'a>) -> Result<&'a str, Bad>
    ensures { IsRead result (λ path. HasPath (words_in words.now) path.now) }
{
    match word_in(words, "path") {
        Some(path) if !path.is_empty() && path.len() <= MAX_PATH => Ok(path),
        _ => Err(invalid("path", PATH)),
    }
}

/// Returns the request of a `serve`.
fn server<'a>(words: &ArgMatches<'a>) -> Result<Serving<'a>, Bad>
    ensures limits { IfOk result HasLimits }
    ensures meaning { IsRead result (AsksToServe (words_in words.now)) }
{
    let file = file_of(words)?;
    let others = others_of(words)?;
    let terms = terms_of(words)?;
    let no_main = is_on(words, "no-main");
    let Some(sockets) = number_of_sockets(no_main, terms.alone, others.count()) else {
        return Err(NO_SOCKET);
    };
    let stats = stats_of(words, file.path)?;
    let alone = alone_of(words, file.path)?;
    if !may_serve(words, terms.alone, terms.sessions) {
        return Err(NOT_ALONE);
    }
    Ok(Serving {
        file,
        others,
        no_main,
        stats,
        alone,
        terms: Terms { sockets, ..terms },
        until_eof: has_flag(words, "until-eof"),
    })
}

/// Returns the number of sockets of a server with this number of other ones, and with one more at
/// which sessions are served `alone`, or `None` if it has no others.
fn number_of_sockets(no_main: bool, alone: bool, others: usize) -> Option<u32>
    requires { others ≤ MAX_OTHERS }
    ensures { MatchOption result ((sockets : ℕ) → ¬ CountsSockets no_main alone others sockets)
        (CountsSockets no_main alone others) }
{
    let others = others as u32;
    match (no_main, alone) {
        (true, true) if others > 0 => Some(others + 1),
        (true, false) if others > 0 => Some(others),
        (true, _) => None,
        (false, true) => Some(others + 2),
        (false, false) => Some(others + 1),
    }
}

/// Returns whether a server may run this number of sessions, 0 for no limit. If some are served `alone`,
/// it must end after its input has ended, and the number must not be limited.
fn may_serve(words: &ArgMatches<'_>, alone: bool, sessions: u64) -> bool
    ensures can { result ≡ true → alone ≡ true →
        IsOn (word_of (words_in words.now) (codes "until-eof")) × (sessions ≡ 0) }
    ensures cannot { result ≡ false → (alone ≡ true)
        × ¬ (IsOn (word_of (words_in words.now) (codes "until-eof")) × (sessions ≡ 0)) }
{
    if !alone {
        return true;
    }
    is_on(words, "until-eof") && sessions == 0
}

/// Returns the sockets that let in one user each.
fn others_of<'a>(words: &ArgMatches<'a>) -> Result<Entrances<'a>, Bad>
    ensures { IsRead result (AsksForOthers (words_in words.now)) }
{
    match words.get_strs("as") {
        Some(given) => others_in(words, given),
        None => Ok(Entrances::none()),
    }
}

/// Parses sockets that let in one user each.
fn others_in<'a>(words: &ArgMatches<'a>, given: &[&'a str]) -> Result<Entrances<'a>, Bad>
    ensures { IsRead result (AreOthers (words_in words.now) (map (λ word. word.now) given.now)) }
{
    let mut others = Entrances::none();
    for number in 0..given.len() {
        let entrance = match entrance_of(words, given[number]) {
            Ok(entrance) => entrance,
            Err(why) => return Err(why),
        };
        if !others.add(entrance) {
            return Err(MANY_ENTRANCES);
        }
    }
    Ok(others)
}

/// Parses a socket that lets in one user: `SOCKET=UID:GID`. Only the last `=` and the `:` after it have
/// this meaning.
fn entrance_of<'a>(words: &ArgMatches<'a>, word: &'a str) -> Result<Entrance<'a>, Bad>
    ensures { IsRead result (IsEntrance (words_in words.now) word.now) }
{
    let Some((path, ids)) = split_at_last_equals(word) else {
        return Err(NO_ENTRANCE);
    };
    let Some((uid, gid)) = ids_in(ids.as_bytes()) else {
        return Err(NO_ENTRANCE);
    };
    if !is_path(path) {
        return Err(NO_ENTRANCE);
    }
    match file_at(words, "as", path) {
        Ok(file) => Ok(Entrance {
            file,
            callers: Callers::Only { uid, gid },
        }),
        Err(why) => Err(why),
    }
}

/// Returns whether a text is as long as the path of a socket may be.
fn is_path(path: &str) -> bool
    ensures some { result ≡ true → (1 ≤ length path.now) × (length path.now ≤ MAX_PATH) }
    ensures none { result ≡ false → ¬ ((1 ≤ length path.now) × (length path.now ≤ MAX_PATH)) }
{
    !path.is_empty() && path.len() <= MAX_PATH
}

/// Returns what is before the last `=` of a text, and what is after it, or `None` without one.
fn split_at_last_equals(text: &str) -> Option<(&str, &str)>
    ensures { MatchOption result (¬ Contains text.now 61)
        (λ parts. SplitsAtLast 61 text.now parts.0.now parts.1.now) }
{
    text.rsplit_once('=')
}

/// Returns the user and the group of a text such as `1001:100`, or `None` for any other text.
fn ids_in(text: &[u8]) -> Option<(u32, u32)>
    ensures { MatchOption result ((ids : ℕ × ℕ) → ¬ AreIds text.now ids) (AreIds text.now) }
{
    one_split();
    match split_at_mark(text, b':') {
        Some((user, group)) => both_ids(user, group),
        None => None,
    }
}

/// Returns the numbers of a user and a group, or `None` for any other words.
fn both_ids(user: &[u8], group: &[u8]) -> Option<(u32, u32)>
    ensures { MatchOption result ((ids : ℕ × ℕ) → ¬ AreBoth user.now group.now ids)
        (AreBoth user.now group.now) }
{
    let Some(uid) = unsigned(user) else {
        return None;
    };
    match unsigned(group) {
        Some(gid) => Some((uid, gid)),
        None => None,
    }
}

/// Returns the file of a server's socket.
fn file_of<'a>(words: &ArgMatches<'a>) -> Result<SocketFile<'a>, Bad>
    ensures { IsRead result (AsksForFile (words_in words.now)) }
{
    file_at(words, "path", path_of(words)?)
}

/// Returns the file of the socket on which the state of a server at the path `own` is shown, if the
/// command has one.
fn stats_of<'a>(words: &ArgMatches<'a>, own: &str) -> Result<Option<SocketFile<'a>>, Bad>
    requires { word_of (words_in words.now) (codes "path") ≡ Some own.now }
    ensures { IsRead result (MayAskForStats (words_in words.now)) }
{
    match word_in(words, "stats") {
        Some(path) if path.is_empty() || path.len() > MAX_PATH => Err(invalid("stats", PATH)),
        Some(path) if path == own => Err(invalid("stats", OTHER_PATH)),
        Some(path) => Ok(Some(file_at(words, "stats", path)?)),
        None => Ok(None),
    }
}

/// Returns the file of the socket for sessions that are served alone by a server at the path `own`, if
/// the command has any. Only the user of the server may connect to it, and a stale one is removed.
fn alone_of<'a>(words: &ArgMatches<'a>, own: &str) -> Result<Option<SocketFile<'a>>, Bad>
    requires { word_of (words_in words.now) (codes "path") ≡ Some own.now }
    ensures { IsRead result (MayAskForAlone (words_in words.now)) }
{
    match word_in(words, "alone") {
        Some(path) if path.is_empty() || path.len() > MAX_PATH_WITH_MODE => {
            Err(invalid("alone", PATH_ALONE))
        }
        Some(path) if path == own => Err(invalid("alone", PATH_ALONE)),
        Some(path) => Ok(Some(SocketFile {
            path,
            mode: Some(MODE_ALONE),
            replace: true,
        })),
        None => Ok(None),
    }
}

/// Returns the file of a socket of a server at this path, which is the word of this name.
fn file_at<'a>(
    words: &ArgMatches<'a>,
    name: &'static str,
    path: &'a str,
) -> Result<SocketFile<'a>, Bad>
    ensures { IsRead result (λ file. (file.path.now ≡ path.now)
        × AsksForFileAt (words_in words.now) path.now file) }
{
    let mode = mode_of(words)?;
    if mode.is_some() && path.len() > MAX_PATH_WITH_MODE {
        return Err(invalid(name, PATH_WITH_MODE));
    }
    Ok(SocketFile {
        path,
        mode,
        replace: has_flag(words, "replace"),
    })
}

/// Returns the terms of a server.
fn terms_of(words: &ArgMatches<'_>) -> Result<Terms, Bad>
    ensures limits { IfOk result AreTerms }
    ensures meaning { IsRead result (AsksForTerms (words_in words.now)) }
{
    Ok(Terms {
        blocks: blocks_of(words)?,
        workers: workers_of(words)?,
        at_once: at_once_of(words)?,
        sessions: sessions_of(words)?,
        patience: Patience {
            idle: seconds_of(words, "idle")?,
            stall: seconds_of(words, "stall")?,
        },
        drain: seconds_of(words, "drain")?,
        stats: has_word(words, "stats"),
        hold: has_flag(words, "hold"),
        sockets: 1,
        alone: has_word(words, "alone"),
    })
}

/// Returns the maximum number of clients at once: the word after `--at-once`, or else the greatest
/// number.
fn at_once_of(words: &ArgMatches<'_>) -> Result<u32, Bad>
    ensures limits { IfOk result AreAtOnce }
    ensures meaning { IsRead result (AsksForAtOnce (words_in words.now)) }
{
    let Some(word) = word_in(words, "at-once") else {
        return Ok(MAX_CLIENTS);
    };
    match u32::read(word.as_bytes()) {
        Some(at_once) if (1..=MAX_CLIENTS).contains(&at_once) => Ok(at_once),
        _ => Err(invalid("at-once", AT_ONCE)),
    }
}

/// Returns the number of seconds that an option has, 0 for no limit.
fn seconds_of(words: &ArgMatches<'_>, id: &'static str) -> Result<u32, Bad>
    ensures { IsRead result (HasOr IsNat32 0 (word_of (words_in words.now) id.now)) }
{
    match word_in(words, id) {
        Some(word) => u32::read(word.as_bytes()).ok_or(invalid(id, SECONDS)),
        None => Ok(0),
    }
}

/// Returns the mode of a socket file, if the command has one.
fn mode_of(words: &ArgMatches<'_>) -> Result<Option<u32>, Bad>
    ensures { IsRead result (IsMode (word_of (words_in words.now) (codes "mode"))) }
{
    match word_in(words, "mode") {
        Some(word) => Ok(Some(octal_mode(word)?)),
        None => Ok(None),
    }
}

/// Parses a mode: an octal number from 0 to 777.
fn octal_mode(word: &str) -> Result<u32, Bad>
    ensures { IsRead result (IsOctalMode word.now) }
{
    match u32::from_str_radix(word, 8) {
        Ok(mode) if mode <= MAX_MODE && !word.starts_with('+') => Ok(mode),
        _ => Err(invalid("mode", MODE)),
    }
}

/// Returns the number of blocks in a pool.
fn blocks_of(words: &ArgMatches<'_>) -> Result<u32, Bad>
    ensures limits { IfOk result AreBlocks }
    ensures meaning { IsRead result (AsksForBlocks (words_in words.now)) }
{
    let blocks = number(words, "blocks", 1024, BLOCKS)?;
    if (MIN_BLOCKS..=MAX_BLOCKS).contains(&blocks) {
        Ok(blocks)
    } else {
        Err(invalid("blocks", BLOCKS))
    }
}

/// Returns the number of workers: the word after `--workers`, or else four.
fn workers_of(words: &ArgMatches<'_>) -> Result<u32, Bad>
    ensures limits { IfOk result AreWorkers }
    ensures meaning { IsRead result (AsksForWorkers (words_in words.now)) }
{
    let Some(word) = word_in(words, "workers") else {
        return Ok(WORKERS);
    };
    match u32::read(word.as_bytes()) {
        Some(workers) if (1..=MAX_WORKERS).contains(&workers) => Ok(workers),
        _ => Err(invalid("workers", WORKERS_ALLOWED)),
    }
}

/// Returns the number of sessions after which a server ends, 0 for no limit.
fn sessions_of(words: &ArgMatches<'_>) -> Result<u64, Bad>
    ensures { IsRead result (HasOr IsNat64 0 (word_of (words_in words.now) (codes "sessions"))) }
{
    match word_in(words, "sessions") {
        Some(word) => u64::read(word.as_bytes()).ok_or(invalid("sessions", SESSIONS)),
        None => Ok(0),
    }
}

/// Returns the mode of a queue that is created.
fn queue_mode(words: &ArgMatches<'_>) -> Result<u32, Bad>
    ensures { IsRead result (HasOr IsOctalMode 384 (word_of (words_in words.now) (codes "mode"))) }
{
    match word_in(words, "mode") {
        Some(word) => octal_mode(word),
        None => Ok(0o600),
    }
}

/// Returns the task of an `ipcs`.
fn listing<'a>(words: &ArgMatches<'a>) -> Result<Task<'a>, Bad>
    ensures limits { IfOk result HasShortText }
    ensures meaning { IsRead result (AsksToList (words_in words.now)) }
{
    match word_in(words, "id") {
        Some(id) => Ok(Task::Show(id_of(id.as_bytes()).ok_or(invalid("id", ID))?)),
        None => Ok(Task::List(format_of(words))),
    }
}

/// Returns the form in which the queues are listed.
fn format_of(words: &ArgMatches<'_>) -> Format
    ensures { HasFlag (words_in words.now) (codes "json") (is_json result) }
{
    if has_flag(words, "json") {
        Format::Json
    } else {
        Format::Table
    }
}

/// Returns the task of an `ipcmk`.
fn making<'a>(words: &ArgMatches<'a>) -> Result<Task<'a>, Bad>
    ensures limits { IfOk result HasShortText }
    ensures meaning { IsRead result (AsksToMake (words_in words.now)) }
{
    Ok(Task::Make(Making {
        key: key_or_private(words)?,
        mode: queue_mode(words)?,
        qbytes: number_if(words, "qbytes", COUNT)?,
    }))
}

/// Returns the key, or that of a private queue if there is none.
fn key_or_private(words: &ArgMatches<'_>) -> Result<i32, Bad>
    ensures { IsRead result (HasOr IsKey (pos 0) (word_of (words_in words.now) (codes "key"))) }
{
    match word_in(words, "key") {
        Some(_) => key(words),
        None => Ok(0),
    }
}

/// Returns the task of an `ipcrm`.
fn removal<'a>(words: &ArgMatches<'a>) -> Result<Task<'a>, Bad>
    ensures limits { IfOk result HasShortText }
    ensures meaning { IsRead result (AsksToRemove (words_in words.now)) }
{
    Ok(Task::Remove(target_of(words)?))
}

/// Returns the queue that an `ipcrm` removes, or all queues.
fn target_of(words: &ArgMatches<'_>) -> Result<Target, Bad>
    ensures { IsRead result (NamesTarget (word_of (words_in words.now) (codes "id"))
        (word_of (words_in words.now) (codes "key"))
        (word_of (words_in words.now) (codes "all"))) }
{
    match (word_in(words, "id"), word_in(words, "all")) {
        (Some(id), _) => Ok(Target::Id(id_of(id.as_bytes()).ok_or(invalid("id", ID))?)),
        (None, Some("true")) => Ok(Target::All),
        (None, _) => Ok(Target::Key(key(words)?)),
    }
}

/// Returns the task of a `snd`.
fn sending<'a>(words: &ArgMatches<'a>) -> Result<Task<'a>, Bad>
    ensures limits { IfOk result HasShortText }
    ensures meaning { IsRead result (AsksToSend (words_in words.now)) }
{
    let key = key(words)?;
    let text = word_in(words, "text").unwrap_or("").as_bytes();
    if text.len() > BODY_ROOM {
        return Err(invalid("text", TEXT));
    }
    let mtype = match word_in(words, "type") {
        Some(word) => type_of(word.as_bytes()).ok_or(invalid("type", TYPE))?,
        None => 1,
    };
    Ok(Task::Send {
        key,
        text,
        mtype,
        nowait: has_flag(words, "nowait"),
    })
}

/// Returns the task of a `rcv`.
fn receiving<'a>(words: &ArgMatches<'a>) -> Result<Task<'a>, Bad>
    ensures limits { IfOk result HasShortText }
    ensures meaning { IsRead result (AsksToReceive (words_in words.now)) }
{
    Ok(Task::Receive(receipt_of(words)?))
}

/// Returns what a `rcv` receives.
fn receipt_of(words: &ArgMatches<'_>) -> Result<Receipt, Bad>
    ensures { IsRead result (Receives (words_in words.now)) }
{
    Ok(Receipt {
        key: key(words)?,
        create: has_flag(words, "create"),
        mode: queue_mode(words)?,
        size: number(words, "size", 8192, COUNT)?,
        mtype: wanted_type(words)?,
        except: has_word(words, "except"),
        nowait: has_flag(words, "nowait"),
        noerror: has_flag(words, "noerror"),
        show_type: has_flag(words, "show-type"),
        form: form_of(words)?,
    })
}

/// Returns the form in which a `rcv` shows a message.
fn form_of(words: &ArgMatches<'_>) -> Result<Form, Bad>
    ensures { IsRead result (ShowsIn (word_of (words_in words.now) (codes "raw"))
        (word_of (words_in words.now) (codes "zero"))
        (word_of (words_in words.now) (codes "json"))) }
{
    match (
        is_on(words, "raw"),
        is_on(words, "zero"),
        is_on(words, "json"),
    ) {
        (false, false, false) => Ok(Form::Line),
        (true, false, false) => Ok(Form::Raw),
        (false, true, false) => Ok(Form::Zero),
        (false, false, true) => Ok(Form::Object),
        _ => Err(TWO_FORMS),
    }
}

/// Returns the type argument of a `rcv`: 0 for any type, a positive number for one type or for any
/// but one, or a negative number for the lowest type up to its absolute value.
fn wanted_type(words: &ArgMatches<'_>) -> Result<i64, Bad>
    ensures { IsRead result (WantsType (word_of (words_in words.now) (codes "type"))
        (word_of (words_in words.now) (codes "upto"))
        (word_of (words_in words.now) (codes "except"))) }
{
    match (word_in(words, "type"), word_in(words, "upto")) {
        (Some(word), _) => type_of(word.as_bytes()).ok_or(invalid("type", TYPE)),
        (None, Some(word)) => Ok(-type_of(word.as_bytes()).ok_or(invalid("upto", TYPE))?),
        (None, None) => excepted_type(words),
    }
}

/// Returns the type after `--except`, or 0 if there is none.
fn excepted_type(words: &ArgMatches<'_>) -> Result<i64, Bad>
    ensures { IsRead result (HasOr IsType (pos 0)
        (word_of (words_in words.now) (codes "except"))) }
{
    match word_in(words, "except") {
        Some(word) => type_of(word.as_bytes()).ok_or(invalid("except", TYPE)),
        None => Ok(0),
    }
}

/// Returns the user, the group and the process that a client states.
fn who_of(words: &ArgMatches<'_>) -> Result<Who, Bad>
    ensures { IsRead result (StatesWho (words_in words.now)) }
{
    Ok(Who {
        me: has_flag(words, "me"),
        uid: number_if(words, "uid", OWNER)?,
        gid: number_if(words, "gid", OWNER)?,
        pid: number_if(words, "pid", OWNER)?,
    })
}

/// Returns the key.
fn key(words: &ArgMatches<'_>) -> Result<i32, Bad>
    ensures { IsRead result (Has IsKey (word_of (words_in words.now) (codes "key"))) }
{
    match word_in(words, "key") {
        Some(word) => key_of(word.as_bytes()).ok_or(invalid("key", KEY)),
        None => Err(invalid("key", KEY)),
    }
}

/// Returns the key that an option has, if the command has it.
fn key_if(words: &ArgMatches<'_>) -> Result<Option<i32>, Bad>
    ensures { IsRead result (HasMaybe IsKey (word_of (words_in words.now) (codes "key"))) }
{
    match word_in(words, "key") {
        Some(word) => match key_of(word.as_bytes()) {
            Some(key) => Ok(Some(key)),
            None => Err(invalid("key", KEY)),
        },
        None => Ok(None),
    }
}

/// Returns the number that an option has, or its default. `valid` is what an error names as valid.
fn number(
    words: &ArgMatches<'_>,
    id: &'static str,
    default: u32,
    valid: &'static str,
) -> Result<u32, Bad>
    ensures { IsRead result (HasOr IsNat32 default (word_of (words_in words.now) id.now)) }
{
    match word_in(words, id) {
        Some(word) => u32::read(word.as_bytes()).ok_or(invalid(id, valid)),
        None => Ok(default),
    }
}

/// Returns the number that an option has, if the command has it. `valid` is what an error names as
/// valid.
fn number_if(
    words: &ArgMatches<'_>,
    id: &'static str,
    valid: &'static str,
) -> Result<Option<u32>, Bad>
    ensures { IsRead result (HasMaybe IsNat32 (word_of (words_in words.now) id.now)) }
{
    match word_in(words, id) {
        Some(word) => match u32::read(word.as_bytes()) {
            Some(number) => Ok(Some(number)),
            None => Err(invalid(id, valid)),
        },
        None => Ok(None),
    }
}

/// Returns the number of milliseconds that an option has, if the command has it.
fn time_if(words: &ArgMatches<'_>, id: &'static str) -> Result<Option<u64>, Bad>
    ensures { IsRead result (HasMaybe IsTime (word_of (words_in words.now) id.now)) }
{
    match word_in(words, id) {
        Some(word) => match milliseconds(word.as_bytes()) {
            Some(time) => Ok(Some(time)),
            None => Err(invalid(id, TIME)),
        },
        None => Ok(None),
    }
}

/// Parses a number of seconds from 0 to 4294967295, which may have a point and one to three more
/// digits. Returns the number of milliseconds, or `None` for any other word.
fn milliseconds(word: &[u8]) -> Option<u64>
    ensures { MatchOption result ((time : ℕ) → ¬ IsTime word.now time) (IsTime word.now) }
{
    one_split();
    match split_at_mark(word, b'.') {
        Some((seconds, places)) => parts(seconds, places),
        None => whole_seconds(word),
    }
}

/// Returns the number of milliseconds of a number of seconds without a point, or `None` for any
/// other word.
fn whole_seconds(word: &[u8]) -> Option<u64>
    ensures { MatchOption result ((time : ℕ) → ¬ AreSeconds word.now time) (AreSeconds word.now) }
{
    match u32::read(word) {
        Some(seconds) => Some(u64::from(seconds) * 1000),
        None => None,
    }
}

/// Returns the number of milliseconds of a number of seconds and its decimal places, or `None` for
/// any other words.
fn parts(seconds: &[u8], places: &[u8]) -> Option<u64>
    ensures { MatchOption result ((time : ℕ) → ¬ ArePartsOf seconds.now places.now time)
        (ArePartsOf seconds.now places.now) }
{
    let Some(seconds) = unsigned(seconds) else {
        return None;
    };
    match thousandths(places) {
        Some(thousandths) => Some(u64::from(seconds) * 1000 + thousandths),
        None => None,
    }
}

/// Returns the number of thousandths of one to three decimal places, or `None` for any other word.
fn thousandths(places: &[u8]) -> Option<u64>
    ensures number { MatchOption result ((number : ℕ) → ¬ IsThousandths places.now number)
        (IsThousandths places.now) }
    ensures few { IfSome result (λ number. number ≤ 429496729500) }
{
    let Some(digits) = unsigned(places) else {
        return None;
    };
    match places.len() {
        1 => Some(u64::from(digits) * 100),
        2 => Some(u64::from(digits) * 10),
        3 => Some(u64::from(digits)),
        _ => None,
    }
}

/// Parses a number from 0 to 4294967295 without a sign. Returns `None` for any other word.
fn unsigned(word: &[u8]) -> Option<u32>
    ensures { MatchOption result ((number : ℕ) → ¬ IsUnsigned word.now number)
        (IsUnsigned word.now) }
{
    if word.first() == Some(&b'-') {
        return None;
    }
    u32::read(word)
}

/// Returns the word that a command has under a name.
fn word_in<'a>(words: &ArgMatches<'a>, name: &str) -> Option<&'a str>
    ensures { MatchOption result (word_of (words_in words.now) name.now ≡ None)
        (λ word. word_of (words_in words.now) name.now ≡ Some word.now) }
{
    words.get_str(name)
}

/// Returns whether a command has a word under a name.
fn has_word(words: &ArgMatches<'_>, name: &str) -> bool
    ensures { result ≡ is_some (word_of (words_in words.now) name.now) }
{
    match word_in(words, name) {
        Some(_) => true,
        None => false,
    }
}

/// Returns whether clap found a flag as `true`.
fn is_on(words: &ArgMatches<'_>, name: &str) -> bool
    ensures on { result ≡ true → IsOn (word_of (words_in words.now) name.now) }
    ensures off { result ≡ false → ¬ IsOn (word_of (words_in words.now) name.now) }
{
    word_in(words, name) == Some("true")
}

/// Returns whether a command has a flag.
fn has_flag(words: &ArgMatches<'_>, name: &str) -> bool
    ensures { HasFlag (words_in words.now) name.now result }
{
    words.get_flag(name)
}

/// Returns the name of the parsed command, and its words.
fn command_in<'m, 'a>(matches: &'m ArgMatches<'a>) -> Option<(&'a str, &'m ArgMatches<'a>)>
    ensures { MatchOption result (subcommand_rows_of matches.now ≡ None)
        (λ found. subcommand_rows_of matches.now ≡ Some (found.0.now, words_in found.1.now)) }
{
    matches.subcommand()
}
