//! What a user is told of the faults of a client.
ghost use Rattle.std.specs.Prelude.{◌≡◌};
ghost use Rattle.sysv_connect.specs.Ends.{Fails};
ghost use Rattle.sysv_connect.specs.Telling.{Tells, no_input_line, no_server_line};
ghost use Rattle.sysv_model.specs.Writing.{AppendsPrefix};

use crate::ending::FAULT;
use crate::how::Telling;
use crate::plain::{Reason, complain};
use crate::screen::put;
use crate::sentence::{Detail, Head, Sentence, Subject, name_in};
use std::io;
use std::io::{Eprint, ErrorKind, Write};
use std::process::ExitCode;
use sysv_clients::{ClientFault, Command, Refusal, Target, Task, Unshown};

/// The line of a fault if no connection can be made.
const NO_SERVER: &str = "sysvmsg: no server\n";

/// The line of a fault if the standard input cannot be read.
const NO_INPUT: &str = "sysvmsg: cannot read\n";

/// How the faults of a client are told.
#[derive(Clone, Copy)]
pub(crate) struct Teller<'a> {
    /// The path of the server's socket.
    pub(crate) path: &'a str,
    /// What the client does.
    pub(crate) subject: Subject<'a>,
    /// How a fault is told.
    pub(crate) telling: Telling,
}

/// The messages that a receive could not show.
#[derive(Clone, Copy, PartialEq, Eq, Debug)]
pub(crate) struct Left {
    /// How many messages were received and shown.
    pub(crate) unshown: Unshown,
    /// The maximum number of messages that were taken after those.
    pub(crate) ahead: u64,
}

impl Teller<'_> {
    /// Tells a fault: by its line on this screen, by a sentence on standard error, or by both.
    pub(crate) fn fault<S: Write>(
        &self,
        rt: &(impl Eprint + AllocGlobal),
        screen: &mut S,
        line: &str,
        detail: Detail,
    )
        ensures { Tells self.now.telling line.now (S.contents screen.old)
            (S.contents screen.new) }
    {
        self.line(screen, line);
        if self.telling.has_sentence() {
            self.sentence(rt, line, detail);
        }
    }

    /// Tells a fault like `fault`, with the sentence first. Returns whether the screen took the
    /// line, if there is one.
    pub(crate) fn fault_on<S: Write>(
        &self,
        rt: &(impl Eprint + AllocGlobal),
        screen: &mut S,
        line: &str,
        detail: Detail,
    ) -> bool
        ensures { AppendsPrefix (S.contents screen.old) (S.contents screen.new) line.now }
    {
        if self.telling.has_sentence() {
            self.sentence(rt, line, detail);
        }
        if !self.telling.has_line() {
            return true;
        }
        put(screen, line.as_bytes())
    }

    /// Tells a fault by a sentence, whatever else is asked for. The screen of a client that shows
    /// messages as a stream, or saves queues, has nothing else.
    pub(crate) fn fault_said(&self, rt: &impl Eprint, line: &str, detail: Detail) {
        self.sentence(rt, line, detail);
    }

    /// Tells that no connection can be made.
    pub(crate) fn no_server<S: Write>(
        &self,
        rt: &(impl Eprint + AllocGlobal),
        screen: &mut S,
        why: &io::Error,
    ) -> ExitCode
        ensures fails { Fails result }
        ensures told { Tells self.now.telling no_server_line (S.contents screen.old)
            (S.contents screen.new) }
    {
        if self.telling.has_sentence() {
            self.no_server_said(rt, why);
        } else {
            complain(rt, self.path, why, "");
        }
        self.end(screen, NO_SERVER)
    }

    /// Tells by a sentence that no connection can be made.
    pub(crate) fn no_server_said(
        &self,
        rt: &(impl Eprint + AllocGlobal),
        why: &io::Error,
    ) -> ExitCode
        ensures { Fails result }
    {
        let what = match why.kind() {
            ErrorKind::PermissionDenied => "no permission to connect to",
            _ => "no server at",
        };
        let reason = Reason::of(rt.alloc(), why);
        let _ = eprintln!(rt; "sysvmsg: {}: {what} {}{reason}", self.head(), self.path);
        ExitCode::from(FAULT)
    }

    /// Tells that the standard input cannot be read.
    pub(crate) fn no_input<S: Write>(
        &self,
        rt: &(impl Eprint + AllocGlobal),
        screen: &mut S,
        why: &io::Error,
    ) -> ExitCode
        ensures fails { Fails result }
        ensures told { Tells self.now.telling no_input_line (S.contents screen.old)
            (S.contents screen.new) }
    {
        if self.telling.has_sentence() {
            self.no_input_said(rt, why);
        } else {
            complain(rt, "standard input", why, "");
        }
        self.end(screen, NO_INPUT)
    }

    /// Tells by a sentence that the standard input cannot be read.
    pub(crate) fn no_input_said(
        &self,
        rt: &(impl Eprint + AllocGlobal),
        why: &io::Error,
    ) -> ExitCode
        ensures { Fails result }
    {
        let reason = Reason::of(rt.alloc(), why);
        let _ = eprintln!(rt;
            "sysvmsg: {}: cannot read standard input{reason}",
            self.head()
        );
        ExitCode::from(FAULT)
    }

    /// Tells that standard output failed, and what became of the messages that were received for
    /// it.
    pub(crate) fn no_output(
        &self,
        rt: &(impl Eprint + AllocGlobal),
        why: Option<io::Error>,
        left: Option<Left>,
    ) -> ExitCode
        ensures { Fails result }
    {
        let head = self.head();
        let _ = match &why {
            Some(why) => {
                let reason = Reason::of(rt.alloc(), why);
                eprintln!(rt; "sysvmsg: {head}: cannot write standard output{reason}")
            }
            None => eprintln!(rt; "sysvmsg: {head}: cannot write standard output"),
        };
        if let Some(left) = left {
            count(rt, left);
        }
        ExitCode::from(FAULT)
    }

    /// Tells that a queue was not removed.
    pub(crate) fn refusal(&self, rt: &impl Eprint, refusal: &Refusal) {
        let Refusal { id, error } = *refusal;
        let _ = if self.telling.has_sentence() {
            let command = self.subject.command().map(|command| Command {
                task: Task::Remove(Target::Id(id)),
                ..*command
            });
            let subject = match &command {
                Some(command) => Subject::Command(command),
                None => self.subject,
            };
            let sentence = Sentence {
                head: Head(subject),
                name: name_in(ClientFault::Refused(error).line()),
                detail: Detail::Plain,
            };
            eprintln!(rt; "sysvmsg: {sentence}")
        } else {
            eprintln!(rt; "sysvmsg: queue {id}: {error}")
        };
    }

    /// Ends a client with a fault, after its line if that is told.
    fn end<S: Write>(&self, screen: &mut S, line: &str) -> ExitCode
        ensures fails { Fails result }
        ensures told { Tells self.now.telling line.now (S.contents screen.old)
            (S.contents screen.new) }
    {
        self.line(screen, line);
        ExitCode::from(FAULT)
    }

    /// Shows the line of a fault, if faults are told by lines.
    fn line<S: Write>(&self, screen: &mut S, line: &str)
        ensures { Tells self.now.telling line.now (S.contents screen.old)
            (S.contents screen.new) }
    {
        match self.telling {
            Telling::Line | Telling::Both => {
                put(screen, line.as_bytes());
            }
            Telling::Sentence => {}
        }
    }

    /// Tells a fault by a sentence on standard error.
    fn sentence(&self, rt: &impl Eprint, line: &str, detail: Detail) {
        let sentence = Sentence {
            head: self.head(),
            name: name_in(line),
            detail,
        };
        let _ = eprintln!(rt; "sysvmsg: {sentence}");
    }

    /// Returns what a sentence begins with.
    fn head(&self) -> Head<'_> {
        Head(self.subject)
    }
}

/// Reports how many messages a client took and showed.
fn count(rt: &impl Eprint, left: Left) {
    let Left { unshown, ahead } = left;
    let Unshown { taken, shown } = unshown;
    let _ = eprintln!(rt;
        "sysvmsg: messages that were taken: {taken}, and shown: {shown}; the others are lost"
    );
    if ahead > 0 {
        let _ = eprintln!(rt; "sysvmsg: later messages that may have been taken: at most {ahead}");
    }
}
