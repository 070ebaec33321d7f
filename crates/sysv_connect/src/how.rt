//! How a task is run.
ghost use Rattle.std.specs.Prelude.{◌≡◌};
ghost use Rattle.sysv_connect.specs.Telling.{has_line, has_sentence};

/// How a task is run.
#[derive(Clone, Copy, PartialEq, Eq, Debug)]
pub struct How {
    /// Whether the body of a `snd` is the standard input, in place of that of the task.
    pub from_input: bool,
    /// Whether a `snd` sends each line of the standard input, in place of the body of the task.
    pub lines: bool,
    /// Whether a `snd` sends the message that each line of the standard input states, a JSON
    /// object, in place of that of the task.
    pub objects: bool,
    /// Whether a `snd` of lines reports how many of them were sent while it sends them.
    pub progress: bool,
    /// Whether a `rcv` receives messages until something ends it, as a signal or a full disk.
    pub follow: bool,
    /// Whether a `rcv` takes messages until there is none, and shows only their number.
    pub purge: bool,
    /// Whether a `rcv` holds each message until it was shown.
    pub holds: bool,
    /// The number of messages that a `rcv` receives.
    pub count: Option<u32>,
    /// The number of receives that a `rcv` has on their way.
    pub ahead: Option<u32>,
    /// The number of milliseconds that each send or receive waits at most.
    pub wait: Option<u64>,
    /// How faults are told.
    pub telling: Telling,
}

/// How the faults of a client are told.
#[derive(Clone, Copy, PartialEq, Eq, Debug)]
pub enum Telling {
    /// By a line on standard output.
    Line,
    /// By that line, and by a sentence on standard error.
    Both,
    /// By a sentence on standard error.
    Sentence,
}

impl Telling {
    /// Returns whether a fault is told by a line on standard output.
    pub fn has_line(self) -> bool
        ensures { result ≡ has_line self }
    {
        match self {
            Telling::Line | Telling::Both => true,
            Telling::Sentence => false,
        }
    }

    /// Returns whether a fault is told by a sentence on standard error.
    pub fn has_sentence(self) -> bool
        ensures { result ≡ has_sentence self }
    {
        match self {
            Telling::Line => false,
            Telling::Both | Telling::Sentence => true,
        }
    }
}
