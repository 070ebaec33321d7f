//! The words of the command line.

/// What the command line requests.
#[derive(Clone, Copy)]
pub(crate) enum Asked {
    Once,
    Eventcount,
    Buffer,
    BufferAlone,
    Gate,
    GateAlone,
    Wakes { rounds: u64 },
    Keys,
    Pool,
    Wire,
    Answers,
    Session,
    Service,
    Pairs { size: u64, count: u64 },
    Rounds { count: u64 },
    Soak { seconds: u64 },
}

/// The line for a command line that requests nothing.
pub(crate) const USAGE: &str = "sysv_bench: once | eventcount | buffer [alone] \
    | gate [one | wakes [ROUNDS]] | pool | keys | wire [answers] | session \
    | service [pairs [SIZE [COUNT]] | rounds [COUNT] | soak [SECONDS]]";

/// Parses the words after the program's name. Returns `None` if a word is not known, is missing or
/// is left over.
pub(crate) fn read_words(words: &[&str]) -> Option<Asked> {
    let [word, rest @ ..] = words else {
        return None;
    };
    match *word {
        "buffer" => read_buffer(rest),
        "gate" => read_gate(rest),
        "wire" => read_wire(rest),
        "service" => read_service(rest),
        word if rest.is_empty() => read_alone(word),
        _ => None,
    }
}

fn read_alone(word: &str) -> Option<Asked> {
    match word {
        "once" => Some(Asked::Once),
        "eventcount" => Some(Asked::Eventcount),
        "pool" => Some(Asked::Pool),
        "keys" => Some(Asked::Keys),
        "session" => Some(Asked::Session),
        _ => None,
    }
}

fn read_buffer(words: &[&str]) -> Option<Asked> {
    match words {
        [] => Some(Asked::Buffer),
        ["alone"] => Some(Asked::BufferAlone),
        _ => None,
    }
}

fn read_gate(words: &[&str]) -> Option<Asked> {
    match words {
        [] => Some(Asked::Gate),
        ["one"] => Some(Asked::GateAlone),
        ["wakes", rounds @ ..] => Some(Asked::Wakes {
            rounds: number(rounds, 10_000)?,
        }),
        _ => None,
    }
}

fn read_wire(words: &[&str]) -> Option<Asked> {
    match words {
        [] => Some(Asked::Wire),
        ["answers"] => Some(Asked::Answers),
        _ => None,
    }
}

fn read_service(words: &[&str]) -> Option<Asked> {
    let [word, rest @ ..] = words else {
        return Some(Asked::Service);
    };
    match *word {
        "pairs" => read_pairs(rest),
        "rounds" => Some(Asked::Rounds {
            count: number(rest, 50_000)?,
        }),
        "soak" => Some(Asked::Soak {
            seconds: number(rest, 60)?,
        }),
        _ => None,
    }
}

fn read_pairs(words: &[&str]) -> Option<Asked> {
    let (size, count) = words.split_at(words.len().min(1));
    Some(Asked::Pairs {
        size: number(size, 64)?,
        count: number(count, 100_000)?,
    })
}

/// Returns the number that is the only word, or `absent` if there is no word.
fn number(words: &[&str], absent: u64) -> Option<u64> {
    match words {
        [] => Some(absent),
        [word] => word.parse().ok(),
        _ => None,
    }
}
