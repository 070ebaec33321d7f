//! How a script prints the outcome of a call.
ghost use Rattle.std.specs.Prelude.{Some};
ghost use Rattle.sysv_script.specs.Heads.{outcome_text, stat_text, perm_text, mode_text, counts_text, times_text};

use std::fmt;
use sysv_model::{Perm, Stat};
use sysv_steps::Outcome;

/// The outcome of a call, as it is printed.
#[derive(Clone, Copy)]
pub(crate) struct Printed(pub(crate) Outcome);

impl fmt::Display for Printed {
    ghost output = { λ printed. Some (outcome_text printed.0) };

    fn fmt<W: fmt::Write>(&self, f: &mut fmt::Formatter<W>) -> fmt::Result {
        match self.0 {
            Outcome::Id(id) => write!(f, "= {id}"),
            Outcome::Zero => f.write_str("= 0"),
            Outcome::Got { mtype, len } => write!(f, "= {len} type {mtype} ="),
            Outcome::Stat(stat) => write!(f, "= {}", Shown(stat)),
            Outcome::Refused(why) => write!(f, "! {why}"),
        }
    }
}

/// The attributes of a queue, as they are printed.
#[derive(Clone, Copy)]
struct Shown(Stat);

impl fmt::Display for Shown {
    ghost output = { λ shown. Some (stat_text shown.0) };

    fn fmt<W: fmt::Write>(&self, f: &mut fmt::Formatter<W>) -> fmt::Result {
        let key = self.0.key;
        let owner = Owner(self.0.perm);
        let counts = Counts(self.0);
        let times = Times(self.0);
        write!(f, "key {key} {owner} {counts} {times}")
    }
}

/// The owner, creator and mode of a queue, as they are printed.
#[derive(Clone, Copy)]
struct Owner(Perm);

impl fmt::Display for Owner {
    ghost output = { λ owner. Some (perm_text owner.0) };

    #[tactic(auto, unfolding(crate::specs::Heads::perm_text))]
    fn fmt<W: fmt::Write>(&self, f: &mut fmt::Formatter<W>) -> fmt::Result {
        let Perm {
            uid,
            gid,
            cuid,
            cgid,
            mode,
        } = self.0;
        let mode = Mode(mode);
        write!(f, "uid {uid} gid {gid} cuid {cuid} cgid {cgid} mode {mode}")
    }
}

/// The permission bits of a queue, printed as three octal digits.
#[derive(Clone, Copy)]
struct Mode(u16);

impl fmt::Display for Mode {
    ghost output = { λ mode. Some (mode_text mode.0) };

    fn fmt<W: fmt::Write>(&self, f: &mut fmt::Formatter<W>) -> fmt::Result {
        let Mode(mode) = *self;
        let (user, group, other) = (mode / 64 % 8, mode / 8 % 8, mode % 8);
        write!(f, "{user}{group}{other}")
    }
}

/// The queued bytes and messages, the limit and the process numbers of a queue, as they are
/// printed.
#[derive(Clone, Copy)]
struct Counts(Stat);

impl fmt::Display for Counts {
    ghost output = { λ counts. Some (counts_text counts.0) };

    #[tactic(auto, unfolding(crate::specs::Heads::counts_text))]
    fn fmt<W: fmt::Write>(&self, f: &mut fmt::Formatter<W>) -> fmt::Result {
        let Stat {
            cbytes,
            qnum,
            qbytes,
            lspid,
            lrpid,
            ..
        } = self.0;
        write!(
            f,
            "bytes {cbytes} num {qnum} qbytes {qbytes} lspid {lspid} lrpid {lrpid}"
        )
    }
}

/// The times of a queue, as they are printed.
#[derive(Clone, Copy)]
struct Times(Stat);

impl fmt::Display for Times {
    ghost output = { λ times. Some (times_text times.0) };

    #[tactic(auto, unfolding(crate::specs::Heads::times_text))]
    fn fmt<W: fmt::Write>(&self, f: &mut fmt::Formatter<W>) -> fmt::Result {
        let Stat {
            stime,
            rtime,
            ctime,
            ..
        } = self.0;
        write!(f, "stime {stime} rtime {rtime} ctime {ctime}")
    }
}
