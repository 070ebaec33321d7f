//! The rule of the words, and the kinds of step that it allows.
use crate::view::View;
use atomic_table::{Play, TableRule};

/// The rule of the words. The key is the number of doorbells.
pub(crate) struct Belling;

impl TableRule<(), View, u64> for Belling {
    ghost use Rattle.sysv_doorbells.specs.Rule.{Kept, away};

    ghost holds = { Kept };

    ghost first = { λ many. away };
}

/// The load by which a thread comes.
pub(crate) struct Begin;

impl Play<(), View> for Begin {
    ghost use Rattle.sysv_doorbells.specs.Steps.{Begins};

    ghost then = { Begins };
}

/// A thread is counted among all sleepers.
pub(crate) struct CountIn;

impl Play<(), View> for CountIn {
    ghost use Rattle.sysv_doorbells.specs.Steps.{Comes};

    ghost then = { Comes };
}

/// It is counted at its doorbell.
pub(crate) struct Enter;

impl Play<(), View> for Enter {
    ghost use Rattle.sysv_doorbells.specs.Steps.{Enters};

    ghost then = { Enters };
}

/// It reads the number of strokes.
pub(crate) struct ReadStrokes;

impl Play<(), View> for ReadStrokes {
    ghost use Rattle.sysv_doorbells.specs.Steps.{Reads};

    ghost then = { Reads };
}

/// It reads the number of strokes at the entrance.
pub(crate) struct Note;

impl Play<(), View> for Note {
    ghost use Rattle.sysv_doorbells.specs.Steps.{Notes};

    ghost then = { Notes };
}

/// It takes back that one is called, since it looks once more.
pub(crate) struct Open;

impl Play<(), View> for Open {
    ghost use Rattle.sysv_doorbells.specs.Steps.{Opens};

    ghost then = { Opens };
}

/// It takes back that one is called, since it is awake.
pub(crate) struct Clear;

impl Play<(), View> for Clear {
    ghost use Rattle.sysv_doorbells.specs.Steps.{Clears};

    ghost then = { Clears };
}

/// It is no more counted at its doorbell.
pub(crate) struct Leave;

impl Play<(), View> for Leave {
    ghost use Rattle.sysv_doorbells.specs.Steps.{Leaves};

    ghost then = { Leaves };
}

/// It is no more counted among all sleepers.
pub(crate) struct CountOut;

impl Play<(), View> for CountOut {
    ghost use Rattle.sysv_doorbells.specs.Steps.{Goes};

    ghost then = { Goes };
}

/// The load by which a thread comes and looks whether there are sleepers.
pub(crate) struct PassAll;

impl Play<(), View> for PassAll {
    ghost use Rattle.sysv_doorbells.specs.Steps.{PassesAll};

    ghost then = { PassesAll };
}

/// The load by which a thread comes and looks whether anyone is at a doorbell.
pub(crate) struct Look;

impl Play<(), View> for Look {
    ghost use Rattle.sysv_doorbells.specs.Steps.{Looks};

    ghost then = { Looks };
}

/// The load by which a thread comes and looks whether anyone is at the entrance.
pub(crate) struct LookNear;

impl Play<(), View> for LookNear {
    ghost use Rattle.sysv_doorbells.specs.Steps.{Nears};

    ghost then = { Nears };
}

/// A look whether one is called.
pub(crate) struct Spare;

impl Play<(), View> for Spare {
    ghost use Rattle.sysv_doorbells.specs.Steps.{Spares};

    ghost then = { Spares };
}

/// It says that one is called.
pub(crate) struct Call;

impl Play<(), View> for Call {
    ghost use Rattle.sysv_doorbells.specs.Steps.{Calls};

    ghost then = { Calls };
}

/// It makes a stroke.
pub(crate) struct Stroke;

impl Play<(), View> for Stroke {
    ghost use Rattle.sysv_doorbells.specs.Steps.{Rings};

    ghost then = { Rings };
}
