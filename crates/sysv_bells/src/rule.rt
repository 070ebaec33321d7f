//! The rule of the words, and the kinds of step that it allows.
use crate::view::View;
use atomic_table::{Play, Split, TableRule};

/// The rule of the words. The key is the number of words that are told.
pub(crate) struct Ringing;

impl TableRule<(), View, u64> for Ringing {
    ghost use Rattle.sysv_bells.specs.Rule.{Kept, start};

    ghost holds = { Kept };

    ghost first = { start };
}

/// A teller's load of a told word.
pub(crate) struct Look;

impl Play<(), View> for Look {
    ghost use Rattle.sysv_bells.specs.Steps.{Looks};

    ghost then = { Looks };
}

/// The load of a told word by which a teller comes.
pub(crate) struct Meet;

impl Play<(), View> for Meet {
    ghost use Rattle.sysv_bells.specs.Steps.{Meets};

    ghost then = { Meets };
}

/// The ring by which a teller comes.
pub(crate) struct Come;

impl Play<(), View> for Come {
    ghost use Rattle.sysv_bells.specs.Steps.{Comes};

    ghost then = { Comes };
}

/// A teller sets bits of a told word.
pub(crate) struct Tell;

impl Play<(), View> for Tell {
    ghost use Rattle.sysv_bells.specs.Steps.{Tells};

    ghost then = { Tells };
}

/// A teller says that it has rung.
pub(crate) struct Ring;

impl Play<(), View> for Ring {
    ghost use Rattle.sysv_bells.specs.Steps.{Rings};

    ghost then = { Rings };
}

/// A teller takes the sleeper's word that it sleeps.
pub(crate) struct Find;

impl Play<(), View> for Find {
    ghost use Rattle.sysv_bells.specs.Steps.{Finds};

    ghost then = { Finds };
}

/// The sleeper says that it sleeps.
pub(crate) struct Announce;

impl Play<(), View> for Announce {
    ghost use Rattle.sysv_bells.specs.Steps.{Announces};

    ghost then = { Announces };
}

/// The sleeper looks whether anyone has rung.
pub(crate) struct Check;

impl Play<(), View> for Check {
    ghost use Rattle.sysv_bells.specs.Steps.{Checks};

    ghost then = { Checks };
}

/// The sleeper says that it is awake.
pub(crate) struct Wake;

impl Play<(), View> for Wake {
    ghost use Rattle.sysv_bells.specs.Steps.{Wakes};

    ghost then = { Wakes };
}

/// The sleeper takes the rings.
pub(crate) struct Hear;

impl Play<(), View> for Hear {
    ghost use Rattle.sysv_bells.specs.Steps.{Hears};

    ghost then = { Hears };
}

/// The sleeper rings for itself.
pub(crate) struct Stay;

impl Play<(), View> for Stay {
    ghost use Rattle.sysv_bells.specs.Steps.{Stays};

    ghost then = { Stays };
}

/// The sleeper looks at the next told word, and has read it if it is 0.
pub(crate) struct Pass;

impl Play<(), View> for Pass {
    ghost use Rattle.sysv_bells.specs.Steps.{Passes};

    ghost then = { Passes };
}

/// The sleeper takes the next told word.
pub(crate) struct Take;

impl Play<(), View> for Take {
    ghost use Rattle.sysv_bells.specs.Steps.{Takes};

    ghost then = { Takes };
}

/// A split: the new seat is a teller.
pub(crate) struct Newcomer;

impl Split<View> for Newcomer {
    ghost use Rattle.sysv_bells.specs.Steps.{same_view, newcomer};

    ghost left = { same_view };

    ghost right = { newcomer };
}
