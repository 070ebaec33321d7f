//! Laws over the definitions alone.

ghost use Rattle.std.specs.Prelude.{ℕ, List, [], ◌∷◌, ◌++◌};
ghost use Rattle.sysv_model.specs.History.{Who};
ghost use Rattle.sysv_model.specs.Turn.{Op, Turn};
ghost use Rattle.sysv_objects.specs.LegalOp.{IsLegalOp, AreLegal};
ghost use Rattle.sysv_objects.specs.OneOp.{SomeOpIsLegal, NoTwoOpsAreLegal};

use sysv_keys::{legal_history as legal_registry_history, one_legal_reply as one_registry_reply};
use sysv_pool::{legal_history as legal_pool_history, one_legal_reply as one_pool_reply};
use sysv_queue::{legal_history, one_legal_reply};

/// States that the empty list of turns is legal, and that a legal list is still legal with one more
/// legal turn.
pub fn legal_turns()
    ensures none { (generation blocks : ℕ) → AreLegal generation blocks [] }
    ensures more { (generation blocks : ℕ) (turns : List Turn) (who : Who) (op : Op) →
        AreLegal generation blocks turns → IsLegalOp generation blocks turns op →
        AreLegal generation blocks (turns ++ record { who = who; op = op } ∷ []) }
{
    legal_history();
    legal_registry_history();
    legal_pool_history();
}

/// States that after a legal list of turns each request to an object has exactly one legal reply.
pub fn one_legal_op()
    ensures some { SomeOpIsLegal }
    ensures one { NoTwoOpsAreLegal }
{
    one_legal_reply();
    one_registry_reply();
    one_pool_reply();
}
