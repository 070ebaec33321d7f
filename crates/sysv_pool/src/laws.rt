//! Laws over the definitions alone.

ghost use Rattle.std.specs.Prelude.{ℕ, [], ◌∷◌, ◌++◌};
ghost use Rattle.sysv_model.specs.Pool.{PoolEntry, PoolHistory};
ghost use Rattle.sysv_pool.specs.LegalReply.{IsLegalReply, IsLegalHistory};
ghost use Rattle.sysv_pool.specs.Alike.{LongerFindsTooFew};
ghost use Rattle.sysv_pool.specs.OneReply.{SomeReplyIsLegal, NoTwoRepliesAreLegal};
ghost use Rattle.sysv_pool.specs.PoolLaw.{PoolLaw};

/// States that after each history each call has exactly one legal reply.
pub fn one_legal_reply()
    ensures some { SomeReplyIsLegal }
    ensures one { NoTwoRepliesAreLegal }
{}

/// States that the empty history is legal, and that a legal history is still legal with one more
/// legal reply.
pub fn legal_history()
    ensures empty { (size : ℕ) → IsLegalHistory size [] }
    ensures more { (size : ℕ) (h : PoolHistory) (e : PoolEntry) → IsLegalHistory size h →
        IsLegalReply size h e.call e.reply → IsLegalHistory size (h ++ e ∷ []) }
{}

/// States what the reply to one reservation shows of another one at the same moment: if there are too
/// few blocks for a body, there are too few for a longer one.
pub fn shown_of_others()
    ensures { LongerFindsTooFew }
{}

/// States that each legal history obeys the pool law.
pub fn pool_law()
    ensures { (size : ℕ) (h : PoolHistory) → IsLegalHistory size h → PoolLaw size h }
{}
