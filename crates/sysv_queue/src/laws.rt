//! Laws over the definitions alone.

ghost use Rattle.std.specs.Prelude.{[], ◌∷◌, ◌++◌};
ghost use Rattle.sysv_model.specs.History.{Entry, History};
ghost use Rattle.sysv_queue.specs.LegalReply.{IsLegalReply, IsLegalHistory};
ghost use Rattle.sysv_queue.specs.OneReply.{SomeReplyIsLegal, NoTwoRepliesAreLegal};
ghost use Rattle.sysv_queue.specs.BlocksKept.{TurnKeepsBlocks, SlotKeepsBlocks};
ghost use Rattle.sysv_queue.specs.QueueLaw.{QueueLaw};
ghost use Rattle.sysv_queue.specs.ForGood.{ToldNotLive, FoundLive, FoundNotLive, LivesTillRemoved, RemovedForGood};
ghost use Rattle.sysv_queue.specs.Alike.{LongerIsFull, NoneIsLeft, ReadersAreAlike, WritersAreAlike};
ghost use Rattle.sysv_queue.specs.StaysRight.{NoMatchStays, FullStays, FullStaysForLook, CountsNeverFall};
ghost use Rattle.sysv_queue.specs.WorkedRemoval.{WorkedRemoval, OtherReplies, NoWrongReply};

use sysv_rules::{granted_or_not, named_or_none, one_named};

/// States that after each history each call has exactly one legal reply.
pub fn one_legal_reply()
    ensures some { SomeReplyIsLegal }
    ensures one { NoTwoRepliesAreLegal }
{
    granted_or_not();
    named_or_none();
    one_named();
}

/// States that the empty history is legal, and that a legal history is still legal with one more
/// legal reply.
pub fn legal_history()
    ensures empty { IsLegalHistory [] }
    ensures more { (h : History) (e : Entry) → IsLegalHistory h → IsLegalReply h e.call e.reply →
        IsLegalHistory (h ++ e ∷ []) }
{}

/// States that each legal history obeys the queue law.
pub fn queue_law()
    ensures { (h : History) → IsLegalHistory h → QueueLaw h }
{}

/// States how long a refusal stays right: if no message is named, until the arrived count has
/// risen; if the queue is full, until the freed count has risen. Neither count ever falls.
pub fn stays_right()
    ensures no_match { NoMatchStays }
    ensures full { FullStays }
    ensures full_for_look { FullStaysForLook }
    ensures counts { CountsNeverFall }
{
    named_or_none();
}

/// States what the reply to one call shows of another one at the same moment: a longer message finds
/// no more room, a receive that finds no match requests none of the messages that are there, and
/// callers of one user and group are kept from the queue alike.
pub fn shown_of_others()
    ensures longer { LongerIsFull }
    ensures none { NoneIsLeft }
    ensures readers { ReadersAreAlike }
    ensures writers { WritersAreAlike }
{
    named_or_none();
}

/// States that a call that names an identifier is told that it is not live if and only if it is not
/// live. Only a set of a limit above 65,536 fails with the same errno for another reason.
///
/// An identifier is live from its install to its removal. If it is installed once, its removal is
/// for good.
pub fn removed_for_good()
    ensures told { ToldNotLive }
    ensures found { FoundLive }
    ensures found_not { FoundNotLive }
    ensures lives { LivesTillRemoved }
    ensures for_good { RemovedForGood }
{
    one_legal_reply();
}

/// States that the worked history with a removal is legal and leaves what it lists, that the other
/// replies it lists are legal at its turns, and that the wrong replies it lists are not.
pub fn worked_removal()
    ensures history { WorkedRemoval }
    ensures others { OtherReplies }
    ensures wrong { NoWrongReply }
{}

/// States that no turn makes or loses blocks: the blocks of the messages queued before a turn and
/// of the message put on the queue are those of the messages taken off the queue and of the
/// messages queued after it.
pub fn blocks_kept()
    ensures turn { TurnKeepsBlocks }
    ensures slot { SlotKeepsBlocks }
{}
