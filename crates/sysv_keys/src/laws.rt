//! Laws over the definitions alone.

ghost use Rattle.std.specs.Prelude.{◌≡◌, ℕ, ◌*◌, ◌+◌, ◌^◌, [], ◌∷◌, ◌++◌};
ghost use Rattle.sysv_model.specs.Registry.{RegistryEntry, RegistryHistory};
ghost use Rattle.sysv_keys.specs.declared.identifier.TheConstants.{SLOTS, GENERATION_LAST};
ghost use Rattle.sysv_keys.specs.LegalReply.{IsLegalReply, IsLegalHistory};
ghost use Rattle.sysv_keys.specs.OneReply.{SomeReplyIsLegal, NoTwoRepliesAreLegal};
ghost use Rattle.sysv_keys.specs.RegistryLaw.{RegistryLaw};
ghost use Rattle.sysv_keys.specs.Unused.{UnusedSlots};

/// States the value of each limit. The identifiers of all slots in all generations are the numbers
/// from 0 to 2^31 - 1, which are the `i32` values that are not negative.
pub fn numerals_of_identifiers()
    ensures slots { SLOTS ≡ 256 }
    ensures last { GENERATION_LAST ≡ 8388607 }
    ensures all { SLOTS * (GENERATION_LAST + 1) ≡ 2 ^ 31 }
{}

/// States that after each legal history each call has exactly one legal reply.
pub fn one_legal_reply()
    ensures some { SomeReplyIsLegal }
    ensures one { NoTwoRepliesAreLegal }
{}

/// States that the empty history is legal, and that a legal history is still legal with one more
/// legal reply.
pub fn legal_history()
    ensures empty { (opening : ℕ) → IsLegalHistory opening [] }
    ensures more { (opening : ℕ) (h : RegistryHistory) (e : RegistryEntry) →
        IsLegalHistory opening h → IsLegalReply opening h e.call e.reply →
        IsLegalHistory opening (h ++ e ∷ []) }
{}

/// States that each legal history obeys the registry law.
pub fn registry_law()
    ensures { (opening : ℕ) (h : RegistryHistory) → IsLegalHistory opening h →
        RegistryLaw opening h }
{}

/// States what holds of slots that are unused and of new identifiers: no identifier of an unused
/// slot was ever made, the next private key gets identifier 0 if slot 0 is unused, and an
/// identifier that was just made can be settled.
pub fn unused_slots()
    ensures { UnusedSlots }
{}
