//! Laws over the definitions alone.

ghost use Rattle.std.specs.Prelude.{◌≡◌, ◌⊎◌, ℕ, ℤ, List};
ghost use Rattle.sysv_model.specs.declared.selector.Selector.{Selector};
ghost use Rattle.sysv_model.specs.declared.cred.Cred.{Cred};
ghost use Rattle.sysv_model.specs.declared.attributes.Perm.{Perm};
ghost use Rattle.sysv_rules.specs.declared.permission.Want.{Want};
ghost use Rattle.sysv_rules.specs.Permission.{IsPermitted, MayControl};
ghost use Rattle.sysv_rules.specs.Named.{IsNamed};
ghost use Rattle.sysv_rules.specs.Qualifies.{NoneQualifies};

/// States that a selector names at most one place of a list.
pub fn one_named()
    ensures { (sel : Selector) (types : List ℤ) (i j : ℕ) → IsNamed sel types i →
        IsNamed sel types j → i ≡ j }
{}

/// States that a selector names a place of a list, or no type of the list qualifies.
pub fn named_or_none()
    ensures { (sel : Selector) (types : List ℤ) → ((place : ℕ) × IsNamed sel types place)
        ⊎ NoneQualifies sel types }
{}

/// States that a caller's permission is granted or not granted, and so is control of the queue.
pub fn granted_or_not()
    ensures may { (cred : Cred) (perm : Perm) (want : Want) → IsPermitted cred perm want
        ⊎ ¬ IsPermitted cred perm want }
    ensures control { (cred : Cred) (perm : Perm) → MayControl cred perm ⊎ ¬ MayControl cred perm }
{}
