//! Turns at the registry of keys and identifiers.

ghost use Rattle.sysv_objects.specs.RegistryTurns.{RegistryMoves};

use sysv_keys::{Begun, Registry};
use sysv_model::Flags;

/// The requests to the registry. Each is the call of `Registry` with the same name.
#[derive(Clone, Copy, PartialEq, Eq, Debug)]
pub enum RegistryCall {
    Begin { key: i32, flags: Flags },
    Settle { id: i32 },
    Forget { id: i32 },
}

/// The replies of the registry: what a begin found or made, and whether a settle or a forget
/// changed a row.
#[derive(Clone, Copy, PartialEq, Eq, Debug)]
pub enum RegistryReply {
    Begun(Begun),
    Changed(bool),
}

impl RegistryCall {
    /// Makes the turn at this registry.
    pub fn make(self, registry: &mut Registry) -> RegistryReply
        ensures { RegistryMoves registry.old self result registry.new }
    {
        match self {
            RegistryCall::Begin { key, flags } => {
                RegistryReply::Begun(registry.begin(key, flags))
            }
            RegistryCall::Settle { id } => RegistryReply::Changed(registry.settle(id)),
            RegistryCall::Forget { id } => RegistryReply::Changed(registry.forget(id)),
        }
    }
}
