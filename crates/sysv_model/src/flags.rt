//! The flags of all calls.

ghost use Rattle.std.specs.Prelude.{◌≡◌, ◌==◌, ⊤, ◌∷◌, [], codes};
ghost use Rattle.std.specs.Int.RustNames.{bit_and, bit_or};

use bitflags::{Flag, bitflag_items};

/// The flags of `msgget`, `msgsnd` and `msgrcv` (POSIX.1-2017, `sys/ipc.h` and `sys/msg.h`; the
/// numbers are this profile's).
///
/// All 32 bits are kept. The constants below name the bits that are defined; the low nine bits are
/// a mode.
#[derive(Clone, Copy, PartialEq, Eq, Debug)]
pub struct Flags(u32);

bitflag_items! {
    impl Flags: u32 {
        /// Others may execute. No call requests this permission.
        const OTHER_EXECUTE = 0o001;
        /// Others may write.
        const OTHER_WRITE = 0o002;
        /// Others may read.
        const OTHER_READ = 0o004;
        /// The group may execute. No call requests this permission.
        const GROUP_EXECUTE = 0o010;
        /// The group may write.
        const GROUP_WRITE = 0o020;
        /// The group may read.
        const GROUP_READ = 0o040;
        /// The user may execute. No call requests this permission.
        const USER_EXECUTE = 0o100;
        /// The user may write.
        const USER_WRITE = 0o200;
        /// The user may read.
        const USER_READ = 0o400;
        /// Creates a queue if no queue has the key.
        const IPC_CREAT = 512;
        /// With `IPC_CREAT`, fails if a queue has the key.
        const IPC_EXCL = 1024;
        /// Fails instead of waiting.
        const IPC_NOWAIT = 2048;
        /// Cuts a message body that is longer than the size.
        const MSG_NOERROR = 4096;
        /// Receives a message of any type but the one given, which must be above 0 (specific to
        /// this profile, as in Linux).
        const MSG_EXCEPT = 8192;
    }
}

impl bitflags::Flags for Flags {
    type Bits = u32;

    ghost exact = { ⊤ };

    ghost table = { (codes "OTHER_EXECUTE", 1) ∷ (codes "OTHER_WRITE", 2) ∷ (codes "OTHER_READ", 4)
        ∷ (codes "GROUP_EXECUTE", 8) ∷ (codes "GROUP_WRITE", 16) ∷ (codes "GROUP_READ", 32)
        ∷ (codes "USER_EXECUTE", 64) ∷ (codes "USER_WRITE", 128) ∷ (codes "USER_READ", 256)
        ∷ (codes "IPC_CREAT", 512) ∷ (codes "IPC_EXCL", 1024) ∷ (codes "IPC_NOWAIT", 2048)
        ∷ (codes "MSG_NOERROR", 4096) ∷ (codes "MSG_EXCEPT", 8192) ∷ [] };

    ghost set_of = { λ flags. flags.0 };

    fn flags<'a>() -> &'a [Flag<Flags>] {
        Flags::FLAGS
    }

    fn bits(&self) -> u32 {
        self.0
    }

    fn from_bits_retain(bits: u32) -> Flags {
        Flags(bits)
    }
}
