//! What all frames have: limits, a version and an operation.
ghost use Rattle.std.specs.Prelude.{◌≡◌, ◌<◌, ◌≤◌, IfSome, IfNone};
ghost use Rattle.sysv_wire.specs.Frames.{HasOp, IsNoVersion, IsUpTo, last_op as the_last_op, op_number, version_number};

/// The number of bytes in the length field of a frame.
pub(crate) const LENGTH_BYTES: usize = 4;

/// The minimum length of a request, in bytes after the length field.
pub(crate) const MIN_REQUEST: u32 = 2;

/// The maximum length of a request: that of a send with a body of 8,256 bytes.
pub(crate) const MAX_REQUEST: u32 = 8274;

/// The minimum length of a reply, in bytes after the length field.
pub(crate) const MIN_REPLY: u32 = 3;

/// The maximum length of a reply: that of a receive's reply with a body of 8,192 bytes.
pub(crate) const MAX_REPLY: u32 = 8203;

/// The maximum mode of a queue: nine bits.
pub const MAX_MODE: u16 = 0o777;

/// The version of a frame, which is the first byte after its length field.
#[derive(Clone, Copy, PartialEq, Eq, Debug)]
pub enum Version {
    /// Version 1.
    One,
    /// Version 2, in which the reply to a hello has the number of slots.
    Two,
    /// Version 3, which has three more operations: a hold, and what ends it.
    Three,
}

impl Version {
    /// Returns the version's number, 1 to 3.
    pub fn number(self) -> u8
        ensures { result ≡ version_number self }
    {
        match self {
            Version::One => 1,
            Version::Two => 2,
            Version::Three => 3,
        }
    }

    /// Returns the version with this number, or `None` if the number is none of 1 to 3.
    pub fn of(number: u8) -> Option<Version>
        ensures some { IfSome result (λ version. version_number version ≡ number) }
        ensures known { IfSome result (IsUpTo Version.Three) }
        ensures none { IfNone result (IsNoVersion Version.Three number) }
    {
        match number {
            1 => Some(Version::One),
            2 => Some(Version::Two),
            3 => Some(Version::Three),
            _ => None,
        }
    }

    /// Returns the version with this number, or `None` if no version up to this one has it.
    pub fn up_to(self, number: u8) -> Option<Version>
        ensures some { IfSome result (λ version. version_number version ≡ number) }
        ensures known { IfSome result (IsUpTo self) }
        ensures none { IfNone result (IsNoVersion self number) }
    {
        match self {
            Version::One => {
                if number == 1 {
                    Some(Version::One)
                } else {
                    None
                }
            }
            Version::Two => {
                if number == 1 {
                    Some(Version::One)
                } else if number == 2 {
                    Some(Version::Two)
                } else {
                    None
                }
            }
            Version::Three => Version::of(number),
        }
    }

    /// Returns the number of the version's last operation, 7 or 10.
    pub fn last_op(self) -> u8
        ensures last { result ≡ the_last_op self }
        ensures most { result ≤ 10 }
    {
        match self {
            Version::One | Version::Two => Op::Row.number(),
            Version::Three => Op::Back.number(),
        }
    }
}

/// The operation of a request and of its reply.
#[derive(Clone, Copy, PartialEq, Eq, Debug)]
pub enum Op {
    /// States the credentials for the calls of a session.
    Hello,
    /// `msgget`.
    Get,
    /// `msgsnd`.
    Snd,
    /// `msgrcv`.
    Rcv,
    /// `msgctl` with `IPC_STAT`.
    Stat,
    /// `msgctl` with `IPC_SET`.
    Set,
    /// `msgctl` with `IPC_RMID`.
    Rm,
    /// Requests one row of the list of queues.
    Row,
    /// `msgrcv` of a message that comes back if it is not spent.
    Hold,
    /// Spends the message that is held.
    Done,
    /// Sends back the message that is held.
    Back,
}

impl Op {
    /// Returns the operation's number, 0 to 10.
    pub fn number(self) -> u8
        ensures { result ≡ op_number self }
    {
        match self {
            Op::Hello => 0,
            Op::Get => 1,
            Op::Snd => 2,
            Op::Rcv => 3,
            Op::Stat => 4,
            Op::Set => 5,
            Op::Rm => 6,
            Op::Row => 7,
            Op::Hold => 8,
            Op::Done => 9,
            Op::Back => 10,
        }
    }

    /// Returns the operation with this number, or `None` if the number is above 10.
    pub fn of(number: u8) -> Option<Op>
        ensures some { IfSome result (λ op. op_number op ≡ number) }
        ensures none { IfNone result (10 < number) }
    {
        match number {
            0 => Some(Op::Hello),
            1 => Some(Op::Get),
            2 => Some(Op::Snd),
            3 => Some(Op::Rcv),
            4 => Some(Op::Stat),
            5 => Some(Op::Set),
            6 => Some(Op::Rm),
            7 => Some(Op::Row),
            8 => Some(Op::Hold),
            9 => Some(Op::Done),
            10 => Some(Op::Back),
            _ => None,
        }
    }

    /// Returns the operation with this number, or `None` if the version has none with it.
    pub fn known(version: Version, number: u8) -> Option<Op>
        ensures some { IfSome result (λ op. op_number op ≡ number) }
        ensures known { IfSome result (HasOp version) }
        ensures none { IfNone result (the_last_op version < number) }
    {
        if number > version.last_op() {
            return None;
        }
        let Some(op) = Op::of(number) else {
            unreachable!()
        };
        Some(op)
    }
}
