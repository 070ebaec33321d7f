//! A doorbell: one thread rings it, and others wait for it.
ghost use Rattle.std.specs.Prelude.{◌≡◌};

use crate::watched::Watched;
use libc::net::{EFD_CLOEXEC, EFD_NONBLOCK, eventfd};
use libc::{close, read, write};

/// What a ring adds to the counter behind the doorbell's descriptor.
const ONE: u64 = 1;

/// The number of times that a ring is tried.
const MOST_TRIES: u32 = 64;

/// A doorbell was written. Only `Doorbell::ring` makes a value of this type.
#[derive(Clone, Copy)]
pub struct Ring {
    /// The doorbell's descriptor.
    fd: i32,
}

/// A doorbell. Its descriptor can be read from a ring until the doorbell is hushed.
pub struct Doorbell {
    fd: i32,
}

impl Doorbell {
    /// Opens a doorbell. Returns `None` if the system refuses a descriptor.
    pub fn open() -> Option<Doorbell> {
        let fd = eventfd(0, EFD_CLOEXEC | EFD_NONBLOCK);
        if fd < 0 { None } else { Some(Doorbell { fd }) }
    }

    /// Returns its descriptor, which can be read from a ring until the doorbell is hushed.
    pub fn watched(&self) -> Watched
        ensures { result.number ≡ self.now.fd }
    {
        Watched::numbered(self.fd)
    }

    /// Rings the doorbell, again if the system refuses that.
    pub fn ring(&self) -> Ring
        ensures { result.fd ≡ self.now.fd }
    {
        for _ in 0..MOST_TRIES {
            if write(self.fd, &ONE.to_ne_bytes()) > 0 {
                break;
            }
        }
        Ring { fd: self.fd }
    }

    /// Ends the ringing.
    pub fn hush(&self) {
        let mut rings = ONE.to_ne_bytes();
        read(self.fd, &mut rings);
    }
}

impl Drop for Doorbell {
    fn drop(self) {
        let Doorbell { fd } = self;
        close(fd);
    }
}
