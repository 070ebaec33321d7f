//! The caller of the calls that are measured.
use sysv_model::Cred;
use sysv_service::Clock;

pub(crate) const USER: Cred = Cred {
    uid: 1000,
    gid: 1000,
    pid: 101,
};

/// A clock that always returns the same time.
pub(crate) struct Still;

impl Clock for Still {
    ghost may = { λ _ _. Unit {0} };

    fn now(&self) -> u64 {
        0
    }
}
