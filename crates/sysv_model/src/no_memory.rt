//! The error of a failed allocation.

use thiserror::Error;

/// The error of a call whose allocation failed.
///
/// Each call that returns it states what is unchanged. What the caller handed in is returned or
/// untouched.
#[derive(Clone, Copy, PartialEq, Eq, Debug, Error)]
#[error("no memory")]
pub struct NoMemory;
