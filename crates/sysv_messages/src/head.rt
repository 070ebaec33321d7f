//! The head of a stored message.

/// What is kept of a message in addition to its body.
#[derive(Clone, Copy)]
pub(crate) struct Head {
    pub(crate) number: u64,
    pub(crate) sender: u32,
    pub(crate) mtype: i64,
    /// The length of its body in bytes.
    pub(crate) len: usize,
}
