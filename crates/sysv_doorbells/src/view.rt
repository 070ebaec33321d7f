//! The knowledge of a seat. It exists only in proofs: no value of these types is made.

/// Where a seat is in its call.
pub enum Stage {
    /// It has not begun, or has left again.
    Away,
    /// It is counted among all sleepers, and not yet among those of its doorbell.
    Come,
    /// It is counted at its doorbell.
    Entered,
    /// It is counted at the entrance and has read the number of strokes. Someone may be called.
    Read,
    /// It has read the number of strokes. It looks for what it waits for, and sleeps.
    Ready,
    /// It is counted among all sleepers, and no more among those of its doorbell.
    Left,
    /// It has rung each doorbell, for it found that there are no sleepers.
    PassedAll,
    /// It has rung its doorbell, and found nobody, or one at the entrance who is called already.
    Passed,
    /// It has found someone at the entrance, and may have to call one.
    Near,
    /// It has found someone, and has still to make a stroke.
    Ringing,
    /// It has made a stroke.
    Rung,
}

/// What the rule of the words records of one seat. Each seat makes one call.
pub struct View {
    /// Where the seat is in its call.
    pub stage: Stage,
    /// The doorbell: the number of the first of its words in the table.
    pub at: u64,
    /// The number of strokes that the seat has read.
    pub strokes: u64,
    /// The number of rings of the doorbell, by all seats together, before that.
    pub since: u64,
}
