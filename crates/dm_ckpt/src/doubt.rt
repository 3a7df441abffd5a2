//! What isn't known of a store after a call that failed.

/// What is in doubt until a heal answers.
#[derive(Clone, Copy, Debug, PartialEq, Eq)]
pub enum Doubt {
    Sure,
    /// Whether the payload of this length, which was being appended, is there.
    Payload(u64),
    /// Whether the other area is shut on the disk: a checkpoint failed before it wrote behind that area's gate.
    Closing,
    /// Whether the other area is the one in use: a checkpoint failed later.
    Turning,
}
