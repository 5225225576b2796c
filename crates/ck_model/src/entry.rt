use crate::Reply;

/// A call that was answered, in the order of the answers.
#[derive(Debug, Drop)]
pub struct Entry {
    pub actor: u32,
    /// The number of the call among its actor's, from 1.
    pub seq: u32,
    /// When the call began, in seconds since 1970-01-01T00:00:00Z.
    pub at: u64,
    /// How many removable checkpoints were given up for room.
    pub given: u32,
    pub reply: Reply,
}
