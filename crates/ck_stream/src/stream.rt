use crate::{Header, Items};

/// All that a checkpoint holds.
#[derive(Debug, Drop)]
pub struct Full {
    /// The checkpoint's id.
    pub id: u32,
    pub items: Items,
}

/// What changed between two checkpoints.
#[derive(Debug, Drop)]
pub struct Changed {
    /// The earlier checkpoint's id.
    pub from: u32,
    /// The later checkpoint's id.
    pub to: u32,
    pub items: Items,
}

/// A backup of one checkpoint, or of what changed between two.
#[derive(Debug, Drop)]
pub enum Stream {
    Full(Full),
    Changed(Changed),
}

/// What is told of a stream.
#[derive(Clone, Copy, Debug)]
pub struct Summary {
    pub header: Header,
    /// How many records it has.
    pub records: usize,
}
