use crate::Octets;

/// What a key of a map holds: the node that a name names, a file's size in bytes, that a node is a
/// directory, or the 4,096 bytes of a block.
#[derive(Clone, Debug, Drop, PartialEq, Eq)]
pub enum Payload {
    To(u32),
    File(u64),
    Dir,
    Bytes(Octets),
}

/// One version of what a key holds. No two versions at one key have the same stamp.
#[derive(Clone, Debug, Drop, PartialEq, Eq)]
pub struct Cell {
    pub stamp: u64,
    /// `None` is a mark: the block changed, and its bytes aren't kept.
    pub payload: Option<Payload>,
}
