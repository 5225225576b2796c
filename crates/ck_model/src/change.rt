use crate::{Key, Small};

/// One change of the primary. It replaces what the primary holds at a key, or takes it away.
#[derive(Clone, Copy, Debug, PartialEq, Eq)]
pub enum Change {
    /// A name or a node.
    Put(Key, Small),
    /// A file's number, the index of a block in it, and the data block with its new bytes.
    Write(u32, u32, u32),
    Del(Key),
}

/// What changes take: new data blocks, and how many records more the table has afterwards, 0 where
/// it has fewer.
#[derive(Clone, Copy, Debug, PartialEq, Eq)]
pub struct Cost {
    pub blocks: u32,
    pub records: u32,
}

/// The data block that nothing names any more after a step, if there is one.
#[derive(Clone, Copy, Debug, PartialEq, Eq)]
pub struct Freed {
    pub block: Option<u32>,
}
