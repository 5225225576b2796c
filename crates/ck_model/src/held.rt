/// What a name or a node holds: the node that the name names, the file's size in bytes, or that the
/// node is a directory.
#[derive(Clone, Copy, Debug, PartialEq, Eq)]
pub enum Small {
    To(u32),
    File(u64),
    Dir,
}

/// What an entry of a table says of its key. The first number is the version's stamp.
#[derive(Clone, Copy, Debug, PartialEq, Eq)]
pub enum Held {
    /// The key has no cell.
    Absent,
    Plain(u64, Small),
    /// A block, and the number of the data block with its bytes.
    Extent(u64, u32),
    /// A block whose bytes aren't kept.
    Mark(u64),
}
