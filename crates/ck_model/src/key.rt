use crate::NameBytes;

/// What a map has cells for: a name in a directory, a node, and a block of a file, by their numbers.
///
/// The order is all names by directory and then bytes, then the nodes, then the blocks by node and
/// index.
#[derive(Clone, Copy, Debug, PartialEq, Eq, PartialOrd, Ord)]
pub enum Key {
    /// A directory's number, and a name in it.
    Name(u32, NameBytes),
    Node(u32),
    /// A file's number, and the index of a block in it.
    Block(u32, u32),
}
