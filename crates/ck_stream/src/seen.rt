/// A record's key, as it stands in the bytes.
#[derive(Clone, Copy, Debug)]
pub enum SeenKey<'a> {
    /// A directory's number, and a name in it.
    Name(u32, &'a [u8]),
    Node(u32),
    /// A file's number, and the index of a block in it.
    Block(u32, u32),
}
