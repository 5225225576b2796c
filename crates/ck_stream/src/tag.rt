/// The kinds of records, by the tag that each begins with.
#[derive(Clone, Copy, Debug)]
pub enum Tag {
    Name,
    File,
    Dir,
    Block,
    RemovedName,
    RemovedNode,
    RemovedBlock,
}

/// The ids in a stream's header.
#[derive(Clone, Copy, Debug)]
pub enum Header {
    Full(u32),
    /// The earlier and the later id.
    Changed(u32, u32),
}
