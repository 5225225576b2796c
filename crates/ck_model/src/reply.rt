use crate::{Children, CkptLines, Octets};

/// What a volume has no room for.
#[derive(Clone, Copy, Debug, PartialEq, Eq)]
pub enum SpaceOf {
    Blocks,
    Records,
}

/// The answer to a call.
#[derive(Debug, Drop)]
pub enum Reply {
    Done,
    /// The checkpoint became nodata, and its data stay while an older one keeps its own.
    Delayed,
    Bytes(Octets),
    Names(Children),
    /// A file's number and size in bytes.
    StatFile(u32, u64),
    /// A directory's number and how many names it has.
    StatDir(u32, u32),
    /// The new checkpoint's id.
    Created(u32),
    Listing(CkptLines),
    /// Data blocks held, of how many; records, of how many; and the number of checkpoints.
    Info(u64, u64, u64, u64, u32),
    /// The number of records of a stream, and its bytes.
    Streamed(u64, Octets),
    NotFound,
    NotDir,
    IsDir,
    Exists,
    NotEmpty,
    Root,
    /// The size that a file would have, and the limit.
    TooBig(u64, u64),
    /// No checkpoint has the name.
    NoCkpt,
    /// The limit of checkpoints.
    TooMany(u32),
    /// The numbers that the call needs are used up.
    Spent,
    /// The letter stands for a checkpoint already.
    InUse,
    NotMounted,
    /// The mounted checkpoint, by its id, was removed.
    Gone(u32),
    /// The checkpoint, by its id, has no data.
    NoData(u32),
    /// The first checkpoint is newer than the second.
    NotNewer(u32, u32),
    /// The checkpoint is nodata.
    NotData,
    /// What was held, what the call needs more, and the limit.
    NoSpace(SpaceOf, u64, u64, u64),
    ReadFault,
    WriteFault,
    /// The volume lost a write at the entry with this number, counted from 0.
    Broken(u32),
    NoMemory,
}
