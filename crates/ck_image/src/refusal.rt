use ck_stream::StreamFault;

/// Why a command refuses its input.
#[derive(Clone, Copy, Debug)]
pub enum Refusal {
    Stream(StreamFault),
    /// The id of the full stream so far, and the earlier id of the next changed one.
    WrongBase { has: u32, wants: u32 },
    /// The later id of the changed streams so far, and the earlier id of the next one.
    NotAdjacent { ends: u32, begins: u32 },
    /// The input has too many bytes.
    TooLong,
    /// Memory was refused, which says nothing of the input.
    NoMemory,
}
