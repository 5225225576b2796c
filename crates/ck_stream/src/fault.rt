ghost use Rattle.std.specs.Prelude.{◌≡◌};
ghost use Rattle.ck_stream.specs.declared.fault.StreamFault.TheVariants as faults;
ghost use Rattle.ck_stream.specs.declared.fault.Flaw.TheVariants as flaws;
ghost use Rattle.ck_stream.specs.declared.fault.ApplyFault.TheVariants as apply_faults;

use ck_model::NoMemory;
use std::alloc::{AllocError, AllocFailed};

/// Why a stream couldn't be read. Places are counted in bytes from the start of the input.
#[derive(Clone, Copy, Debug, PartialEq, Eq)]
pub enum StreamFault {
    /// A header or a record is wrong. It begins at this place.
    NotStream(u64),
    /// The input, which has this length, ends in the middle of the stream.
    Truncated(u64),
    /// The digest that stands in the stream isn't the one of its bytes.
    Digest { kept: [u8; 32], found: [u8; 32] },
    NoMemory,
}

impl From<AllocError> for StreamFault {
    ghost from_gives = { λ _ fault. fault ≡ faults.NoMemory };

    fn from(_error: AllocError) -> StreamFault {
        StreamFault::NoMemory
    }
}

impl<T: Drop> From<AllocFailed<T>> for StreamFault {
    ghost from_gives = { λ _ fault. fault ≡ faults.NoMemory };

    fn from(_error: AllocFailed<T>) -> StreamFault {
        StreamFault::NoMemory
    }
}

/// Why a stream can't be applied.
#[derive(Clone, Copy, Debug, PartialEq, Eq)]
pub enum ApplyFault {
    /// The full stream's id, and the earlier id of the changed one.
    WrongBase { has: u32, wants: u32 },
    NoMemory,
}

impl From<NoMemory> for ApplyFault {
    ghost from_gives = { λ _ fault. fault ≡ apply_faults.NoMemory };

    fn from(_error: NoMemory) -> ApplyFault {
        ApplyFault::NoMemory
    }
}

/// Why a header or a record couldn't be read.
#[derive(Clone, Copy, Debug)]
pub enum Flaw {
    /// A field needs more bytes than are left.
    Short,
    /// A field that is whole isn't right.
    Wrong,
    NoMemory,
}

impl From<AllocError> for Flaw {
    ghost from_gives = { λ _ flaw. flaw ≡ flaws.NoMemory };

    fn from(_error: AllocError) -> Flaw {
        Flaw::NoMemory
    }
}
