ghost use Rattle.std.specs.Prelude.{◌≡◌};
ghost use Rattle.ck_script.specs.declared.fault.ParseFault.TheVariants.{NoMemory as OutOfMemory};

use ck_model::NoMemory;
use std::alloc::{AllocError, AllocFailed};

/// Why a script isn't read.
#[derive(Debug, Drop, Clone, Copy, PartialEq, Eq)]
pub enum ParseFault {
    /// The number of the first line that is refused, from 1.
    BadLine(u32),
    NoMemory,
}

impl From<NoMemory> for ParseFault {
    ghost from_gives = { λ _ fault. fault ≡ OutOfMemory };

    fn from(_error: NoMemory) -> ParseFault {
        ParseFault::NoMemory
    }
}

impl From<AllocError> for ParseFault {
    ghost from_gives = { λ _ fault. fault ≡ OutOfMemory };

    fn from(_error: AllocError) -> ParseFault {
        ParseFault::NoMemory
    }
}

impl<T: Drop> From<AllocFailed<T>> for ParseFault {
    ghost from_gives = { λ _ fault. fault ≡ OutOfMemory };

    fn from(_error: AllocFailed<T>) -> ParseFault {
        ParseFault::NoMemory
    }
}
