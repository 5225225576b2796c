use ck_model::NoMemory;
use std::alloc::AllocError;
use std::io;

/// Why a play ended early.
#[derive(Debug, Drop)]
pub enum Stop {
    NoMemory,
    Io,
    /// A line that is no row and no call.
    BadLine,
}

impl From<NoMemory> for Stop {
    fn from(_error: NoMemory) -> Stop {
        Stop::NoMemory
    }
}

impl From<AllocError> for Stop {
    fn from(_error: AllocError) -> Stop {
        Stop::NoMemory
    }
}

impl From<io::Error> for Stop {
    fn from(_error: io::Error) -> Stop {
        Stop::Io
    }
}
