// What goes wrong at the outside.
ghost use Rattle.std.specs.Prelude.{◌≡◌};
ghost use Rattle.ck_io.specs.declared.fault.InputFault.TheVariants.{ReadFault, NoMemory};

use std::alloc::AllocError;

/// A call on a source or a sink failed.
#[derive(Clone, Copy, Debug, PartialEq, Eq)]
pub struct Failed;

/// Why an input wasn't read as a whole.
#[derive(Debug, Drop)]
pub enum InputFault {
    /// A read failed.
    ReadFault,
    /// More bytes came than the limit allows: the limit's number of them and one more.
    TooLong(Vec<u8>),
    /// Memory was refused.
    NoMemory,
}

impl From<Failed> for InputFault {
    ghost from_gives = { λ _ fault. fault ≡ ReadFault };

    fn from(_failed: Failed) -> InputFault {
        InputFault::ReadFault
    }
}

impl From<AllocError> for InputFault {
    ghost from_gives = { λ _ fault. fault ≡ NoMemory };

    fn from(_error: AllocError) -> InputFault {
        InputFault::NoMemory
    }
}
