ghost use Rattle.std.specs.Prelude.{◌≡◌};
ghost use Rattle.ck_script.specs.declared.refusal.Refusal.TheVariants.{NoMemory as OutOfMemory};

use ck_model::NoMemory;
use std::alloc::{AllocError, AllocFailed};

/// Why words aren't read as what they were asked for.
#[derive(Drop, Clone, Copy)]
pub enum Refusal {
    /// The grammar has no such thing.
    NotThis,
    NoMemory,
}

impl From<NoMemory> for Refusal {
    ghost from_gives = { λ _ refusal. refusal ≡ OutOfMemory };

    fn from(_error: NoMemory) -> Refusal {
        Refusal::NoMemory
    }
}

impl From<AllocError> for Refusal {
    ghost from_gives = { λ _ refusal. refusal ≡ OutOfMemory };

    fn from(_error: AllocError) -> Refusal {
        Refusal::NoMemory
    }
}

impl<T: Drop> From<AllocFailed<T>> for Refusal {
    ghost from_gives = { λ _ refusal. refusal ≡ OutOfMemory };

    fn from(_error: AllocFailed<T>) -> Refusal {
        Refusal::NoMemory
    }
}
