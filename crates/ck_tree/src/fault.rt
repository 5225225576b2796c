use ck_model::{NoMemory, WalkFault};
use std::alloc::{AllocError, AllocFailed};

/// Why a call that changes files has no plan.
#[derive(Clone, Copy, Debug, PartialEq, Eq)]
pub enum TreeFault {
    NotFound,
    NotDir,
    IsDir,
    Exists,
    NotEmpty,
    Root,
    /// The size that a file would have, and the limit.
    TooBig(u64, u64),
    /// The numbers that the call needs are used up.
    Spent,
    NoMemory,
}

impl From<WalkFault> for TreeFault {
    ghost use Rattle.std.specs.Prelude.{◌≡◌};
    ghost use Rattle.ck_tree.specs.Faults.{fault_of};

    ghost from_gives = { λ walk fault. fault ≡ fault_of walk };

    fn from(walk: WalkFault) -> TreeFault {
        match walk {
            WalkFault::NotFound => TreeFault::NotFound,
            WalkFault::NotDir => TreeFault::NotDir,
        }
    }
}

impl From<NoMemory> for TreeFault {
    ghost use Rattle.std.specs.Prelude.{◌≡◌};
    ghost use Rattle.ck_tree.specs.declared.fault.TreeFault.TheVariants as fault;

    ghost from_gives = { λ _ e. e ≡ fault.NoMemory };

    fn from(_error: NoMemory) -> TreeFault {
        TreeFault::NoMemory
    }
}

impl From<AllocError> for TreeFault {
    ghost use Rattle.std.specs.Prelude.{◌≡◌};
    ghost use Rattle.ck_tree.specs.declared.fault.TreeFault.TheVariants as fault;

    ghost from_gives = { λ _ e. e ≡ fault.NoMemory };

    fn from(_error: AllocError) -> TreeFault {
        TreeFault::NoMemory
    }
}
