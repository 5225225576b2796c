use ck_model::{NoMemory, Reply, WalkFault};
use std::alloc::AllocError;

/// Why a read of a checkpoint's file doesn't begin.
#[derive(Clone, Copy, Debug, PartialEq, Eq)]
pub enum StartFault {
    /// The checkpoint left the list.
    Gone,
    /// The checkpoint keeps no data.
    NoData,
    NotFound,
    NotDir,
    IsDir,
    NoMemory,
}

impl StartFault {
    ghost use Rattle.std.specs.Prelude.{◌≡◌};
    ghost use Rattle.ck_read.specs.StartFault.{reply_of};

    /// The reply of its name to a read of this checkpoint.
    pub fn reply(self, ckpt: u32) -> Reply
        ensures { result ≡ reply_of ckpt self }
    {
        match self {
            StartFault::Gone => Reply::Gone(ckpt),
            StartFault::NoData => Reply::NoData(ckpt),
            StartFault::NotFound => Reply::NotFound,
            StartFault::NotDir => Reply::NotDir,
            StartFault::IsDir => Reply::IsDir,
            StartFault::NoMemory => Reply::NoMemory,
        }
    }
}

impl From<WalkFault> for StartFault {
    ghost use Rattle.std.specs.Prelude.{◌≡◌};
    ghost use Rattle.ck_read.specs.StartFault.{fault_of};

    ghost from_gives = { λ walk fault. fault ≡ fault_of walk };

    fn from(walk: WalkFault) -> StartFault {
        match walk {
            WalkFault::NotFound => StartFault::NotFound,
            WalkFault::NotDir => StartFault::NotDir,
        }
    }
}

impl From<AllocError> for StartFault {
    ghost use Rattle.std.specs.Prelude.{◌≡◌};
    ghost use Rattle.ck_read.specs.declared.fault.StartFault.TheVariants as fault;

    ghost from_gives = { λ _ e. e ≡ fault.NoMemory };

    fn from(_error: AllocError) -> StartFault {
        StartFault::NoMemory
    }
}

/// Why a block isn't read.
#[derive(Clone, Copy, Debug, PartialEq, Eq)]
pub(crate) enum BlockFault {
    ReadFault,
    NoMemory,
}

impl From<NoMemory> for BlockFault {
    ghost use Rattle.std.specs.Prelude.{◌≡◌};
    ghost use Rattle.ck_read.specs.declared.fault.BlockFault.TheVariants as fault;

    ghost from_gives = { λ _ e. e ≡ fault.NoMemory };

    fn from(_error: NoMemory) -> BlockFault {
        BlockFault::NoMemory
    }
}
