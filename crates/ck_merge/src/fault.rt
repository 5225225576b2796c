ghost use Rattle.std.specs.Prelude.{◌≡◌};
ghost use Rattle.ck_merge.specs.declared.fault.MergeFault.TheVariants as faults;

use ck_model::NoMemory;

/// Why changed streams can't be merged.
#[derive(Clone, Copy, Debug, PartialEq, Eq)]
pub enum MergeFault {
    /// Where the first one ends, and where the second one begins.
    NotAdjacent { ends: u32, begins: u32 },
    NoMemory,
}

impl From<NoMemory> for MergeFault {
    ghost from_gives = { λ _ fault. fault ≡ faults.NoMemory };

    fn from(_error: NoMemory) -> MergeFault {
        MergeFault::NoMemory
    }
}
