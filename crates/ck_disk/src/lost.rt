// The blocks whose writes a device didn't do.
ghost use Rattle.std.specs.Prelude.{◌≡◌, ◌∷◌};
ghost use Rattle.ck_disk.specs.Lost.{places_of};

use std::snapshot::Snapshot;

/// Blocks whose writes failed, the last one first. Only clauses read them, so they take no memory.
#[derive(Drop)]
pub(crate) enum Lost {
    Nothing,
    More(Snapshot<Lost>, Snapshot<u32>),
}

impl Lost {
    /// These, and one more.
    pub fn more(&self, at: u32) -> Lost
        ensures { places_of result ≡ at ∷ places_of self.now }
    {
        Lost::More(Snapshot::of(self), Snapshot::of(&at))
    }
}
