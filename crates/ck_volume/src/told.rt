ghost use Rattle.std.specs.Prelude.{◌≡◌, ◌++◌, ◌∷◌, []};
ghost use Rattle.ck_volume.specs.Told.{told_of};

use ck_model::Call;
use std::snapshot::Snapshot;

/// Calls in their order, which only clauses read.
#[derive(Drop)]
pub(crate) enum Told {
    Nothing,
    More(Snapshot<Told>, Snapshot<Call>),
}

impl Told {
    /// These, and one more.
    pub fn more(&self, call: &Call) -> Told
        ensures { told_of result ≡ told_of self.now ++ call.now ∷ [] }
    {
        Told::More(Snapshot::of(self), Snapshot::of(call))
    }
}
