ghost use Rattle.std.proofs.Props.{props};
ghost use Rattle.ck_engine.specs.Engine as files;
ghost use Rattle.ck_volume.specs.Kept.{IsKept as Keeps};
ghost use Rattle.ck_volume.specs.Present.{present};
ghost use Rattle.ck_volume.specs.Told.{told_of as calls_in};

use crate::log::Log;
use crate::told::Told;
use ck_disk::Disk;
use ck_engine::Engine;
use std::snapshot::Snapshot;

/// A volume on a device. Once a write of it has failed it is broken: it answers every further call
/// so, and makes no call of the device any more.
#[derive(Drop)]
pub struct Volume<D: Disk> {
    pub(crate) engine: Engine<D>,
    pub(crate) log: Log,
    /// The device as it stood when it was opened or formatted.
    pub(crate) origin: Snapshot<D>,
    /// How many calls it had answered when a sync or a commit was done last, 0 before the first.
    pub(crate) committed: Snapshot<u32>,
    /// The calls of its entries.
    pub(crate) told: Told,
    /// After how many calls a commit broke it, where one did.
    pub(crate) spoilt: Snapshot<Option<u32>>,
    ghost kept: { Keeps (D.means origin.value) (D.means (files.disk_of engine)) (calls_in told) committed.value spoilt.value (present engine log) } by { Prim.hlevel props },
}
