ghost use Rattle.std.specs.Prelude.{◌≤◌, ◌<◌, ◌^◌, length};
ghost use Rattle.std.specs.FinMap as map;

use crate::PlainMap;
use ck_model::{Counters, Kind, Limits, Mounts, NameBytes};
use std::alloc::Global;

/// A checkpoint with a map of its own.
#[derive(Drop)]
pub struct PlainCheckpoint {
    pub id: u32,
    pub name: NameBytes,
    pub kind: Kind,
    pub removable: bool,
    /// When it was created, in seconds since 1970-01-01T00:00:00Z.
    pub ctime: u64,
    pub cells: PlainMap,
    pub ghost few_cells: { map.len cells < 2 ^ 31 },
}

/// A world of the model. The checkpoints stand oldest first.
///
/// Its bounds are such that no number of a call overflows.
#[derive(Drop)]
pub struct Plain {
    pub limits: Limits,
    pub primary: PlainMap,
    pub checkpoints: Vec<PlainCheckpoint>,
    pub next: Counters,
    pub mounts: Mounts,
    pub alloc: Global,
    pub ghost few_records: { limits.records < 2 ^ 31 },
    pub ghost few_live: { limits.checkpoints < 2 ^ 31 },
    pub ghost few_cells: { map.len primary < 2 ^ 31 },
    pub ghost within_limit: { length checkpoints.items ≤ limits.checkpoints },
    pub ghost stamps: { next.stamp ≤ 2 ^ 63 },
}
