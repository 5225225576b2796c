ghost use Rattle.std.specs.Prelude.{◌≡◌, ◌≤◌, ◌<◌, ◌^◌, length, map as list_map, vec_len, vec_capacity};
ghost use Rattle.std.specs.FinMap as map;
ghost use Rattle.ck_model.specs.World.{keeps_files};
ghost use Rattle.ck_model.specs.Space.{next_cells, held_by, difference_count, oldest_removable};
ghost use Rattle.ck_plain.specs.Plain.{checkpoint_of};
ghost use Rattle.ck_plain.specs.Room.{held_beside, records_beside, pick_among, without_id};

use crate::{PlainCheckpoint, PlainMap};
use ck_model::Kind;

pub fn keeps_files(kind: Kind) -> bool
    ensures { result ≡ keeps_files kind }
{
    matches!(kind, Kind::Keeping)
}

/// The map of the oldest of these checkpoints, or else the primary's.
fn next_cells<'a>(primary: &'a PlainMap, checkpoints: &'a [PlainCheckpoint]) -> &'a PlainMap
    ensures { result.now ≡ next_cells primary.now (list_map checkpoint_of checkpoints.now) }
{
    match checkpoints.first() {
        None => primary,
        Some(checkpoint) => &checkpoint.cells,
    }
}

/// The blocks that the checkpoints hold beside the next newer maps.
fn held_by(older: bool, primary: &PlainMap, checkpoints: &[PlainCheckpoint]) -> u64
    requires { length checkpoints.now < 2 ^ 31 }
    ensures { result ≡ held_by older primary.now (list_map checkpoint_of checkpoints.now) }
{
    match checkpoints {
        [] => 0,
        [checkpoint, newer @ ..] => {
            let keeps = older || keeps_files(checkpoint.kind);
            let own = if keeps {
                checkpoint.cells.own_block_count(next_cells(primary, newer)) as u64
            } else {
                0
            };
            own + held_by(keeps, primary, newer)
        }
    }
}

/// The blocks that a world with this primary map and these checkpoints takes.
pub fn held_beside(primary: &PlainMap, checkpoints: &[PlainCheckpoint]) -> u64
    requires cells { map.len primary.now < 2 ^ 32 }
    requires few { length checkpoints.now < 2 ^ 31 }
    ensures { result ≡ held_beside primary.now (list_map checkpoint_of checkpoints.now) }
{
    primary.block_count() as u64 + held_by(false, primary, checkpoints)
}

/// The keys at which checkpoints and their next newer maps differ.
fn difference_count(primary: &PlainMap, checkpoints: &[PlainCheckpoint]) -> u64
    requires cells { map.len primary.now < 2 ^ 32 }
    requires few { length checkpoints.now < 2 ^ 31 }
    ensures { result ≡ difference_count primary.now (list_map checkpoint_of checkpoints.now) }
{
    match checkpoints {
        [] => 0,
        [checkpoint, newer @ ..] => {
            let own = checkpoint
                .cells
                .difference_count(next_cells(primary, newer)) as u64;
            own + difference_count(primary, newer)
        }
    }
}

/// The records that a world with this primary map and these checkpoints takes.
pub fn records_beside(primary: &PlainMap, checkpoints: &[PlainCheckpoint]) -> u64
    requires cells { map.len primary.now < 2 ^ 32 }
    requires few { length checkpoints.now < 2 ^ 31 }
    ensures { result ≡ records_beside primary.now (list_map checkpoint_of checkpoints.now) }
{
    primary.len() as u64 + difference_count(primary, checkpoints) + checkpoints.len() as u64
}

/// The id of the oldest removable checkpoint of the kind that keeps files, or of the other kind.
fn oldest_removable(keeps: bool, checkpoints: &[PlainCheckpoint]) -> Option<u32>
    ensures { result ≡ oldest_removable keeps (list_map checkpoint_of checkpoints.now) }
{
    for checkpoint in checkpoints {
        if checkpoint.removable && keeps_files(checkpoint.kind) == keeps {
            return Some(checkpoint.id);
        }
    }
    None
}

/// What is given up first.
pub fn pick(checkpoints: &[PlainCheckpoint]) -> Option<u32>
    ensures { result ≡ pick_among (list_map checkpoint_of checkpoints.now) }
{
    oldest_removable(true, checkpoints).or(oldest_removable(false, checkpoints))
}

/// Removes the checkpoint with this id.
pub fn drop_id(checkpoints: &mut Vec<PlainCheckpoint>, id: u32)
    ensures others { list_map checkpoint_of checkpoints.new.items ≡ without_id (list_map checkpoint_of checkpoints.old.items) id }
    ensures fewer { vec_len checkpoints.new ≤ vec_len checkpoints.old }
    ensures capacity { vec_capacity checkpoints.new ≡ vec_capacity checkpoints.old }
{
    checkpoints.retain(|checkpoint| checkpoint.id != id);
}
