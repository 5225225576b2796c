ghost use Rattle.std.specs.Prelude.{◌≡◌, ◌≤◌, not, length, find, take, take_while, slice_get, map as list_map, vec_len};
ghost use Rattle.std.specs.Option.{option_copied, option_map};
ghost use Rattle.std.specs.List.{list_any};
ghost use Rattle.ck_model.specs.World.{is_named, has_id};
ghost use Rattle.ck_model.specs.CheckpointCalls.{kind_of, any_keeps, as_nodata};
ghost use Rattle.ck_plain.specs.Plain.{checkpoint_of};
ghost use Rattle.ck_plain.specs.Named.{changed_named, with_removable};

use crate::PlainCheckpoint;
use crate::space::keeps_files;
use ck_model::{Kind, NameBytes};

pub fn kind_of(nodata: bool) -> Kind
    ensures { result ≡ kind_of nodata }
{
    if nodata { Kind::Nodata } else { Kind::Keeping }
}

fn is_named(name: &NameBytes, checkpoint: &PlainCheckpoint) -> bool
    ensures { result ≡ is_named name.now (checkpoint_of checkpoint.now) }
{
    checkpoint.name == *name
}

/// The first checkpoint with this name.
pub fn find_named<'a>(
    checkpoints: &'a [PlainCheckpoint],
    name: &NameBytes,
) -> Option<&'a PlainCheckpoint>
    ensures { option_map checkpoint_of (option_copied result) ≡ find (is_named name.now) (list_map checkpoint_of checkpoints.now) }
{
    for checkpoint in checkpoints {
        if is_named(name, checkpoint) {
            return Some(checkpoint);
        }
    }
    None
}

/// The checkpoint with this id.
pub fn find_id(checkpoints: &[PlainCheckpoint], id: u32) -> Option<&PlainCheckpoint>
    ensures { option_map checkpoint_of (option_copied result) ≡ find (has_id id) (list_map checkpoint_of checkpoints.now) }
{
    for checkpoint in checkpoints {
        if checkpoint.id == id {
            return Some(checkpoint);
        }
    }
    None
}

/// A checkpoint has this name.
pub fn any_named(checkpoints: &[PlainCheckpoint], name: &NameBytes) -> bool
    ensures { result ≡ list_any (is_named name.now) (list_map checkpoint_of checkpoints.now) }
{
    for checkpoint in checkpoints {
        if is_named(name, checkpoint) {
            return true;
        }
    }
    false
}

/// One of these is a data checkpoint.
fn any_keeps(checkpoints: &[PlainCheckpoint]) -> bool
    ensures { result ≡ any_keeps (list_map checkpoint_of checkpoints.now) }
{
    for checkpoint in checkpoints {
        if keeps_files(checkpoint.kind) {
            return true;
        }
    }
    false
}

/// The place of the first checkpoint with this name, or the number of all where none has it.
pub fn place_named(checkpoints: &[PlainCheckpoint], name: &NameBytes) -> usize
    ensures within { result ≤ length checkpoints.now }
    ensures found { option_map checkpoint_of (slice_get checkpoints.now result) ≡ find (is_named name.now) (list_map checkpoint_of checkpoints.now) }
    ensures older { list_map checkpoint_of (take result checkpoints.now) ≡ take_while (λ checkpoint. not (is_named name.now checkpoint)) (list_map checkpoint_of checkpoints.now) }
{
    for (at, checkpoint) in checkpoints.iter().enumerate() {
        if is_named(name, checkpoint) {
            return at;
        }
    }
    checkpoints.len()
}

/// A checkpoint older than the one with this name keeps data.
pub fn older_keeps(checkpoints: &[PlainCheckpoint], name: &NameBytes) -> bool
    ensures { result ≡ any_keeps (take_while (λ checkpoint. not (is_named name.now checkpoint)) (list_map checkpoint_of checkpoints.now)) }
{
    any_keeps(&checkpoints[..place_named(checkpoints, name)])
}

fn set_flag(checkpoint: &mut PlainCheckpoint, name: &NameBytes, on: bool)
    ensures { checkpoint_of checkpoint.new ≡ changed_named name.now (with_removable on) (checkpoint_of checkpoint.old) }
{
    if is_named(name, checkpoint) {
        checkpoint.removable = on;
    }
}

/// Makes the checkpoint with this name removable, or not.
pub fn set_flags(checkpoints: &mut Vec<PlainCheckpoint>, name: &NameBytes, on: bool)
    ensures changed { list_map checkpoint_of checkpoints.new.items ≡ list_map (changed_named name.now (with_removable on)) (list_map checkpoint_of checkpoints.old.items) }
    ensures len { vec_len checkpoints.new ≡ vec_len checkpoints.old }
{
    for checkpoint in checkpoints.iter_mut() {
        set_flag(checkpoint, name, on);
    }
}

fn set_nodata(checkpoint: &mut PlainCheckpoint, name: &NameBytes)
    ensures { checkpoint_of checkpoint.new ≡ changed_named name.now as_nodata (checkpoint_of checkpoint.old) }
{
    if is_named(name, checkpoint) {
        checkpoint.kind = Kind::Nodata;
        checkpoint.cells.mark();
    }
}

/// Makes the checkpoint with this name nodata.
pub fn convert(checkpoints: &mut Vec<PlainCheckpoint>, name: &NameBytes)
    ensures changed { list_map checkpoint_of checkpoints.new.items ≡ list_map (changed_named name.now as_nodata) (list_map checkpoint_of checkpoints.old.items) }
    ensures len { vec_len checkpoints.new ≡ vec_len checkpoints.old }
{
    for checkpoint in checkpoints.iter_mut() {
        set_nodata(checkpoint, name);
    }
}
