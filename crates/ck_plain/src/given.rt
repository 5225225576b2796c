ghost use Rattle.std.specs.Prelude.{◌≡◌, ◌≤◌, ◌<◌, ◌^◌, length, map as list_map, vec_len, vec_capacity};
ghost use Rattle.ck_plain.specs.Plain.{checkpoint_of};
ghost use Rattle.ck_plain.specs.Room.{ask_of, blocks_fit_in, has_room, space_lack, pick_among, picks_for, left_of};

use crate::PlainCheckpoint;
use crate::room::Room;
use crate::space::{drop_id, held_beside, pick, records_beside};
use ck_model::{Reply, SpaceOf};

/// The call's blocks fit beside these checkpoints.
fn blocks_fit(room: &Room, checkpoints: &[PlainCheckpoint]) -> bool
    requires { length checkpoints.now < 2 ^ 31 }
    ensures { result ≡ blocks_fit_in (ask_of room.now) (list_map checkpoint_of checkpoints.now) }
{
    held_beside(room.primary, checkpoints) + room.blocks <= u64::from(room.limits.blocks)
}

/// The call fits beside these checkpoints.
pub fn fits(room: &Room, checkpoints: &[PlainCheckpoint]) -> bool
    requires { length checkpoints.now < 2 ^ 31 }
    ensures { result ≡ has_room (ask_of room.now) (list_map checkpoint_of checkpoints.now) }
{
    blocks_fit(room, checkpoints)
        && records_beside(room.next, checkpoints) + room.records <= u64::from(room.limits.records)
}

/// Why the call doesn't fit.
pub fn no_space(room: &Room, checkpoints: &[PlainCheckpoint]) -> Reply
    requires { length checkpoints.now < 2 ^ 31 }
    ensures { result ≡ space_lack (ask_of room.now) (list_map checkpoint_of checkpoints.now) }
{
    if blocks_fit(room, checkpoints) {
        let held = records_beside(room.primary, checkpoints);
        let after = records_beside(room.next, checkpoints) + room.records;
        Reply::NoSpace(
            SpaceOf::Records,
            held,
            after.saturating_sub(held),
            u64::from(room.limits.records),
        )
    } else {
        Reply::NoSpace(
            SpaceOf::Blocks,
            held_beside(room.primary, checkpoints),
            room.blocks,
            u64::from(room.limits.blocks),
        )
    }
}

/// Gives up checkpoints while the call doesn't fit and there is one to give up, and says how many.
pub fn give_up(room: &Room, checkpoints: &mut Vec<PlainCheckpoint>) -> u32
    requires { vec_len checkpoints.old < 2 ^ 31 }
    ensures given { result ≡ picks_for (vec_len checkpoints.old) (ask_of room.now) (list_map checkpoint_of checkpoints.old.items) }
    ensures left { list_map checkpoint_of checkpoints.new.items ≡ left_of result (list_map checkpoint_of checkpoints.old.items) }
    ensures fewer { vec_len checkpoints.new ≤ vec_len checkpoints.old }
    ensures capacity { vec_capacity checkpoints.new ≡ vec_capacity checkpoints.old }
{
    let most = checkpoints.len() as u32;
    for given in 0..most {
        if fits(room, checkpoints) {
            return given;
        }
        match pick(checkpoints) {
            None => return given,
            Some(id) => drop_id(checkpoints, id),
        }
    }
    most
}
