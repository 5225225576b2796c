ghost use Rattle.std.specs.Prelude.{◌≡◌, ◌≤◌, ◌<◌, ◌*◌, ◌+◌, ◌++◌, ◌∷◌, [], ℕ, None, take, drop, slice_index_or, OnOk, OnErr, vec_len, vec_capacity};
ghost use Rattle.ck_area.specs.Area.{Blocks, IsReadAs, AreSlots};

use crate::pushes::push_each;
use ck_model::NoMemory;
use ck_record::{Record, decode};

/// How many slots a block has.
const SLOTS: usize = 32;

/// The bytes of one slot.
const SLOT_BYTES: usize = 128;

/// The record in a slot of a block, if its bytes are the spelling of one. Slots are counted from 0.
pub fn slot_in(block: &[u8; 4096], place: usize) -> Option<Record>
    requires { place < 32 }
    ensures { IsReadAs (take 128 (drop (128 * place) block.now)) result }
{
    let mut bytes = [0; 128];
    let start = SLOT_BYTES * place;
    bytes.copy_from_slice(&block[start..start + SLOT_BYTES]);
    decode(&bytes)
}

fn push_slots(block: &[u8; 4096], into: &mut Vec<Option<Record>>)
    requires { vec_len into.old + 32 ≤ vec_capacity into.old }
    ensures slots { (blocks : Blocks) → AreSlots blocks into.old.items
        → AreSlots (blocks ++ block.now ∷ []) into.new.items }
    ensures capacity { vec_capacity into.new ≡ vec_capacity into.old }
{
    push_each(into, SLOTS, &|place| slot_in(block, place));
}

/// Appends the slots of the next block of a table. A refusal appends nothing.
pub fn read_block(block: &[u8; 4096], into: &mut Vec<Option<Record>>) -> Result<(), NoMemory>
    ensures slots { OnOk result ((blocks : Blocks) → AreSlots blocks into.old.items
        → AreSlots (blocks ++ block.now ∷ []) into.new.items) }
    ensures same { OnErr result (into.new.items ≡ into.old.items) }
    ensures full { OnErr result (vec_capacity into.old < vec_len into.old + 32) }
{
    into.reserve(SLOTS)?;
    push_slots(block, into);
    Ok(())
}
