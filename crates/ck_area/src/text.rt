ghost use Rattle.std.specs.Prelude.{◌≡◌, ◌<◌, ◌*◌, ℕ, All, length, take, drop, slice_index_or};
ghost use Rattle.ck_record.specs.declared.records.Record.TheVariants.{Free};
ghost use Rattle.ck_record.specs.Record.{IsRecord, spelling};

use ck_record::{Record, encode};

/// The bytes of one slot.
const SLOT_BYTES: usize = 128;

/// Writes the spelling of a record into each slot of a block.
pub fn spell_block(records: &[Record], into: &mut [u8; 4096])
    requires count { length records.now ≡ 32 }
    requires each { All IsRecord records.now }
    ensures { (place : ℕ) → place < 32
        → take 128 (drop (128 * place) into.new) ≡ spelling (slice_index_or records.now place Free) }
{
    for (place, value) in records.iter().enumerate() {
        let mut bytes = [0; 128];
        encode(value, &mut bytes);
        let start = SLOT_BYTES * place;
        into[start..start + SLOT_BYTES].copy_from_slice(&bytes);
    }
}
