ghost use Rattle.std.specs.Prelude.{◌≡◌, ◌||◌, ◌≤◌, ◌^◌, ℕ, Bool, IfOk, length, take};
ghost use Rattle.ck_area.specs.Area.{slot_at};
ghost use Rattle.ck_area.specs.Damage.{breaks, damage};
ghost use Rattle.ck_area.specs.Firsts.{IsFirst};
ghost use Rattle.ck_area.specs.Split.{breaks_again};

use crate::alone::first_alone;
use crate::crowd::first_crowd;
use crate::known::Known;
use crate::repeated::{
    repeated_block, repeated_id, repeated_name, repeated_place, repeated_version,
};
use crate::whole::first_whole;
use ck_model::NoMemory;
use ck_record::Record;
use std::alloc::Global;

fn earlier(a: Option<usize>, b: Option<usize>) -> Option<usize>
    ensures { (test other : ℕ → Bool) (limit : ℕ) → IsFirst test limit a → IsFirst other limit b
        → IsFirst (λ k. test k || other k) limit result }
{
    match (a, b) {
        (Some(first), Some(second)) => {
            if first <= second {
                Some(first)
            } else {
                Some(second)
            }
        }
        (Some(first), None) => Some(first),
        (None, second) => second,
    }
}

/// The first slot that repeats what a lower slot has, and may not.
fn first_again(alloc: Global, area: &[Option<Record>]) -> Result<Option<usize>, NoMemory>
    ensures { IfOk result
        (IsFirst (λ k. breaks_again (take k area.now) (slot_at area.now k)) (length area.now)) }
{
    let place = repeated_place(alloc, area)?;
    let version = repeated_version(alloc, area)?;
    let block = repeated_block(alloc, area)?;
    let id = repeated_id(alloc, area)?;
    let name = repeated_name(alloc, area)?;
    Ok(earlier(earlier(earlier(earlier(place, version), block), id), name))
}

fn first_broken(
    alloc: Global,
    blocks: u32,
    records: u32,
    area: &[Option<Record>],
) -> Result<Option<usize>, NoMemory>
    ensures { IfOk result (IsFirst (breaks blocks records area.now) (length area.now)) }
{
    let alone = first_alone(blocks, records, area);
    let crowd = first_crowd(area);
    let again = first_again(alloc, area)?;
    let known = Known::of(alloc, area)?;
    let whole = first_whole(&known, area);
    Ok(earlier(earlier(alone, crowd), earlier(again, whole)))
}

/// The lowest slot that breaks a rule of a table with so many data blocks and records. Slots are
/// counted from 0 through the table's blocks.
pub fn first_damage(
    alloc: Global,
    blocks: u32,
    records: u32,
    area: &[Option<Record>],
) -> Result<Option<u32>, NoMemory>
    requires { length area.now ≤ 2 ^ 32 }
    ensures { IfOk result (λ found. found ≡ damage blocks records area.now) }
{
    match first_broken(alloc, blocks, records, area)? {
        Some(slot) => Ok(Some(slot as u32)),
        None => Ok(None),
    }
}
