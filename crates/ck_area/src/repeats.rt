ghost use Rattle.std.specs.Prelude.{IfOk, length};
ghost use Rattle.std.specs.Ordering.{eq_by_cmp};
ghost use Rattle.ck_area.specs.Firsts.{IsFirst, repeats};

use ck_model::NoMemory;
use std::alloc::Global;
use std::collections::BTreeSet;

/// The first of the items that is the same as an earlier one.
pub fn first_repeat<K: Ord + Copy>(
    alloc: Global,
    items: &[Option<K>],
) -> Result<Option<usize>, NoMemory>
    ensures { IfOk result (IsFirst (repeats (eq_by_cmp K.cmp) items.now) (length items.now)) }
{
    let mut seen = BTreeSet::new(alloc);
    for (at, item) in items.iter().enumerate() {
        if let Some(item) = item {
            let is_new = seen.insert(*item)?;
            if !is_new {
                return Ok(Some(at));
            }
        }
    }
    Ok(None)
}
