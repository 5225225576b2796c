ghost use Rattle.std.specs.Prelude.{◌≡◌, ◌⊎◌, IsSome};
ghost use Rattle.std.specs.Option.{option_copied};
ghost use Rattle.std.specs.FinMap as map;
ghost use Rattle.ck_changed.specs.Difference.{
  differs_at,
  value_from,
  values_differ,
  version,
  IsNextDifference,
};

use crate::candidate::next_candidate;
use ck_chain::value;
use ck_model::{Held, Key, Meta};

fn version(held: Held) -> u64
    ensures { result ≡ version held }
{
    match held {
        Held::Absent => 0,
        Held::Plain(stamp, _) => stamp,
        Held::Extent(stamp, _) => stamp,
        Held::Mark(stamp) => stamp,
    }
}

fn values_differ(a: Option<Held>, b: Option<Held>) -> bool
    ensures { result ≡ values_differ a b }
{
    match (a, b) {
        (None, None) => false,
        (Some(x), Some(y)) => version(x) != version(y),
        (Some(_), None) => true,
        (None, Some(_)) => true,
    }
}

fn value_from<M: Meta>(meta: &M, from: u32, key: &Key) -> Option<Held>
    ensures { result ≡ value_from (M.table meta.now) from key.now }
{
    if from == 0 {
        None
    } else {
        value(meta, from, key)
    }
}

/// The next key behind `after`, or the least of all, at which two checkpoints differ in presence or
/// stamp, and what the second one has there. `from` 0 stands for an empty map.
pub fn next_difference<M: Meta>(
    meta: &M,
    from: u32,
    to: u32,
    after: Option<&Key>,
) -> Option<(Key, Option<Held>)>
    requires from { (from ≡ 0) ⊎ IsSome (map.get (M.table meta.now).filesets from) }
    requires to { IsSome (map.get (M.table meta.now).filesets to) }
    ensures { IsNextDifference (M.table meta.now) from to (option_copied after.entry) result }
{
    let mut here = next_candidate(meta, from, to, after);
    while let Some(key) = here {
        let new = value(meta, to, &key);
        if values_differ(value_from(meta, from, &key), new) {
            return Some((key, new));
        }
        here = next_candidate(meta, from, to, Some(&key));
    }
    None
}
