ghost use Rattle.std.specs.Prelude.{◌≡◌, ◌<◌, true, false, Some, IsSome, is_some, ◌≢◌};
ghost use Rattle.std.specs.BTreeMap as tree;
ghost use Rattle.ck_area.specs.Known.{column_order, IsFirstBehind, IsNewerHolder, IsNextHolder};

use ck_model::{Held, Key};
use std::collections::BTreeMap;
use std::ops::Bound;

/// The first entry behind a place, in the order by keys.
fn first_behind(
    entries: &BTreeMap<(Key, u32), Held>,
    place: (Key, u32),
) -> Option<((Key, u32), Held)>
    ensures { IsFirstBehind (tree.get column_order entries.now) place result }
{
    let mut behind = entries.range((Bound::Excluded(place), Bound::Unbounded));
    match behind.next() {
        Some((found, held)) => Some((*found, *held)),
        None => None,
    }
}

fn newer_holder(
    entries: &BTreeMap<(Key, u32), Held>,
    fileset: u32,
    key: &Key,
) -> Option<(u32, Held)>
    ensures { IsNewerHolder (λ id. tree.get column_order entries.now (key.now, id)) fileset result }
{
    match first_behind(entries, (*key, fileset)) {
        Some((place, held)) => {
            if place.0 == *key {
                Some((place.1, held))
            } else {
                None
            }
        }
        None => None,
    }
}

/// The entry at the key of the first fileset newer than this one that has one, or else of the
/// primary.
pub fn next_holder(
    entries: &BTreeMap<(Key, u32), Held>,
    fileset: u32,
    key: &Key,
) -> Option<(u32, Held)>
    ensures { IsNextHolder (λ id. tree.get column_order entries.now (key.now, id)) fileset result }
{
    if let Some(holder) = newer_holder(entries, fileset, key) {
        return Some(holder);
    }
    let held = entries.get(&(*key, 0))?;
    Some((0, *held))
}
