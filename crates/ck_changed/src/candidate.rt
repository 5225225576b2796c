ghost use Rattle.std.specs.Prelude.{◌≡◌, ◌⊎◌, ◌<◌, IfSome, IsSome};
ghost use Rattle.std.specs.Option.{option_copied};
ghost use Rattle.std.specs.FinMap as map;
ghost use Rattle.ck_model.specs.Chain.{value_of};
ghost use Rattle.ck_chain.specs.Order.{IsNext};
ghost use Rattle.ck_changed.specs.Difference.{differs_at, values_differ, EntryBetween};

use ck_chain::{lesser, next_entry, next_in_chain};
use ck_model::{Key, Meta};

/// The next key at which the older checkpoint, or one between it and the newer one, holds
/// something. Only there can the two differ.
fn next_between<M: Meta>(meta: &M, older: u32, newer: u32, after: Option<&Key>) -> Option<Key>
    requires order { older < newer }
    requires stands { IsSome (map.get (M.table meta.now).filesets newer) }
    ensures next { let t = M.table meta.now in
        IsNext t (λ q. values_differ (value_of t older q) (value_of t newer q))
        (option_copied after.entry) result }
    ensures entry { IfSome result (EntryBetween (M.table meta.now) older newer) }
{
    let mut found = next_entry(meta, older, after);
    let mut at = older;
    while let Some(id) = meta.next_fileset(at) {
        if id >= newer {
            return found;
        }
        found = lesser(found, next_entry(meta, id, after));
        at = id;
    }
    found
}

/// The next key at which two checkpoints may differ; 0 stands for an empty map.
pub fn next_candidate<M: Meta>(meta: &M, from: u32, to: u32, after: Option<&Key>) -> Option<Key>
    requires from { (from ≡ 0) ⊎ IsSome (map.get (M.table meta.now).filesets from) }
    requires to { IsSome (map.get (M.table meta.now).filesets to) }
    ensures { IsNext (M.table meta.now) (differs_at (M.table meta.now) from to)
        (option_copied after.entry) result }
{
    if from == 0 {
        next_in_chain(meta, to, after)
    } else if from < to {
        next_between(meta, from, to, after)
    } else if to < from {
        next_between(meta, to, from, after)
    } else {
        None
    }
}
