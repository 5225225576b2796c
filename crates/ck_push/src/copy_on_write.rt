ghost use Rattle.std.specs.Prelude.{◌≤◌, ◌<◌};
ghost use Rattle.ck_model.specs.Table.{spare_count};
ghost use Rattle.ck_model.specs.Rules.{IsSound};
ghost use Rattle.ck_push.specs.Changes.{IsChange, MayChange};
ghost use Rattle.ck_push.specs.Growth.{growth};
ghost use Rattle.ck_push.specs.Released.{IsFreed};

use crate::push::{key_of, push_into, released, replace, tidy_newest, value_after};
use ck_chain::newest_live;
use ck_model::{Change, Freed, Meta};

/// Changes the primary, as the call with this stamp. What it held goes into the newest checkpoint
/// that isn't gone, unless that or a newer one has an entry at the key: as an absent where it held
/// nothing, and a data block as a mark where that checkpoint keeps no data.
///
/// Gives the data block that nothing names any more, if there is one. No memory is taken.
pub fn change<M: Meta>(meta: &mut M, item: &Change, stamp: u64) -> Freed
    requires sound { IsSound (M.table meta.old) }
    requires room { growth (M.table meta.old) item.now ≤ spare_count (M.table meta.old) }
    requires stamp { stamp < (M.table meta.old).counters.stamp }
    requires may { MayChange (M.table meta.old) item.now stamp }
    ensures changed { IsChange (M.table meta.old) item.now stamp (M.table meta.new) }
    ensures freed { IsFreed (M.table meta.old) (M.table meta.new) result }
{
    let key = key_of(item);
    let new = value_after(item, stamp);
    let newest = newest_live(meta);
    let old = meta.get(0, &key);
    let push = push_into(meta, &key, newest);
    replace(meta, &key, push, new);
    tidy_newest(meta, &key, newest);
    released(old, push)
}
