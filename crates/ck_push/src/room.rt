ghost use Rattle.std.specs.Prelude.{◌≡◌, ◌-◌, ◌≤◌, ◌<◌, ◌^◌, ◌&&◌, length, is_some, not};
ghost use Rattle.std.specs.List.{list_any};
ghost use Rattle.ck_model.specs.Table.{column, newer};
ghost use Rattle.ck_model.specs.Chain.{newest_live_of};
ghost use Rattle.ck_chain.specs.Changes.{is_deletion, is_write, key_of};
ghost use Rattle.ck_push.specs.Changed.{push_into};
ghost use Rattle.ck_push.specs.Growth.{absent_goes, gain, gains, loss, losses, one_if, write_count};

use crate::push::key_of;
use ck_chain::{is_covered, newest_live};
use ck_model::{Change, Cost, Held, Key, Meta};

fn one_if(holds: bool) -> u32
    ensures { result ≡ one_if holds }
{
    if holds { 1 } else { 0 }
}

fn is_write(item: &Change) -> bool
    ensures { result ≡ is_write item.now }
{
    matches!(item, Change::Write(_, _, _))
}

fn is_deletion(item: &Change) -> bool
    ensures { result ≡ is_deletion item.now }
{
    matches!(item, Change::Del(_))
}

// Whether the primary's entry goes into the newest checkpoint.
fn is_pushed<M: Meta>(meta: &M, key: &Key, newest: Option<u32>) -> bool
    ensures { result ≡ is_some (push_into (M.table meta.now) key.now newest) }
{
    match newest {
        None => false,
        Some(fs) => !is_covered(meta, fs, key),
    }
}

// Whether a checkpoint newer than this one has an entry at the key.
fn is_newer_covered<M: Meta>(meta: &M, fs: u32, key: &Key) -> bool
    ensures { result
        ≡ list_any (λ id. is_some (column (M.table meta.now) key.now id))
        (newer (M.table meta.now) fs) }
{
    match meta.next_fileset(fs) {
        None => false,
        Some(id) => is_covered(meta, id, key),
    }
}

// Whether the newest checkpoint has an absent that goes with the primary's entry.
fn absent_goes<M: Meta>(meta: &M, key: &Key, newest: Option<u32>) -> bool
    ensures { result ≡ absent_goes (M.table meta.now) key.now newest }
{
    match newest {
        None => false,
        Some(fs) => { meta.get(fs, key) == Some(Held::Absent) && !is_newer_covered(meta, fs, key) }
    }
}

fn gain<M: Meta>(meta: &M, item: &Change, newest: Option<u32>) -> u32
    requires { newest ≡ newest_live_of (M.table meta.now) }
    ensures gain { result ≡ gain (M.table meta.now) item.now }
    ensures few { result ≤ 2 }
{
    let key = key_of(item);
    let pushes = is_pushed(meta, &key, newest);
    let adds = !is_deletion(item) && meta.get(0, &key).is_none();
    one_if(pushes) + one_if(adds)
}

fn loss<M: Meta>(meta: &M, item: &Change, newest: Option<u32>) -> u32
    requires { newest ≡ newest_live_of (M.table meta.now) }
    ensures loss { result ≡ loss (M.table meta.now) item.now }
    ensures few { result ≤ 2 }
{
    let deletes = is_deletion(item);
    let goes = deletes && absent_goes(meta, &key_of(item), newest);
    one_if(deletes) + one_if(goes)
}

/// What changes of different keys take together: data blocks, and records beside those that stand.
/// Where the deletions come first, each change has room in its turn once there is room for all.
pub fn cost<M: Meta>(meta: &M, changes: &[Change]) -> Cost
    requires { length changes.now < 2 ^ 31 }
    ensures blocks { result.blocks ≡ write_count changes.now }
    ensures records { result.records
        ≡ gains (M.table meta.now) changes.now - losses (M.table meta.now) changes.now }
{
    let newest = newest_live(meta);
    let mut blocks = 0;
    let mut gains: u32 = 0;
    let mut losses = 0;
    for item in changes {
        blocks += one_if(is_write(item));
        gains += gain(meta, item, newest);
        losses += loss(meta, item, newest);
    }
    Cost {
        blocks,
        records: gains.saturating_sub(losses),
    }
}
