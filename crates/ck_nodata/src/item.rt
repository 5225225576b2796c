ghost use Rattle.std.specs.Prelude.{◌≡◌, ℕ, IfNone, IfSome, None, false, true};
ghost use Rattle.ck_model.specs.declared.key.Key.{Key};
ghost use Rattle.ck_model.specs.Table.{newer};
ghost use Rattle.ck_model.specs.Placed.{AllStripped, NoneGone};
ghost use Rattle.ck_model.specs.Rules.{IsOrderly};
ghost use Rattle.ck_nodata.specs.StripItem.{
  drops_data,
  first_extent,
  first_strip,
  is_extent,
  is_unstripped,
  strip_in,
  strip_work_of,
  IsStrippedTo,
};

use ck_chain::{is_live, keeps};
use ck_model::{Held, Key, Meta};

/// A data block that a checkpoint holds still, though no data is kept there: the checkpoint's id, and
/// the block's key.
#[derive(Clone, Copy, Debug, PartialEq, Eq)]
pub struct StripItem {
    pub id: u32,
    pub key: Key,
}

fn is_extent(held: Option<Held>) -> bool
    ensures { result ≡ is_extent held }
{
    matches!(held, Some(Held::Extent(_, _)))
}

// Whether the checkpoint isn't gone and keeps no data.
fn drops_data<M: Meta>(meta: &M, fs: u32) -> bool
    ensures { result ≡ drops_data (M.table meta.now) fs }
{
    is_live(meta, fs) && !keeps(meta, fs)
}

// The least key behind this one at which the fileset itself has a data block.
fn first_extent<M: Meta>(meta: &M, fs: u32, mut after: Option<Key>) -> Option<Key>
    ensures { result ≡ first_extent (M.table meta.now) fs after }
{
    while let Some(key) = meta.next(fs, after.as_ref()) {
        if is_extent(meta.get(fs, &key)) {
            return Some(key);
        }
        after = Some(key);
    }
    None
}

/// The first data block behind the key that is stripped of this checkpoint.
pub fn strip_in<M: Meta>(meta: &M, id: u32, after: Option<Key>) -> Option<StripItem>
    ensures { result ≡ strip_in (M.table meta.now) id after }
{
    if !drops_data(meta, id) {
        return None;
    }
    let key = first_extent(meta, id, after)?;
    Some(StripItem { id, key })
}

// The first data block that is stripped of the checkpoints newer than this one.
fn first_strip<M: Meta>(meta: &M, mut at: u32) -> Option<StripItem>
    ensures { result ≡ first_strip (M.table meta.now) (newer (M.table meta.now) at) }
{
    while let Some(id) = meta.next_fileset(at) {
        let item = strip_in(meta, id, None);
        if item.is_some() {
            return item;
        }
        at = id;
    }
    None
}

/// What is stripped next: the first data block of the oldest checkpoint that isn't gone, keeps no data
/// and has one.
pub fn strip_work<M: Meta>(meta: &M) -> Option<StripItem>
    ensures work { result ≡ strip_work_of (M.table meta.now) }
    ensures some { IfSome result (λ item.
        is_unstripped (M.table meta.now) item.id item.key ≡ true) }
    ensures none { IfNone result ((fs : ℕ) (key : Key) →
        is_unstripped (M.table meta.now) fs key ≡ false) }
    // Where no checkpoint is gone either, data blocks are named only where data is kept.
    ensures stripped { IfNone result (IsOrderly (M.table meta.now) →
        NoneGone (M.table meta.now) → AllStripped (M.table meta.now)) }
{
    first_strip(meta, 0)
}

/// The same, where nothing is left to strip up to this one: what lies before it isn't looked at again.
pub fn strip_work_behind<M: Meta>(meta: &M, last: StripItem) -> Option<StripItem>
    requires { IsStrippedTo (M.table meta.now) last }
    ensures { result ≡ strip_work_of (M.table meta.now) }
{
    let item = strip_in(meta, last.id, Some(last.key));
    if item.is_some() {
        return item;
    }
    first_strip(meta, last.id)
}
