ghost use Rattle.std.specs.Prelude.{◌≡◌, ◌↔◌, IfNone, IfSome, IsNone, IsSomeAnd, None, true};
ghost use Rattle.ck_model.specs.Chain.{as_mark, is_live};
ghost use Rattle.ck_model.specs.Rules.{block_in, IsSound};
ghost use Rattle.ck_nodata.specs.StripItem.{is_unstripped, strip_in};
ghost use Rattle.ck_nodata.specs.Stripped.{IsStrip, IsThrough};

use crate::item::{StripItem, strip_in};
use ck_model::{Freed, Held, Meta};

// A data block as a mark.
fn as_mark(held: Held) -> Held
    ensures { result ≡ as_mark held }
{
    match held {
        Held::Extent(stamp, _) => Held::Mark(stamp),
        other => other,
    }
}

fn block_in(held: Held) -> Option<u32>
    ensures { result ≡ block_in held }
{
    match held {
        Held::Extent(_, block) => Some(block),
        _ => None,
    }
}

/// Makes a data block of a checkpoint that keeps no data a mark, and gives the block back, which nothing
/// names any more. No memory is taken.
pub fn strip<M: Meta>(meta: &mut M, item: StripItem) -> Freed
    requires unstripped { is_unstripped (M.table meta.old) item.id item.key ≡ true }
    requires sound { IsSound (M.table meta.old) }
    ensures { IsStrip (M.table meta.old) (M.table meta.new) item result }
{
    let StripItem { id, key } = item;
    let held = meta.get(id, &key).unwrap();
    meta.put(id, &key, as_mark(held));
    Freed {
        block: block_in(held),
    }
}

/// Strips the first data block of this checkpoint, unless it keeps data or has none.
pub fn strip_one<M: Meta>(meta: &mut M, id: u32) -> Option<Freed>
    requires live { is_live (M.table meta.old) id ≡ true }
    requires sound { IsSound (M.table meta.old) }
    ensures none { IsNone result ↔ IsThrough (M.table meta.old) id }
    ensures untouched { IfNone result (M.table meta.new ≡ M.table meta.old) }
    ensures some { IfSome result (λ freed.
        IsSomeAnd (strip_in (M.table meta.old) id None) (λ item.
        IsStrip (M.table meta.old) (M.table meta.new) item freed)) }
{
    let item = strip_in(meta, id, None)?;
    Some(strip(meta, item))
}
