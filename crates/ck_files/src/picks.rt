ghost use Rattle.std.specs.Prelude.{◌≡◌, None, false, true};
ghost use Rattle.ck_nodata.specs.StripItem.{IsStrippedTo};
ghost use Rattle.ck_reclaim.specs.Removable.{pick_of};
ghost use Rattle.ck_files.specs.Files.{IsOurs};
ghost use Rattle.ck_files.specs.Picks.{IsGivenUp};

use crate::strip::go_back;
use ck_model::Meta;
use ck_nodata::StripItem;
use ck_reclaim::pick;
use ck_table::mark_gone;

/// Gives up the removable checkpoint that goes first where room is wanted. It is gone at once; its entries
/// stay until steps have moved them. `false` where none is removable.
pub(crate) fn give_up_next<M: Meta>(meta: &mut M, stripped: &mut StripItem) -> bool
    requires ours { IsOurs (M.table meta.old) }
    requires stripped { IsStrippedTo (M.table meta.old) stripped.old }
    ensures given { result ≡ true → IsGivenUp (M.table meta.old) (M.table meta.new) }
    ensures none { result ≡ false → pick_of (M.table meta.old) ≡ None }
    ensures untouched { result ≡ false → M.table meta.new ≡ M.table meta.old }
    ensures ours { IsOurs (M.table meta.new) }
    ensures entries { (M.table meta.new).entries ≡ (M.table meta.old).entries }
    ensures blocks { (M.table meta.new).blocks ≡ (M.table meta.old).blocks }
    ensures records { (M.table meta.new).records ≡ (M.table meta.old).records }
    ensures stripped { IsStrippedTo (M.table meta.new) stripped.new }
{
    let Some(id) = pick(meta) else {
        return false;
    };
    mark_gone(meta, id);
    go_back(stripped, id);
    true
}
