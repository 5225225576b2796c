ghost use Rattle.std.specs.Prelude.{◌≡◌, ◌<◌, true};
ghost use Rattle.ck_model.specs.Chain.{is_live};
ghost use Rattle.ck_model.specs.Rules.{IsOrderly};
ghost use Rattle.ck_restore.specs.Entries.{IsNextBelow};
ghost use Rattle.ck_restore.specs.Older.{LeavesTidied, NeededAt, OlderNeeded, OthersNeeded};

use ck_chain::{is_live, tidy};
use ck_model::{Key, Meta};

// The next fileset behind the first of these two that is older than the second.
fn next_below<M: Meta>(meta: &M, at: u32, id: u32) -> Option<u32>
    ensures { IsNextBelow (M.table meta.now) at id result }
{
    let fs = meta.next_fileset(at)?;
    if fs < id { Some(fs) } else { None }
}

// Tidies the checkpoint at the key, unless it is gone.
fn tidy_live<M: Meta>(meta: &mut M, id: u32, fs: u32, key: &Key)
    requires older { fs < id }
    requires orderly { IsOrderly (M.table meta.old) }
    ensures tidied { LeavesTidied id (M.table meta.old) (M.table meta.new) }
    ensures here { is_live (M.table meta.old) fs ≡ true → NeededAt (M.table meta.new) key.now fs }
{
    if is_live(meta, fs) {
        tidy(meta, fs, key);
    }
}

/// Tidies the checkpoints that are older than this one at the key.
pub fn tidy_older<M: Meta>(meta: &mut M, id: u32, key: &Key)
    requires orderly { IsOrderly (M.table meta.old) }
    requires others { OthersNeeded (M.table meta.old) id key.now }
    ensures tidied { LeavesTidied id (M.table meta.old) (M.table meta.new) }
    ensures needed { OlderNeeded (M.table meta.new) id }
{
    let mut at = 0;
    while let Some(fs) = next_below(meta, at, id) {
        tidy_live(meta, id, fs, key);
        at = fs;
    }
}
