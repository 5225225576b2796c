ghost use Rattle.std.specs.Prelude.{◌≡◌, ◌≤◌, ◌<◌, ◌+◌, ◌⊎◌, ◌++◌, [], IfSome, IsSome, None, true, vec_len, vec_capacity};
ghost use Rattle.std.specs.FinMap as map;
ghost use Rattle.ck_model.specs.Held.{IsEntry};
ghost use Rattle.ck_model.specs.Table.{column, newer, spare_count, with_entry};
ghost use Rattle.ck_model.specs.Chain.{is_live_data, present};
ghost use Rattle.ck_model.specs.Rules.{IsOrderly};
ghost use Rattle.ck_chain.specs.Named.{block_of};
ghost use Rattle.ck_restore.specs.Entries.{entries_from};
ghost use Rattle.ck_restore.specs.Freed.{listed, Gains};
ghost use Rattle.ck_restore.specs.Older.{LeavesOlder, OlderNeeded};
ghost use Rattle.ck_restore.specs.Promoted.{promoted};

use crate::older::tidy_older;
use ck_model::{Held, Key, Meta};

// An absent says that there is no cell.
fn present(held: Option<Held>) -> Option<Held>
    ensures { result ≡ present held }
{
    match held {
        Some(Held::Absent) => None,
        other => other,
    }
}

fn block_of(held: Option<Held>) -> Option<u32>
    ensures { result ≡ block_of held }
{
    match held {
        Some(Held::Extent(_, block)) => Some(block),
        _ => None,
    }
}

fn push_block(freed: &mut Vec<u32>, block: Option<u32>)
    requires { vec_len freed.old < vec_capacity freed.old }
    ensures items { freed.new.items ≡ freed.old.items ++ listed block }
    ensures len { vec_len freed.new ≤ vec_len freed.old + 1 }
    ensures capacity { vec_capacity freed.new ≡ vec_capacity freed.old }
{
    if let Some(block) = block {
        freed.push_reserved(block);
    }
}

// What the primary holds at the key, or that it holds nothing.
fn set_primary<M: Meta>(meta: &mut M, key: &Key, held: Option<Held>)
    requires room { 0 < spare_count (M.table meta.old) }
    requires entry { IfSome held (IsEntry key.now) }
    ensures { M.table meta.new ≡ with_entry (M.table meta.old) 0 key.now held }
{
    match held {
        Some(held) => meta.put(0, key, held),
        None => meta.del(0, key),
    }
}

// Moves the fileset's entry into the primary, in the place of the one that is there.
fn promote<M: Meta>(meta: &mut M, fs: u32, key: &Key)
    requires { IsSome (column (M.table meta.old) key.now fs) }
    ensures { M.table meta.new ≡ promoted (M.table meta.old) fs key.now }
{
    let held = meta.get(fs, key);
    meta.del(fs, key);
    set_primary(meta, key, present(held));
}

/// Moves an entry of the newest fileset into the primary, and tidies the checkpoints that are older
/// than this one at its key. The data block that the primary named there is given back.
pub fn move_entry<M: Meta>(meta: &mut M, id: u32, fs: u32, key: &Key, freed: &mut Vec<u32>)
    requires at_least { id ≤ fs }
    requires stands { IsSome (map.get (M.table meta.old).filesets fs) }
    requires newest { newer (M.table meta.old) fs ≡ [] }
    requires holds { is_live_data (M.table meta.old) id ≡ true }
    requires held { IsSome (column (M.table meta.old) key.now fs) }
    requires orderly { IsOrderly (M.table meta.old) }
    requires needed { OlderNeeded (M.table meta.old) id }
    requires room { vec_len freed.old < vec_capacity freed.old }
    ensures older { LeavesOlder id (M.table meta.old) (M.table meta.new) }
    ensures filesets { (M.table meta.new).filesets ≡ (M.table meta.old).filesets }
    ensures orderly { IsOrderly (M.table meta.new) }
    ensures needed { OlderNeeded (M.table meta.new) id }
    ensures gains { Gains freed.old.items freed.new.items (M.table meta.old) (M.table meta.new) }
    ensures entries { entries_from (M.table meta.new) id + 1
        ≡ entries_from (M.table meta.old) id }
    ensures len { vec_len freed.new ≤ vec_len freed.old + 1 }
    ensures capacity { vec_capacity freed.new ≡ vec_capacity freed.old }
{
    let old = meta.get(0, key);
    promote(meta, fs, key);
    tidy_older(meta, id, key);
    push_block(freed, block_of(old));
}
