ghost use Rattle.std.specs.Prelude.{◌≡◌, ◌≤◌, ◌<◌, ◌+◌, [], ℕ, IsSome, None, true, nat_lt, if◌then◌else◌, vec_len, vec_capacity};
ghost use Rattle.std.specs.FinMap as map;
ghost use Rattle.ck_model.specs.declared.key.Key.{Key};
ghost use Rattle.ck_model.specs.Table.{column, newer, record_count};
ghost use Rattle.ck_model.specs.Chain.{is_live, is_live_data, seen, value_of};
ghost use Rattle.ck_model.specs.Rules.{IsOrderly, IsSound};
ghost use Rattle.ck_restore.specs.Entries.{entries_from};
ghost use Rattle.ck_restore.specs.Freed.{Gains, GainsFreed};
ghost use Rattle.ck_restore.specs.Older.{LeavesOlder, OlderNeeded};

use crate::newest::newest_above;
use crate::primary::move_entry;
use ck_chain::next_entry;
use ck_model::Meta;

// Moves all entries of the newest fileset into the primary.
fn move_entries<M: Meta>(meta: &mut M, id: u32, fs: u32, freed: &mut Vec<u32>)
    requires at_least { id ≤ fs }
    requires stands { IsSome (map.get (M.table meta.old).filesets fs) }
    requires newest { newer (M.table meta.old) fs ≡ [] }
    requires holds { is_live_data (M.table meta.old) id ≡ true }
    requires orderly { IsOrderly (M.table meta.old) }
    requires needed { OlderNeeded (M.table meta.old) id }
    requires room { vec_len freed.old + entries_from (M.table meta.old) id
        ≤ vec_capacity freed.old }
    ensures older { LeavesOlder id (M.table meta.old) (M.table meta.new) }
    ensures filesets { (M.table meta.new).filesets ≡ (M.table meta.old).filesets }
    ensures empty { (key : Key) → column (M.table meta.new) key fs ≡ None }
    ensures orderly { IsOrderly (M.table meta.new) }
    ensures needed { OlderNeeded (M.table meta.new) id }
    ensures gains { Gains freed.old.items freed.new.items (M.table meta.old) (M.table meta.new) }
    ensures room { vec_len freed.new + entries_from (M.table meta.new) id
        ≤ vec_capacity freed.new }
    ensures capacity { vec_capacity freed.new ≡ vec_capacity freed.old }
{
    while let Some(key) = next_entry(meta, fs, None) {
        move_entry(meta, id, fs, &key, freed);
    }
}

// Moves the newest fileset's entries into the primary, and takes its record away.
fn remove_newest<M: Meta>(meta: &mut M, id: u32, fs: u32, freed: &mut Vec<u32>)
    requires above { id < fs }
    requires stands { IsSome (map.get (M.table meta.old).filesets fs) }
    requires newest { newer (M.table meta.old) fs ≡ [] }
    requires holds { is_live_data (M.table meta.old) id ≡ true }
    requires orderly { IsOrderly (M.table meta.old) }
    requires needed { OlderNeeded (M.table meta.old) id }
    requires room { vec_len freed.old + entries_from (M.table meta.old) id
        ≤ vec_capacity freed.old }
    ensures older { LeavesOlder id (M.table meta.old) (M.table meta.new) }
    ensures fewer { map.len (M.table meta.new).filesets < map.len (M.table meta.old).filesets }
    ensures orderly { IsOrderly (M.table meta.new) }
    ensures needed { OlderNeeded (M.table meta.new) id }
    ensures gains { Gains freed.old.items freed.new.items (M.table meta.old) (M.table meta.new) }
    ensures room { vec_len freed.new + entries_from (M.table meta.new) id
        ≤ vec_capacity freed.new }
    ensures capacity { vec_capacity freed.new ≡ vec_capacity freed.old }
{
    move_entries(meta, id, fs, freed);
    meta.del_fileset(fs);
}

// Removes all filesets that are newer than the checkpoint, the newest of them first.
fn remove_newer<M: Meta>(meta: &mut M, id: u32, freed: &mut Vec<u32>)
    requires holds { is_live_data (M.table meta.old) id ≡ true }
    requires orderly { IsOrderly (M.table meta.old) }
    requires needed { OlderNeeded (M.table meta.old) id }
    requires room { vec_len freed.old + entries_from (M.table meta.old) id
        ≤ vec_capacity freed.old }
    ensures older { LeavesOlder id (M.table meta.old) (M.table meta.new) }
    ensures none { newer (M.table meta.new) id ≡ [] }
    ensures orderly { IsOrderly (M.table meta.new) }
    ensures needed { OlderNeeded (M.table meta.new) id }
    ensures gains { Gains freed.old.items freed.new.items (M.table meta.old) (M.table meta.new) }
    ensures room { vec_len freed.new + entries_from (M.table meta.new) id
        ≤ vec_capacity freed.new }
    ensures capacity { vec_capacity freed.new ≡ vec_capacity freed.old }
{
    while let Some(fs) = newest_above(meta, id) {
        remove_newest(meta, id, fs, freed);
    }
}

/// The checkpoint's contents become the primary's. It and all newer ones leave with their entries,
/// those that are gone too.
///
/// The data blocks that nothing names any more are appended to `freed`. No memory is taken.
pub fn restore<M: Meta>(meta: &mut M, id: u32, freed: &mut Vec<u32>)
    requires holds { is_live_data (M.table meta.old) id ≡ true }
    requires sound { IsSound (M.table meta.old) }
    requires room { vec_len freed.old + entries_from (M.table meta.old) id
        ≤ vec_capacity freed.old }
    ensures primary { (key : Key) → column (M.table meta.new) key 0
        ≡ value_of (M.table meta.old) id key }
    // It and all newer ones leave, and the older ones' records stay.
    ensures filesets { (fs : ℕ) → map.get (M.table meta.new).filesets fs
        ≡ (if nat_lt fs id then map.get (M.table meta.old).filesets fs else None) }
    ensures entries { (fs : ℕ) (key : Key) → id ≤ fs → column (M.table meta.new) key fs ≡ None }
    // Who reads an older one sees what it saw.
    ensures kept { (fs : ℕ) (key : Key) → is_live (M.table meta.old) fs ≡ true → fs < id
        → seen (M.table meta.new) fs key ≡ seen (M.table meta.old) fs key }
    ensures counters { (M.table meta.new).counters ≡ (M.table meta.old).counters }
    ensures blocks { (M.table meta.new).blocks ≡ (M.table meta.old).blocks }
    ensures limit { (M.table meta.new).records ≡ (M.table meta.old).records }
    ensures records { record_count (M.table meta.new) ≤ record_count (M.table meta.old) }
    ensures sound { IsSound (M.table meta.new) }
    ensures freed { GainsFreed freed.old.items freed.new.items (M.table meta.old)
        (M.table meta.new) }
    ensures capacity { vec_capacity freed.new ≡ vec_capacity freed.old }
{
    remove_newer(meta, id, freed);
    move_entries(meta, id, id, freed);
    meta.del_fileset(id);
}
