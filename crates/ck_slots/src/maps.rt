// The parts of a table, from the slots that were read. Where several slots have the same place, the
// lowest counts, so they are put from the last to the first.
ghost use Rattle.std.specs.Prelude.{◌≡◌, ◌≤◌, ◌+◌, ◌∷◌, [], true, IfOk, MatchOption, length, vec_capacity};
ghost use Rattle.std.specs.Ordering.{nat_cmp};
ghost use Rattle.std.specs.Option.{unwrap_or};
ghost use Rattle.std.specs.FinMap.{is_sorted};
ghost use Rattle.std.specs.FinMap as map;
ghost use Rattle.ck_model.specs.Ordered.{Edits};
ghost use Rattle.ck_area.specs.Area.{entries_by, entries_in, filesets_by, filesets_in, counters_in, no_counters};
ghost use Rattle.ck_slots.specs.Entries as in_slots;
ghost use Rattle.ck_slots.specs.Maps.{with_entries, with_filesets};
ghost use Rattle.ck_slots.specs.Recorded.{filesets_of};

use crate::entries::Entries;
use crate::filesets::set;
use ck_model::{Counters, Fileset, NoMemory};
use ck_record::Record;
use std::alloc::Global;

fn put_entry(entries: &mut Entries, slot: &Option<Record>)
    requires room { map.len (in_slots.entries_in entries.old) + length (entries_by slot.now)
        ≤ entries.old.limit }
    ensures entries { in_slots.entries_in entries.new
        ≡ with_entries (entries_by slot.now) (in_slots.entries_in entries.old) }
    ensures limit { entries.new.limit ≡ entries.old.limit }
{
    if let Some(Record::Entry(fileset, key, held)) = slot {
        entries.put(*fileset, key, *held);
    }
}

/// The entries in these slots.
pub fn entries_from(alloc: Global, limit: u32, area: &[Option<Record>]) -> Result<Entries, NoMemory>
    requires limit { limit ≤ 262144 }
    requires few { length (entries_in area.now) ≤ limit }
    ensures entries { IfOk result
        (λ entries. in_slots.entries_in entries ≡ map.from_entries (entries_in area.now)) }
    ensures limit { IfOk result (λ entries. entries.limit ≡ limit) }
{
    let mut entries = Entries::new(alloc, limit)?;
    for at in (0..area.len()).rev() {
        put_entry(&mut entries, &area[at]);
    }
    Ok(entries)
}

fn fileset_in(slot: &Option<Record>) -> Option<(u32, Fileset)>
    ensures { MatchOption result (filesets_by slot.now ≡ []) (λ e. filesets_by slot.now ≡ e ∷ []) }
{
    match slot {
        Some(Record::Fileset(id, fileset)) => Some((*id, *fileset)),
        _ => None,
    }
}

fn put_fileset(filesets: &mut Vec<(u32, Fileset)>, slot: &Option<Record>)
    requires sorted { is_sorted nat_cmp filesets.old.items ≡ true }
    requires room { map.len (filesets_of filesets.old.items) + length (filesets_by slot.now)
        ≤ vec_capacity filesets.old }
    ensures put { Edits nat_cmp filesets.new.items
        (with_filesets (filesets_by slot.now) (filesets_of filesets.old.items)) }
    ensures capacity { vec_capacity filesets.old ≤ vec_capacity filesets.new }
{
    if let Some((id, fileset)) = fileset_in(slot) {
        set(filesets, id, fileset);
    }
}

/// The checkpoints' records in these slots, in the order of their ids.
pub fn filesets_from(
    alloc: Global,
    limit: u32,
    area: &[Option<Record>],
) -> Result<Vec<(u32, Fileset)>, NoMemory>
    requires { length (filesets_in area.now) ≤ limit }
    ensures filesets { IfOk result
        (λ filesets. Edits nat_cmp filesets.items (map.from_entries (filesets_in area.now))) }
    ensures room { IfOk result (λ filesets. limit ≤ vec_capacity filesets) }
{
    let mut filesets = Vec::with_capacity(alloc, limit as usize)?;
    for at in (0..area.len()).rev() {
        put_fileset(&mut filesets, &area[at]);
    }
    Ok(filesets)
}

/// The counters in slot 0.
pub fn counters_from(area: &[Option<Record>]) -> Counters
    ensures { result ≡ unwrap_or (counters_in area.now) no_counters }
{
    match area.first() {
        Some(Some(Record::Counters(counters))) => *counters,
        _ => Counters {
            stamp: 1,
            id: 1,
            number: 1,
        },
    }
}
