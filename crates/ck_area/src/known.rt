ghost use Rattle.std.specs.Prelude.{◌≡◌, ◌||◌, ℕ, IfOk, OnOk, List, if◌then◌else◌, Some, None};
ghost use Rattle.std.specs.Option.{option_or};
ghost use Rattle.std.specs.Ordering.{nat_cmp, eq_by_cmp};
ghost use Rattle.std.specs.FinMap.{find};
ghost use Rattle.std.specs.BTreeMap as tree;
ghost use Rattle.ck_model.specs.declared.key.Key.{Key};
ghost use Rattle.ck_area.specs.Area.{entries_by, entries_in, filesets_by, filesets_in};
ghost use Rattle.ck_area.specs.Damage.{data_upto};
ghost use Rattle.ck_area.specs.Known.{column_order, is_home, found_at_home, is_from};

use ck_model::{Fileset, Held, Key, Kind, NoMemory};
use ck_record::Record;
use std::alloc::Global;
use std::collections::BTreeMap;

/// What the rules on a whole table look at.
#[derive(Drop)]
pub struct Known {
    /// By their ids. Of several with one id the one in the lowest slot.
    pub filesets: BTreeMap<u32, Fileset>,
    /// By their keys and filesets, where the fileset is one of the table. Of several at one place
    /// the one in the lowest slot.
    pub entries: BTreeMap<(Key, u32), Held>,
    /// The least id of a data checkpoint that isn't gone.
    pub least_data: Option<u32>,
}

fn note_fileset(known: &mut BTreeMap<u32, Fileset>, slot: &Option<Record>) -> Result<(), NoMemory>
    ensures { OnOk result ((id : ℕ) → tree.get nat_cmp known.new id
        ≡ option_or (tree.get nat_cmp known.old id) (find nat_cmp id (filesets_by slot.now))) }
{
    if let Some(Record::Fileset(id, fileset)) = slot {
        if !known.contains_key(id) {
            known.insert(*id, *fileset)?;
        }
    }
    Ok(())
}

/// The checkpoints of a table by their ids: of several with one id, that in the lowest slot.
fn filesets_in(alloc: Global, area: &[Option<Record>]) -> Result<BTreeMap<u32, Fileset>, NoMemory>
    ensures { IfOk result (λ known. (id : ℕ) → tree.get nat_cmp known id ≡ find nat_cmp id (filesets_in area.now)) }
{
    let mut known = BTreeMap::new(alloc);
    for slot in area {
        note_fileset(&mut known, slot)?;
    }
    Ok(known)
}

fn is_home(filesets: &BTreeMap<u32, Fileset>, fileset: u32) -> bool
    ensures { result ≡ is_home (tree.get nat_cmp filesets.now) fileset }
{
    fileset == 0 || filesets.contains_key(&fileset)
}

fn add(
    known: &mut BTreeMap<(Key, u32), Held>,
    place: (Key, u32),
    held: Held,
) -> Result<(), NoMemory>
    ensures { OnOk result ((q : Key × ℕ) → tree.get column_order known.new q
        ≡ option_or (tree.get column_order known.old q)
        (if eq_by_cmp column_order q place then Some held else None)) }
{
    if !known.contains_key(&place) {
        known.insert(place, held)?;
    }
    Ok(())
}

fn note_entry(
    known: &mut BTreeMap<(Key, u32), Held>,
    filesets: &BTreeMap<u32, Fileset>,
    slot: &Option<Record>,
) -> Result<(), NoMemory>
    ensures { OnOk result ((fs : ℕ) (key : Key) → tree.get column_order known.new (key, fs)
        ≡ option_or (tree.get column_order known.old (key, fs))
        (found_at_home (tree.get nat_cmp filesets.now) (entries_by slot.now) fs key)) }
{
    match slot {
        Some(Record::Entry(fileset, key, held)) if is_home(filesets, *fileset) => {
            add(known, (*key, *fileset), *held)
        }
        _ => Ok(()),
    }
}

/// The entries of a table's filesets by their keys: of several at one place, that in the lowest slot.
fn entries_in(
    alloc: Global,
    filesets: &BTreeMap<u32, Fileset>,
    area: &[Option<Record>],
) -> Result<BTreeMap<(Key, u32), Held>, NoMemory>
    ensures { IfOk result (λ known. (fs : ℕ) (key : Key) → tree.get column_order known (key, fs)
        ≡ found_at_home (tree.get nat_cmp filesets.now) (entries_in area.now) fs key) }
{
    let mut known = BTreeMap::new(alloc);
    for slot in area {
        note_entry(&mut known, filesets, slot)?;
    }
    Ok(known)
}

fn data_id(slot: &Option<Record>) -> Option<u32>
    ensures { (fs : ℕ) → data_upto (filesets_by slot.now) fs ≡ is_from result fs }
{
    match slot {
        Some(Record::Fileset(id, fileset))
            if !fileset.gone && matches!(fileset.kind, Kind::Keeping) => { Some(*id) }
        _ => None,
    }
}

fn lower(a: Option<u32>, b: Option<u32>) -> Option<u32>
    ensures { (n : ℕ) → is_from result n ≡ (is_from a n || is_from b n) }
{
    match (a, b) {
        (Some(a), Some(b)) => Some(a.min(b)),
        (Some(a), None) => Some(a),
        (None, b) => b,
    }
}

/// The least id of a data checkpoint that isn't gone.
fn least_data(area: &[Option<Record>]) -> Option<u32>
    ensures { (fs : ℕ) → data_upto (filesets_in area.now) fs ≡ is_from result fs }
{
    let mut least = None;
    for slot in area {
        least = lower(least, data_id(slot));
    }
    least
}

impl Known {
    ghost use Rattle.ck_area.specs.Area.{table_of};
    ghost use Rattle.ck_area.specs.Known.{Knows};

    /// What there is to know of the table in these slots.
    pub fn of(alloc: Global, area: &[Option<Record>]) -> Result<Known, NoMemory>
        ensures { IfOk result (λ known. (blocks records : ℕ)
            → Knows (table_of blocks records area.now) (filesets_in area.now) known) }
    {
        let filesets = filesets_in(alloc, area)?;
        let entries = entries_in(alloc, &filesets, area)?;
        Ok(Known {
            filesets,
            entries,
            least_data: least_data(area),
        })
    }
}
