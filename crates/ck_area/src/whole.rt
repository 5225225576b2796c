ghost use Rattle.std.specs.Prelude.{◌≡◌, ◌&&◌, List, ℕ, length, not, nat_eq, is_some};
ghost use Rattle.std.specs.FinMap as map;
ghost use Rattle.ck_model.specs.declared.checkpoint.Fileset.{Fileset};
ghost use Rattle.ck_model.specs.Table.{Table};
ghost use Rattle.ck_model.specs.Chain.{is_live, is_gone};
ghost use Rattle.ck_area.specs.Area.{slot_at};
ghost use Rattle.ck_area.specs.Damage.{is_absent, is_needed_by, is_needless, is_misplaced, breaks_whole};
ghost use Rattle.ck_area.specs.Firsts.{IsFirst};
ghost use Rattle.ck_area.specs.Known.{Knows, is_from};
ghost use Rattle.ck_area.specs.Split.{breaks_table};

use crate::holder::next_holder;
use crate::known::Known;
use ck_model::{Held, Key};
use ck_record::Record;

fn is_live(known: &Known, fileset: u32) -> bool
    ensures { (t : Table) (filesets : List (ℕ × Fileset)) → Knows t filesets known.now
        → result ≡ is_live t fileset }
{
    match known.filesets.get(&fileset) {
        Some(found) => !found.gone,
        None => false,
    }
}

fn is_gone(known: &Known, fileset: u32) -> bool
    ensures { (t : Table) (filesets : List (ℕ × Fileset)) → Knows t filesets known.now
        → result ≡ is_gone t fileset }
{
    match known.filesets.get(&fileset) {
        Some(found) => found.gone,
        None => false,
    }
}

fn is_absent(held: &Held) -> bool
    ensures { result ≡ is_absent held.now }
{
    matches!(held, Held::Absent)
}

fn is_needed_by(known: &Known, holder: Option<(u32, Held)>) -> bool
    ensures { (t : Table) (filesets : List (ℕ × Fileset)) → Knows t filesets known.now
        → result ≡ is_needed_by t holder }
{
    match holder {
        Some((fileset, held)) => is_gone(known, fileset) || !is_absent(&held),
        None => false,
    }
}

fn is_needless(known: &Known, fileset: u32, key: &Key) -> bool
    ensures { (t : Table) (filesets : List (ℕ × Fileset)) → Knows t filesets known.now
        → result ≡ is_needless t fileset key.now }
{
    let holder = next_holder(&known.entries, fileset, key);
    is_live(known, fileset) && !is_needed_by(known, holder)
}

fn is_upto(least: Option<u32>, fileset: u32) -> bool
    ensures { result ≡ is_from least fileset }
{
    match least {
        Some(least) => least <= fileset,
        None => false,
    }
}

fn is_misplaced(known: &Known, fileset: u32, key: &Key, held: &Held) -> bool
    ensures { (t : Table) (filesets : List (ℕ × Fileset)) → Knows t filesets known.now
        → result ≡ is_misplaced t filesets fileset key.now held.now }
{
    match held {
        Held::Absent => fileset == 0 || is_needless(known, fileset, key),
        Held::Plain(..) | Held::Extent(..) => false,
        Held::Mark(_) => fileset == 0 || is_upto(known.least_data, fileset),
    }
}

fn is_homeless(known: &Known, fileset: u32) -> bool
    ensures { (t : Table) (filesets : List (ℕ × Fileset)) → Knows t filesets known.now
        → result ≡ (not (nat_eq fileset 0) && not (is_some (map.get t.filesets fileset))) }
{
    fileset != 0 && !known.filesets.contains_key(&fileset)
}

fn breaks_whole(known: &Known, fileset: u32, key: &Key, held: &Held) -> bool
    ensures { (t : Table) (filesets : List (ℕ × Fileset)) → Knows t filesets known.now
        → result ≡ breaks_whole t filesets fileset key.now held.now }
{
    is_homeless(known, fileset) || is_misplaced(known, fileset, key, held)
}

fn breaks_table(known: &Known, slot: &Option<Record>) -> bool
    ensures { (t : Table) (filesets : List (ℕ × Fileset)) → Knows t filesets known.now
        → result ≡ breaks_table t filesets slot.now }
{
    match slot {
        Some(Record::Entry(fileset, key, held)) => breaks_whole(known, *fileset, key, held),
        _ => false,
    }
}

/// The first slot with an entry that breaks a rule on the whole table.
pub fn first_whole(known: &Known, area: &[Option<Record>]) -> Option<usize>
    ensures { (t : Table) (filesets : List (ℕ × Fileset)) → Knows t filesets known.now
        → IsFirst (λ k. breaks_table t filesets (slot_at area.now k)) (length area.now) result }
{
    for (at, slot) in area.iter().enumerate() {
        if breaks_table(known, slot) {
            return Some(at);
        }
    }
    None
}
