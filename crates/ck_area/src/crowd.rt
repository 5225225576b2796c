ghost use Rattle.std.specs.Prelude.{◌≡◌, ◌≤◌, length, if◌then◌else◌};
ghost use Rattle.ck_area.specs.Firsts.{IsFirst};
ghost use Rattle.ck_area.specs.Area.{filesets_by};
ghost use Rattle.ck_area.specs.Damage.{live_count};
ghost use Rattle.ck_area.specs.Split.{crowds, breaks_crowd};

use ck_record::Record;

/// So many checkpoints that aren't gone may stand in a table.
const LIVE_LIMIT: usize = 64;

fn is_live(slot: &Option<Record>) -> bool
    ensures { live_count (filesets_by slot.now) ≡ (if result then 1 else 0) }
{
    match slot {
        Some(Record::Fileset(_, fileset)) => !fileset.gone,
        _ => false,
    }
}

fn live(slot: &Option<Record>) -> usize
    ensures value { result ≡ live_count (filesets_by slot.now) }
    ensures few { result ≤ 1 }
{
    if is_live(slot) { 1 } else { 0 }
}

fn crowds(count: usize, slot: &Option<Record>) -> bool
    ensures { result ≡ crowds count slot.now }
{
    is_live(slot) && count >= LIVE_LIMIT
}

/// The first slot with a checkpoint that isn't gone, where the lower slots have 64 such.
pub fn first_crowd(area: &[Option<Record>]) -> Option<usize>
    ensures { IsFirst (breaks_crowd area.now) (length area.now) result }
{
    let mut count = 0;
    for (at, slot) in area.iter().enumerate() {
        if crowds(count, slot) {
            return Some(at);
        }
        count += live(slot);
    }
    None
}
