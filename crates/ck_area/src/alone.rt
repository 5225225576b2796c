ghost use Rattle.std.specs.Prelude.{◌≡◌, length};
ghost use Rattle.ck_model.specs.Rules.{stamp_in, block_in};
ghost use Rattle.ck_area.specs.Area.{slot_at, counters_in};
ghost use Rattle.ck_area.specs.Damage.{is_id_past, is_stamp_past, number_in, node_in, is_number_past, is_free};
ghost use Rattle.ck_area.specs.Firsts.{IsFirst};
ghost use Rattle.ck_area.specs.Split.{is_entry_past, is_past, breaks_alone};

use ck_model::{Counters, Held, Key, Small};
use ck_record::Record;

/// The counters of a table, if slot 0 has them.
pub fn counters_in(area: &[Option<Record>]) -> Option<Counters>
    ensures { result ≡ counters_in area.now }
{
    match area.first() {
        Some(Some(Record::Counters(counters))) => Some(*counters),
        _ => None,
    }
}

fn stamp_in(held: &Held) -> Option<u64>
    ensures { result ≡ stamp_in held.now }
{
    match held {
        Held::Absent => None,
        Held::Plain(stamp, _) | Held::Extent(stamp, _) | Held::Mark(stamp) => Some(*stamp),
    }
}

fn block_in(held: &Held) -> Option<u32>
    ensures { result ≡ block_in held.now }
{
    match held {
        Held::Extent(_, block) => Some(*block),
        _ => None,
    }
}

/// The node that a name names.
fn node_in(held: &Held) -> Option<u32>
    ensures { result ≡ node_in held.now }
{
    match held {
        Held::Plain(_, Small::To(node)) => Some(*node),
        _ => None,
    }
}

fn number_in(key: &Key) -> u32
    ensures { result ≡ number_in key.now }
{
    match key {
        Key::Name(number, _) | Key::Node(number) | Key::Block(number, _) => *number,
    }
}

fn is_id_past(counters: &Option<Counters>, id: u32) -> bool
    ensures { result ≡ is_id_past counters.now id }
{
    match counters {
        Some(counters) => counters.id <= id,
        None => false,
    }
}

fn is_stamp_past(counters: &Option<Counters>, stamp: Option<u64>) -> bool
    ensures { result ≡ is_stamp_past counters.now stamp }
{
    match (counters, stamp) {
        (Some(counters), Some(stamp)) => counters.stamp <= stamp,
        _ => false,
    }
}

fn is_number_past(counters: &Option<Counters>, key: &Key, held: &Held) -> bool
    ensures { result ≡ is_number_past counters.now key.now held.now }
{
    match counters {
        Some(counters) => {
            counters.number <= number_in(key)
                || match node_in(held) {
                    Some(node) => counters.number <= node,
                    None => false,
                }
        }
        None => false,
    }
}

fn is_entry_past(blocks: u32, counters: &Option<Counters>, key: &Key, held: &Held) -> bool
    ensures { result ≡ is_entry_past blocks counters.now key.now held.now }
{
    let is_block_past = match block_in(held) {
        Some(block) => blocks <= block,
        None => false,
    };
    is_stamp_past(counters, stamp_in(held)) || is_number_past(counters, key, held) || is_block_past
}

fn is_past(blocks: u32, counters: &Option<Counters>, value: &Record) -> bool
    ensures { result ≡ is_past blocks counters.now value.now }
{
    match value {
        Record::Free => false,
        Record::Counters(_) => true,
        Record::Fileset(id, _) => is_id_past(counters, *id),
        Record::Entry(_, key, held) => is_entry_past(blocks, counters, key, held),
    }
}

fn is_free(value: &Record) -> bool
    ensures { result ≡ is_free value.now }
{
    matches!(value, Record::Free)
}

fn breaks_alone(
    blocks: u32,
    records: u32,
    counters: &Option<Counters>,
    at: usize,
    slot: &Option<Record>,
) -> bool
    ensures { result ≡ breaks_alone blocks records counters.now at slot.now }
{
    match slot {
        None => true,
        Some(_) if at == 0 => counters.is_none(),
        Some(value) => {
            (at > records as usize && !is_free(value)) || is_past(blocks, counters, value)
        }
    }
}

/// The first slot that has no record, one that may not stand there, or one with a number past its
/// limit.
pub fn first_alone(blocks: u32, records: u32, area: &[Option<Record>]) -> Option<usize>
    ensures { IsFirst (λ k. breaks_alone blocks records (counters_in area.now) k (slot_at area.now k)) (length area.now) result }
{
    let counters = counters_in(area);
    for (at, slot) in area.iter().enumerate() {
        if breaks_alone(blocks, records, &counters, at, slot) {
            return Some(at);
        }
    }
    None
}
