ghost use Rattle.std.specs.Prelude.{◌≡◌, ℕ, List, Some, SomeIff};
ghost use Rattle.ck_model.specs.declared.key.Key.TheVariants.{Name, Node, Block};
ghost use Rattle.ck_model.specs.declared.held.Held.TheVariants.{Plain, Extent, Mark};
ghost use Rattle.ck_model.specs.declared.held.Small.TheVariants.{To};
ghost use Rattle.ck_model.specs.Held.{IsWord, IsStamp, IsKey, BelongsTo, IsEntry};
ghost use Rattle.ck_record.specs.declared.records.Record.TheVariants as record_of;
ghost use Rattle.ck_record.specs.Record.{IsRecord};
ghost use Rattle.ck_record.specs.Candidates.{counters_in, kind_in, named_fileset, fileset_in, named_in, small_in, node_in, extent_in, mark_in, absent_in, record_in, Takes};

use crate::fields::Fields;
use crate::numbers;
use crate::records::Record;
use ck_model::{Counters, Fileset, Held, Key, Kind, NameBytes, Small};

/// The stamp that is never given.
const STAMP_END: u64 = 1 << 63;

/// The greatest size of a file.
const SIZE_LIMIT: u64 = 1_073_741_824;

/// How many blocks a file of that size has.
const INDEX_END: u32 = 262_144;

/// The record that has these fields, if there is one within the limits. Fields that the kind
/// doesn't use aren't looked at.
pub fn record_of(fields: &Fields) -> Option<Record>
    ensures { Takes (record_in fields.now) result }
{
    match fields.kind {
        numbers::FREE => Some(Record::Free),
        numbers::COUNTERS => counters_in(fields),
        numbers::FILESET => fileset_in(fields),
        numbers::NAME => named_in(fields),
        numbers::NODE => node_in(fields),
        numbers::EXTENT => extent_in(fields),
        numbers::MARK => mark_in(fields),
        numbers::ABSENT => absent_in(fields),
        _ => None,
    }
}

fn counters_in(fields: &Fields) -> Option<Record>
    ensures { Takes (Some (counters_in fields.now)) result }
{
    let stamp = fields.stamp;
    let id = fields.first;
    let number = fields.second;
    if stamp == 0 || stamp > STAMP_END || id == 0 || number == 0 {
        return None;
    }
    Some(Record::Counters(Counters { stamp, id, number }))
}

fn fileset_in(fields: &Fields) -> Option<Record>
    ensures { Takes (fileset_in fields.now) result }
{
    named_fileset(fields.fileset, fields.sub, fields.value, fields.name?)
}

fn named_fileset(id: u32, sub: u8, ctime: u64, name: NameBytes) -> Option<Record>
    ensures { let value = named_fileset id sub ctime name in SomeIff result (IsRecord value) value }
{
    if id == 0 || !name.is_checkpoint_name() {
        return None;
    }
    let fileset = Fileset {
        name,
        kind: kind_in(sub),
        removable: sub & numbers::REMOVABLE != 0,
        gone: sub & numbers::GONE != 0,
        ctime,
    };
    Some(Record::Fileset(id, fileset))
}

fn kind_in(sub: u8) -> Kind
    ensures { result ≡ kind_in sub }
{
    if sub & numbers::NODATA == 0 {
        Kind::Keeping
    } else {
        Kind::Nodata
    }
}

fn named_in(fields: &Fields) -> Option<Record>
    ensures { Takes (named_in fields.now) result }
{
    let key = name_key(fields.first, fields.name?)?;
    let held = held_by_name(fields.stamp, fields.value)?;
    Some(entry(fields.fileset, key, held))
}

fn node_in(fields: &Fields) -> Option<Record>
    ensures { Takes (Some (node_in fields.now)) result }
{
    let held = held_by_node(fields.sub, fields.stamp, fields.value)?;
    Some(entry(fields.fileset, node_key(fields.first), held))
}

fn extent_in(fields: &Fields) -> Option<Record>
    ensures { Takes (Some (extent_in fields.now)) result }
{
    let key = block_key(fields.first, fields.second)?;
    let held = extent(fields.stamp, fields.block)?;
    Some(entry(fields.fileset, key, held))
}

fn mark_in(fields: &Fields) -> Option<Record>
    ensures { Takes (Some (mark_in fields.now)) result }
{
    let key = block_key(fields.first, fields.second)?;
    let held = mark(fields.stamp)?;
    Some(entry(fields.fileset, key, held))
}

fn absent_in(fields: &Fields) -> Option<Record>
    ensures { Takes (absent_in fields.now) result }
{
    let key = match fields.sub {
        numbers::NO_NAME => name_key(fields.first, fields.name?)?,
        numbers::NO_NODE => node_key(fields.first),
        _ => block_key(fields.first, fields.second)?,
    };
    Some(entry(fields.fileset, key, Held::Absent))
}

fn entry(fileset: u32, key: Key, held: Held) -> Record
    requires { IsEntry key held }
    ensures value { result ≡ record_of.Entry fileset key held }
    ensures within { IsRecord result }
{
    Record::Entry(fileset, key, held)
}

// ---- keys

fn name_key(directory: u32, name: NameBytes) -> Option<Key>
    ensures { SomeIff result (IsKey (Name directory name)) (Name directory name) }
{
    name.is_file_name().then_some(Key::Name(directory, name))
}

fn node_key(node: u32) -> Key
    ensures value { result ≡ Node node }
    ensures within { IsKey result }
{
    Key::Node(node)
}

fn block_key(node: u32, index: u32) -> Option<Key>
    ensures { SomeIff result (IsKey (Block node index)) (Block node index) }
{
    (index < INDEX_END).then_some(Key::Block(node, index))
}

// ---- what is held

fn held_by_name(stamp: u64, value: u64) -> Option<Held>
    ensures { SomeIff result (IsStamp stamp × IsWord value) (Plain stamp (To value)) }
{
    let node = u32::try_from(value).ok()?;
    (stamp < STAMP_END).then_some(Held::Plain(stamp, Small::To(node)))
}

fn held_by_node(sub: u8, stamp: u64, value: u64) -> Option<Held>
    ensures { let held = Plain stamp (small_in sub value)
        in SomeIff result (BelongsTo (Node 0) held) held }
{
    if sub != numbers::FILE {
        return (stamp < STAMP_END).then_some(Held::Plain(stamp, Small::Dir));
    }
    let within = stamp < STAMP_END && value <= SIZE_LIMIT;
    within.then_some(Held::Plain(stamp, Small::File(value)))
}

fn extent(stamp: u64, block: u32) -> Option<Held>
    ensures { SomeIff result (IsStamp stamp × IsWord block) (Extent stamp block) }
{
    (stamp < STAMP_END).then_some(Held::Extent(stamp, block))
}

fn mark(stamp: u64) -> Option<Held>
    ensures { SomeIff result (IsStamp stamp) (Mark stamp) }
{
    (stamp < STAMP_END).then_some(Held::Mark(stamp))
}
