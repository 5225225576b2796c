ghost use Rattle.std.specs.Prelude.{◌≡◌};
ghost use Rattle.ck_area.specs.Parts.{place_in, version_in, named_in, id_in, live_name_in};

use ck_model::{Held, Key, NameBytes};
use ck_record::Record;

/// The fileset and key of an entry.
pub fn place_in(slot: &Option<Record>) -> Option<(u32, Key)>
    ensures { result ≡ place_in slot.now }
{
    match slot {
        Some(Record::Entry(fileset, key, _)) => Some((*fileset, *key)),
        _ => None,
    }
}

/// The key and the stamp of an entry that has one.
pub fn version_in(slot: &Option<Record>) -> Option<(Key, u64)>
    ensures { result ≡ version_in slot.now }
{
    match slot {
        Some(
            Record::Entry(
                _,
                key,
                Held::Plain(stamp, _) | Held::Extent(stamp, _) | Held::Mark(stamp),
            ),
        ) => { Some((*key, *stamp)) }
        _ => None,
    }
}

/// The data block that an entry names.
pub fn named_in(slot: &Option<Record>) -> Option<u32>
    ensures { result ≡ named_in slot.now }
{
    match slot {
        Some(Record::Entry(_, _, Held::Extent(_, block))) => Some(*block),
        _ => None,
    }
}

/// A checkpoint's id.
pub fn id_in(slot: &Option<Record>) -> Option<u32>
    ensures { result ≡ id_in slot.now }
{
    match slot {
        Some(Record::Fileset(id, _)) => Some(*id),
        _ => None,
    }
}

/// The name of a checkpoint that isn't gone.
pub fn live_name_in(slot: &Option<Record>) -> Option<NameBytes>
    ensures { result ≡ live_name_in slot.now }
{
    match slot {
        Some(Record::Fileset(_, fileset)) if !fileset.gone => Some(fileset.name),
        _ => None,
    }
}
