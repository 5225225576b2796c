ghost use Rattle.std.specs.Prelude.{◌≡◌};
ghost use Rattle.ck_record.specs.Record.{blank, flags, key_number, with_key, with_small, with_held, fields_of};

use crate::fields::Fields;
use crate::numbers;
use crate::records::Record;
use ck_model::{Fileset, Held, Key, Kind, Small};

fn blank() -> Fields
    ensures { result ≡ blank }
{
    Fields {
        kind: numbers::FREE,
        sub: 0,
        fileset: 0,
        stamp: 0,
        first: 0,
        second: 0,
        name: None,
        value: 0,
        block: 0,
    }
}

pub fn fields_of(value: &Record) -> Fields
    ensures { result ≡ fields_of value.now }
{
    match value {
        Record::Free => blank(),
        Record::Counters(counters) => Fields {
            kind: numbers::COUNTERS,
            stamp: counters.stamp,
            first: counters.id,
            second: counters.number,
            ..blank()
        },
        Record::Fileset(id, fileset) => Fields {
            kind: numbers::FILESET,
            sub: flags(fileset),
            fileset: *id,
            name: Some(fileset.name),
            value: fileset.ctime,
            ..blank()
        },
        Record::Entry(fileset, key, held) => {
            let within = Fields {
                fileset: *fileset,
                ..blank()
            };
            with_held(with_key(within, key), key, held)
        }
    }
}

fn flags(fileset: &Fileset) -> u8
    ensures { result ≡ flags fileset.now }
{
    let nodata = match fileset.kind {
        Kind::Keeping => 0,
        Kind::Nodata => numbers::NODATA,
    };
    let removable = if fileset.removable {
        numbers::REMOVABLE
    } else {
        0
    };
    let gone = if fileset.gone { numbers::GONE } else { 0 };
    nodata + removable + gone
}

fn with_key(fields: Fields, key: &Key) -> Fields
    ensures { result ≡ with_key fields key.now }
{
    match key {
        Key::Name(directory, name) => Fields {
            first: *directory,
            name: Some(*name),
            ..fields
        },
        Key::Node(number) => Fields {
            first: *number,
            ..fields
        },
        Key::Block(number, index) => Fields {
            first: *number,
            second: *index,
            ..fields
        },
    }
}

fn key_number(key: &Key) -> u8
    ensures { result ≡ key_number key.now }
{
    match key {
        Key::Name(..) => numbers::NO_NAME,
        Key::Node(_) => numbers::NO_NODE,
        Key::Block(..) => numbers::NO_BLOCK,
    }
}

fn with_held(fields: Fields, key: &Key, held: &Held) -> Fields
    ensures { result ≡ with_held fields key.now held.now }
{
    match held {
        Held::Plain(stamp, small) => {
            let stamped = Fields {
                stamp: *stamp,
                ..fields
            };
            with_small(stamped, small)
        }
        Held::Extent(stamp, block) => Fields {
            kind: numbers::EXTENT,
            stamp: *stamp,
            block: *block,
            ..fields
        },
        Held::Mark(stamp) => Fields {
            kind: numbers::MARK,
            stamp: *stamp,
            ..fields
        },
        Held::Absent => Fields {
            kind: numbers::ABSENT,
            sub: key_number(key),
            ..fields
        },
    }
}

fn with_small(fields: Fields, small: &Small) -> Fields
    ensures { result ≡ with_small fields small.now }
{
    match small {
        Small::To(node) => Fields {
            kind: numbers::NAME,
            value: u64::from(*node),
            ..fields
        },
        Small::File(size) => Fields {
            kind: numbers::NODE,
            value: *size,
            ..fields
        },
        Small::Dir => Fields {
            kind: numbers::NODE,
            sub: numbers::DIRECTORY,
            ..fields
        },
    }
}
