// Each kind of record in its bytes.
use ck_model::{Counters, Fileset, Held, Key, Kind, NameBytes, Small};
use ck_record::{Record, decode, encode};
use std::test::Fail;

/// Bytes at their places, and zeros elsewhere.
fn placed(bytes: &[(usize, u8)]) -> [u8; 128] {
    let mut record = [0; 128];
    for (at, byte) in bytes {
        if *at < 128 {
            record[*at] = *byte;
        }
    }
    record
}

const COUNTERS: [(usize, u8); 4] = [(0, 1), (8, 0x80), (18, 1), (23, 7)];

const FILESET: [(usize, u8); 7] = [
    (0, 2),
    (1, 5),
    (7, 9),
    (24, 2),
    (25, b'c'),
    (26, b'1'),
    (119, 100),
];

const NAME: [(usize, u8); 6] = [(0, 3), (4, 1), (24, 2), (25, b'.'), (26, b'a'), (116, 0xff)];

const FILE: [(usize, u8); 4] = [(0, 4), (8, 0x7f), (19, 4), (116, 0x40)];

const DIRECTORY: [(usize, u8); 4] = [(0, 4), (1, 1), (7, 3), (16, 0xff)];

const EXTENT: [(usize, u8); 6] = [(0, 5), (15, 6), (19, 1), (21, 3), (22, 0xff), (120, 0xfe)];

const MARK: [(usize, u8); 4] = [(0, 6), (7, 2), (15, 6), (23, 5)];

const NO_NAME: [(usize, u8); 6] = [(0, 7), (1, 1), (7, 2), (19, 1), (24, 1), (25, b'-')];

const NO_NODE: [(usize, u8); 4] = [(0, 7), (1, 2), (7, 2), (19, 1)];

const NO_BLOCK: [(usize, u8); 5] = [(0, 7), (1, 3), (7, 2), (19, 1), (23, 1)];

#[test]
fn each_kind_of_record(rt: HostRuntime) -> Result<(), Fail> {
    let checkpoint = NameBytes::read(b"c1").ok_or("c1")?;
    let file = NameBytes::read(b".a").ok_or(".a")?;
    let dash = NameBytes::read(b"-").ok_or("-")?;
    let counters = Counters {
        stamp: 1 << 63,
        id: 256,
        number: 7,
    };
    let fileset = Fileset {
        name: checkpoint,
        kind: Kind::Nodata,
        removable: false,
        gone: true,
        ctime: 100,
    };
    let records = [
        (placed(&[]), Record::Free),
        (placed(&COUNTERS), Record::Counters(counters)),
        (placed(&FILESET), Record::Fileset(9, fileset)),
        (
            placed(&NAME),
            Record::Entry(
                1 << 24,
                Key::Name(0, file),
                Held::Plain(0, Small::To(0xff00_0000)),
            ),
        ),
        (
            placed(&FILE),
            Record::Entry(
                0,
                Key::Node(4),
                Held::Plain(0x7f << 56, Small::File(1 << 30)),
            ),
        ),
        (
            placed(&DIRECTORY),
            Record::Entry(3, Key::Node(0xff00_0000), Held::Plain(0, Small::Dir)),
        ),
        (
            placed(&EXTENT),
            Record::Entry(0, Key::Block(1, 0x3_ff00), Held::Extent(6, 0xfe00_0000)),
        ),
        (
            placed(&MARK),
            Record::Entry(2, Key::Block(0, 5), Held::Mark(6)),
        ),
        (
            placed(&NO_NAME),
            Record::Entry(2, Key::Name(1, dash), Held::Absent),
        ),
        (
            placed(&NO_NODE),
            Record::Entry(2, Key::Node(1), Held::Absent),
        ),
        (
            placed(&NO_BLOCK),
            Record::Entry(2, Key::Block(1, 1), Held::Absent),
        ),
    ];
    for (bytes, value) in &records {
        let found = decode(bytes).ok_or("refused")?;
        assert_eq!(rt; found, *value);
        let mut again = [0xee; 128];
        encode(&found, &mut again);
        assert_eq!(rt; again, *bytes, "{value:?}");
    }
    Ok(())
}
