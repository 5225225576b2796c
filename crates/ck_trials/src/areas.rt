// Slots beside checkpoints that are gone or keep no data, which no command makes yet.
use ck_area::first_damage;
use ck_model::{Counters, Fileset, Held, Key, Kind, NameBytes, NoMemory, Small};
use ck_record::Record;
use std::alloc::Global;
use std::test::Fail;

const COUNTERS: Record = Record::Counters(Counters {
    stamp: 10,
    id: 5,
    number: 8,
});

fn checkpoint(id: u32, name: NameBytes, kind: Kind, gone: bool) -> Record {
    let fileset = Fileset {
        name,
        kind,
        removable: false,
        gone,
        ctime: 7,
    };
    Record::Fileset(id, fileset)
}

/// The lowest damaged slot of a table with these records, behind which this one stands in slot 8.
fn damage_with(
    alloc: Global,
    last: Record,
    [a, b, c, f]: [NameBytes; 4],
) -> Result<Option<u32>, NoMemory> {
    let area = [
        Some(COUNTERS),
        Some(Record::Entry(0, Key::Node(0), Held::Plain(0, Small::Dir))),
        Some(checkpoint(1, a, Kind::Keeping, false)),
        Some(checkpoint(2, b, Kind::Nodata, false)),
        Some(checkpoint(3, c, Kind::Keeping, true)),
        Some(Record::Entry(0, Key::Name(0, f), Held::Plain(3, Small::To(1)))),
        Some(Record::Entry(2, Key::Name(0, f), Held::Absent)),
        Some(Record::Entry(3, Key::Node(2), Held::Absent)),
        Some(last),
    ];
    first_damage(alloc, 64, 8, &area)
}

fn name(text: &[u8]) -> Result<NameBytes, Fail> {
    Ok(NameBytes::read(text).ok_or("a name")?)
}

#[test]
fn slots_beside_gone_and_nodata_checkpoints(rt: HostRuntime) -> Result<(), Fail> {
    let names = [name(b"a")?, name(b"b")?, name(b"c")?, name(b"f")?];
    let [a, _, c, f] = names;
    for (last, damage) in [
        (checkpoint(4, c, Kind::Keeping, false), None),
        (checkpoint(4, a, Kind::Keeping, true), None),
        (checkpoint(4, a, Kind::Keeping, false), Some(8)),
        (checkpoint(2, f, Kind::Keeping, false), Some(8)),
        (Record::Entry(1, Key::Node(2), Held::Absent), None),
        (Record::Entry(1, Key::Node(3), Held::Absent), Some(8)),
        (Record::Entry(1, Key::Name(0, f), Held::Absent), Some(8)),
        (Record::Entry(2, Key::Block(1, 1), Held::Mark(9)), Some(8)),
    ] {
        let found = damage_with(rt.alloc(), last, names)?;
        assert!(rt; found == damage, "{last:?}");
    }
    Ok(())
}
