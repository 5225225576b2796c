// Checkpoints of a table in memory, and one that is taken out, which no command does yet.
ghost use Rattle.std.specs.Prelude.{◌≡◌, ◌≤◌, IfOk};
ghost use Rattle.ck_disk.specs.MemDisk.{meaning};
ghost use Rattle.ck_log.specs.Layout.{IsSized};
ghost use Rattle.ck_model.specs.Name.{IsCheckpointName};

use ck_disk::{MemDisk, NoMemory};
use ck_log::{Region, device_blocks};
use ck_model::{Fileset, Kind, Meta, NameBytes};
use ck_slots::Slots;
use std::alloc::Global;
use std::test::Fail;

/// A device of zeros.
fn device(alloc: Global, blocks: u32) -> Result<MemDisk, NoMemory>
    ensures { IfOk result (λ disk. (meaning disk).size ≡ blocks) }
{
    MemDisk::new(alloc, blocks, Vec::new(alloc))
}

/// The table of a new volume on a device of its own.
fn new_table(alloc: Global, blocks: u32, records: u32) -> Result<Slots, Fail>
    requires { IsSized blocks records }
{
    let mut disk = device(alloc, device_blocks(blocks, records))?;
    let region = Region::format(&mut disk, blocks, records)?;
    Ok(Slots::format(alloc, &region)?)
}

fn put_checkpoint(slots: &mut Slots, id: u32, name: &NameBytes) -> bool
    requires some { 1 ≤ id }
    requires name { IsCheckpointName name.now }
{
    if slots.spare() == 0 {
        return false;
    }
    let fileset = Fileset {
        name: *name,
        kind: Kind::Keeping,
        removable: true,
        gone: id == 5,
        ctime: 100,
    };
    slots.put_fileset(id, fileset);
    true
}

#[test]
fn checkpoints_stand_by_id(rt: HostRuntime) -> Result<(), Fail> {
    let mut slots = new_table(rt.alloc(), 1, 32)?;
    let name = NameBytes::read(b"daily").ok_or("daily")?;
    assert!(rt; name.is_checkpoint_name());
    for id in [5, 2, 9] {
        assert!(rt; put_checkpoint(&mut slots, id, &name));
    }
    assert!(rt; slots.spare() == 28 && slots.fileset_count() == 3);
    for (before, after) in [(0, Some(2)), (2, Some(5)), (5, Some(9)), (9, None)] {
        assert!(rt; slots.next_fileset(before) == after, "{before}");
    }
    slots.del_fileset(5);
    assert!(rt; slots.fileset(5).is_none() && slots.next_fileset(2) == Some(9));
    Ok(())
}
