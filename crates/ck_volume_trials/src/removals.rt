// What a step of the background leaves on the device.
use crate::runs::{copy_of, play_on, volume};
use ck_disk::{Block, FuseDisk, MemDisk, NoMemory};
use std::alloc::Global;
use std::test::Fail;

/// A removed checkpoint that had two entries of its own, and a sync behind its removal.
const AT_ONCE: &[u8] = b"1 create c1
1 make /a
1 create c2
1 rm /a
1 remove c2
1 sync
";

/// The same, with a step of the background before the sync.
const BEHIND_A_STEP: &[u8] = b"1 create c1
1 make /a
1 create c2
1 rm /a
1 remove c2
1 sync
turns 1 1 1 1 1 b 1
";

/// How many slots of a block of the table have an entry of a checkpoint with a small id.
fn entries_in(block: &Block, id: u8) -> u32 {
    let mut count: u32 = 0;
    for slot in 0..32 {
        if block[128 * slot] >= 3 && block[128 * slot + 7] == id {
            count = count.wrapping_add(1);
        }
    }
    count
}

/// The same of the whole table, which stands from block 12 to block 20.
fn entries_on(disk: &MemDisk, id: u8) -> u32 {
    let mut count: u32 = 0;
    for block in disk.image().iter().take(21).skip(12) {
        count = count.wrapping_add(entries_in(block, id));
    }
    count
}

/// How many entries the removed checkpoint has on a device that fails every call from the first one behind an acknowledged
/// sync on. A table that no sync wrote has 99.
fn left_by(alloc: Global, made: &MemDisk, script: &[u8]) -> Result<u32, NoMemory> {
    for passes in 0..64 {
        let disk = FuseDisk::new(copy_of(alloc, made, &[])?, passes);
        let ended = play_on(alloc, script, disk)?;
        if ended.printed.ends_with(b"1.6 100 0 sync = Ok\n") {
            return Ok(entries_on(&ended.disk.into_inner(), 2));
        }
    }
    Ok(99)
}

// A step that is taken between two calls is committed by a sync behind it: one of the two entries is gone.
#[test]
fn takes_a_step_at_its_turn(rt: HostRuntime) -> Result<(), Fail> {
    let alloc = rt.alloc();
    let made = volume(alloc)?;
    let at_once = left_by(alloc, &made, AT_ONCE)?;
    assert_eq!(rt; at_once, 2);
    let behind_a_step = left_by(alloc, &made, BEHIND_A_STEP)?;
    assert_eq!(rt; behind_a_step, 1);
    Ok(())
}
