// Plays that a crash cuts off, and what the device opens to afterwards.
use crate::runs::{copy_of, play_on, volume};
use ck_disk::{Block, FuseDisk, MemDisk, NoMemory, Torn};
use std::alloc::Global;
use std::test::Fail;

/// Two contents of one file, each of them synced.
const SYNCED: &[u8] = b"1 make /a
1 write /a 0 t:one
1 sync
1 write /a 0 t:two
1 sync
";

/// How its transcript begins where the first sync was acknowledged.
const FIRST_SYNCED: &[u8] = b"1.1 100 0 make /a = Ok
1.2 100 0 write /a 0 x:6f6e65 = Ok
1.3 100 0 sync = Ok
";

/// And where both were.
const BOTH_SYNCED: &[u8] = b"1.1 100 0 make /a = Ok
1.2 100 0 write /a 0 x:6f6e65 = Ok
1.3 100 0 sync = Ok
1.4 100 0 write /a 0 x:74776f = Ok
1.5 100 0 sync = Ok
";

/// How many calls a crash has to keep of a run that printed this.
fn synced(printed: &[u8]) -> u32 {
    if printed == BOTH_SYNCED {
        5
    } else if printed.starts_with(FIRST_SYNCED) {
        3
    } else {
        0
    }
}

/// How many of the five calls a device has, by what a play of this says: 0 to 2 are without the first content, 3 is as 2
/// is, 5 as 4.
fn world_of(alloc: Global, disk: MemDisk) -> Result<u32, NoMemory> {
    let found = play_on(alloc, b"1 read /a 0 9\n", disk)?;
    for (reply, calls) in [
        (b" = NotFound\n".as_slice(), 0),
        (b" = Ok x:\n", 1),
        (b" = Ok x:6f6e65\n", 3),
        (b" = Ok x:74776f\n", 5),
    ] {
        if found.printed.ends_with(reply) {
            return Ok(calls);
        }
    }
    Ok(99)
}

/// A play that stops after so many calls of the device: the calls that a crash has to keep, whether it came to its end,
/// and the device.
fn stopped(alloc: Global, made: &MemDisk, passes: u64) -> Result<(u32, bool, MemDisk), NoMemory> {
    let disk = FuseDisk::new(copy_of(alloc, made, &[])?, passes);
    let ended = play_on(alloc, SYNCED, disk)?;
    let least = if ended.status == 0 || ended.status == 5 {
        synced(&ended.printed)
    } else {
        100
    };
    Ok((least, ended.status == 0, ended.disk.into_inner()))
}

// Stops at every call of a play in turn. Each time the device opens to a prefix of the calls, with each acknowledged sync.
#[test]
fn survives_a_stop_at_each_call(rt: HostRuntime) -> Result<(), Fail> {
    let alloc = rt.alloc();
    let made = volume(alloc)?;
    let mut whole = false;
    for passes in 0..64 {
        let (least, ended, disk) = stopped(alloc, &made, passes)?;
        let world = world_of(alloc, copy_of(alloc, &disk, &[])?)?;
        assert!(rt; least <= world && world <= 5, "{passes}: {world}");
        assert!(rt; least == 5 || !ended, "{passes}");
        whole = ended;
    }
    assert!(rt; whole);
    Ok(())
}

/// Bytes that no block of a volume has.
const NOISE: Block = [165; 4096];

/// The device after a crash that left this in a block, unless the block was synced.
fn crashed(alloc: Global, disk: MemDisk, at: u32, bytes: Block) -> Result<MemDisk, NoMemory> {
    let mut torn = Vec::new(alloc);
    torn.push(Torn { at, bytes })?;
    Ok(disk.crash(torn))
}

// The same where the block that was being written holds anything.
#[test]
fn survives_torn_blocks(rt: HostRuntime) -> Result<(), Fail> {
    let alloc = rt.alloc();
    let made = volume(alloc)?;
    for passes in 12..48 {
        for at in [1, 3, 12] {
            let (least, _, disk) = stopped(alloc, &made, passes)?;
            let world = world_of(alloc, crashed(alloc, disk, at, NOISE)?)?;
            assert!(rt; least <= world && world <= 5, "{passes} {at}: {world}");
        }
    }
    Ok(())
}

// A stop in the write of the gate: whatever stands there, its first byte decides which table counts. The first commit's
// gate is the call 12 + 1 + 9 + 1 + 1.
#[test]
fn reads_the_first_byte_of_the_gate(rt: HostRuntime) -> Result<(), Fail> {
    let alloc = rt.alloc();
    let made = volume(alloc)?;
    for (first, world) in [(71, 3), (0, 0), (165, 0)] {
        let ended = play_on(alloc, SYNCED, copy_of(alloc, &made, &[24])?)?;
        assert_eq!(rt; ended.status, 5);
        let mut bytes = NOISE;
        bytes[0] = first;
        let found = world_of(alloc, crashed(alloc, ended.disk, 1, bytes)?)?;
        assert_eq!(rt; found, world, "{first}");
    }
    Ok(())
}
