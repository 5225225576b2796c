// The devices, called as a layer above calls them. A script of six calls shows which of them answer Ok.
ghost use Rattle.std.specs.Prelude.{◌≡◌, ◌<◌, length, IfOk};
ghost use Rattle.ck_disk.specs.MemDisk.{meaning};

use ck_disk::{Block, Disk, Failed, FileDisk, FuseDisk, MemDisk, NoMemory, Torn};
use std::alloc::Global;
use std::fs::{self, OpenOptions};
use std::path::PathBuf;
use std::test::Fail;
use std::{env, io, process};

/// Writes block 0, reads it, writes block 1, syncs, reads block 1 and writes block 2.
fn run<D: Disk>(disk: &mut D, into: &mut Block) -> [bool; 6]
    requires { (D.means disk.old).size ≡ 3 }
    ensures { (D.means disk.new).size ≡ 3 }
{
    let first = disk.write(0, &[1; 4096]).is_ok();
    let second = disk.read(0, into).is_ok();
    let third = disk.write(1, &[2; 4096]).is_ok();
    let fourth = disk.sync().is_ok();
    let fifth = disk.read(1, into).is_ok();
    let sixth = disk.write(2, &[3; 4096]).is_ok();
    [first, second, third, fourth, fifth, sixth]
}

/// Whether the image has these blocks, each of one byte.
fn has_blocks(image: &[Block], bytes: &[u8]) -> bool {
    image.len() == bytes.len()
        && image
            .iter()
            .zip(bytes)
            .all(|(block, byte)| block.iter().all(|b| b == byte))
}

/// A disk of three blocks of zeros.
fn three_blocks(alloc: Global, fails: &[u64]) -> Result<MemDisk, NoMemory>
    ensures { IfOk result (λ disk. length (meaning disk).shows ≡ 3) }
{
    let fails = fails.to_vec(alloc)?;
    MemDisk::new(alloc, 3, fails)
}

#[test]
fn chosen_calls_of_a_mem_disk_fail(rt: HostRuntime) -> Result<(), Fail> {
    let table = [
        ([0, 7], [true; 6], [1, 2, 3]),
        ([1, 1], [false, true, true, true, true, true], [0, 2, 3]),
        ([2, 4], [true, false, true, false, true, true], [1, 2, 3]),
        ([3, 5], [true, true, false, true, false, true], [1, 0, 3]),
        ([6, 3], [true, true, false, true, true, false], [1, 0, 0]),
    ];
    for (fails, want, blocks) in table {
        let mut disk = three_blocks(rt.alloc(), &fails)?;
        assert_eq!(rt; run(&mut disk, &mut [0; 4096]), want);
        assert!(rt; has_blocks(disk.image(), &blocks));
    }
    Ok(())
}

/// Bytes for each block, for one of them twice, and for a block that no disk here has.
fn torn_blocks(alloc: Global) -> Result<Vec<Torn>, NoMemory> {
    let mut blocks = Vec::new(alloc);
    for (at, byte) in [(0, 7), (1, 6), (1, 8), (2, 9), (5, 5)] {
        let bytes = [byte; 4096];
        blocks.push(Torn { at, bytes })?;
    }
    Ok(blocks)
}

#[test]
fn a_crash_tears_what_was_not_synced(rt: HostRuntime) -> Result<(), Fail> {
    // The block with 1 was synced, unless the sync failed. That with 3 wasn't. A write that fails counts.
    let table = [
        (0, [1, 2, 3], [1, 2, 9]),
        (3, [1, 0, 3], [1, 0, 9]),
        (4, [1, 2, 3], [7, 8, 9]),
        (6, [1, 2, 0], [1, 2, 9]),
    ];
    for (fails, before, after) in table {
        let torn = torn_blocks(rt.alloc())?;
        let mut disk = three_blocks(rt.alloc(), &[fails])?;
        run(&mut disk, &mut [0; 4096]);
        assert!(rt; has_blocks(disk.image(), &before));
        let crashed = disk.crash(torn);
        assert!(rt; has_blocks(crashed.image(), &after));
    }
    Ok(())
}

#[test]
fn a_crashed_disk_fails_no_call(rt: HostRuntime) -> Result<(), Fail> {
    let torn = torn_blocks(rt.alloc())?;
    let mut disk = three_blocks(rt.alloc(), &[1, 2, 8, 10])?;
    assert_eq!(rt;
        run(&mut disk, &mut [0; 4096]),
        [false, false, true, true, true, true]
    );
    let mut crashed = disk.crash(Vec::new(rt.alloc())).crash(torn);
    assert!(rt; has_blocks(crashed.image(), &[0, 2, 3]));
    let mut last_read = [0; 4096];
    assert_eq!(rt; run(&mut crashed, &mut last_read), [true; 6]);
    assert!(rt; has_blocks(&[last_read], &[2]));
    Ok(())
}

#[test]
fn a_fuse_passes_so_many_calls(rt: HostRuntime) -> Result<(), Fail> {
    let table = [
        (0, [false; 6], [0, 0, 0]),
        (1, [true, false, false, false, false, false], [1, 0, 0]),
        (2, [true, true, false, false, false, false], [1, 0, 0]),
        (3, [true, true, true, false, false, false], [1, 2, 0]),
        (6, [true; 6], [1, 2, 3]),
    ];
    for (passes, want, blocks) in table {
        let mut disk = FuseDisk::new(three_blocks(rt.alloc(), &[])?, passes);
        assert_eq!(rt; run(&mut disk, &mut [0; 4096]), want);
        assert!(rt; has_blocks(disk.into_inner().image(), &blocks));
    }
    Ok(())
}

/// A new folder for one test, among the system's temporary files.
fn new_folder(rt: &HostRuntime, test: &str) -> io::Result<PathBuf> {
    let name = format!(in rt.alloc(); "ck_disk-{test}-{}", process::id(rt.process()))?;
    let folder = env::temp_dir(rt)?.join(rt.alloc(), name.as_str())?;
    let _ = fs::remove_dir_all(rt, folder.as_path());
    fs::create_dir(rt, folder.as_path())?;
    Ok(folder)
}

/// The byte that a block is full of. None where there is no such byte, and where the read failed.
fn byte_of<D: Disk>(disk: &mut D, at: u32) -> Option<u8>
    requires { at < (D.means disk.old).size }
    ensures { (D.means disk.new).size ≡ (D.means disk.old).size }
{
    let mut block = [0; 4096];
    if disk.read(at, &mut block).is_err() {
        return None;
    }
    let first = block[0];
    block.iter().all(|byte| *byte == first).then_some(first)
}

#[test]
fn a_file_keeps_what_was_written(rt: HostRuntime) -> Result<(), Fail> {
    let folder = new_folder(&rt, "keeps")?;
    let path = folder.join(rt.alloc(), "image")?;
    let mut made = FileDisk::create(&rt, path.as_str(), 3)?;
    assert_eq!(rt; byte_of(&mut made, 2), Some(0));
    assert_eq!(rt; run(&mut made, &mut [0; 4096]), [true; 6]);
    drop(made);
    assert!(rt; FileDisk::create(&rt, path.as_str(), 3).is_err());
    let mut opened = FileDisk::open_image(&rt, path.as_str())?;
    assert_eq!(rt; opened.blocks(), 3);
    assert_eq!(rt; byte_of(&mut opened, 0), Some(1));
    assert_eq!(rt; byte_of(&mut opened, 1), Some(2));
    assert_eq!(rt; byte_of(&mut opened, 2), Some(3));
    fs::remove_dir_all(&rt, folder.as_path())?;
    Ok(())
}

#[test]
fn a_file_may_be_too_short_or_missing(rt: HostRuntime) -> Result<(), Fail> {
    let folder = new_folder(&rt, "short")?;
    let path = folder.join(rt.alloc(), "image")?;
    assert!(rt; FileDisk::open_image(&rt, folder.as_str()).is_err());
    assert!(rt; FileDisk::open_image(&rt, path.as_str()).is_err());
    assert!(rt; !fs::exists(&rt, path.as_path())?);
    fs::write(&rt, path.as_path(), [7u8; 9000].as_slice())?;
    let mut disk = FileDisk::open_image(&rt, path.as_str())?;
    assert_eq!(rt; disk.blocks(), 2, "the last 808 bytes are no block");
    let file = OpenOptions::new().write(true).open(&rt, path.as_path())?;
    file.set_len(5000)?;
    assert_eq!(rt; byte_of(&mut disk, 0), Some(7));
    assert_eq!(rt; disk.read(1, &mut [0; 4096]), Err(Failed));
    assert_eq!(rt; disk.write(1, &[8; 4096]), Ok(()));
    assert_eq!(rt; byte_of(&mut disk, 1), Some(8));
    fs::remove_dir_all(&rt, folder.as_path())?;
    Ok(())
}
