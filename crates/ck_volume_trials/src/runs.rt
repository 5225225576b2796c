// Runs of the top call on sources, sinks and devices in memory.
use ck_admin::{Ended, top};
use ck_disk::{Disk, MemDisk, NoMemory};
use ck_io::{FixedClock, MemSink, MemSource};
use ck_report::Status;
use std::alloc::Global;

/// How many blocks a device has for 64 data blocks and 256 records.
const BLOCKS: u32 = 85;

/// The status by its number.
pub fn number_of(status: &Status) -> u32 {
    match status {
        Status::Done => 0,
        Status::Refused(_) => 1,
        Status::Usage => 2,
        Status::BadScript(_) => 3,
        Status::NotOpened(_) => 4,
        Status::DeviceFault => 5,
        Status::SourceFault => 6,
        Status::SinkFault => 7,
        Status::NoMemory => 8,
    }
}

/// What came of a run: its status, what it printed, its line on standard error, and the device that it gave back.
#[derive(Drop)]
pub struct Run<D> {
    pub status: u32,
    pub printed: Vec<u8>,
    pub line: Vec<u8>,
    pub disk: D,
}

impl<D> Run<D> {
    pub fn has(&self, status: u32, printed: &[u8], line: &[u8]) -> bool {
        self.status == status && self.printed.as_slice() == printed && self.line.as_slice() == line
    }
}

fn owned(alloc: Global, words: &[&str]) -> Result<Vec<String>, NoMemory> {
    let mut owned = Vec::new(alloc);
    for word in words {
        owned.push(word.to_string(alloc)?)?;
    }
    Ok(owned)
}

// Runs words on a source and a device. The prints of these numbers fail.
pub fn run_on<D: Disk + Drop>(
    alloc: Global,
    words: &[&str],
    source: MemSource,
    prints: &[u64],
    disk: D,
) -> Result<Run<D>, NoMemory> {
    let words = owned(alloc, words)?;
    let mut source = source;
    let mut printed = MemSink::new(alloc, prints.to_vec(alloc)?);
    let mut line = MemSink::new(alloc, Vec::new(alloc));
    let mut clock = FixedClock { now: 100 };
    let Ended { status, disk } = top(
        alloc,
        &words,
        &mut source,
        &mut printed,
        &mut line,
        disk,
        &mut clock,
    );
    Ok(Run {
        status: number_of(&status),
        printed: printed.into_bytes(),
        line: line.into_bytes(),
        disk,
    })
}

/// A source of which each read gives at most 7 bytes. The reads of these numbers fail.
pub fn source(alloc: Global, text: &[u8], reads: &[u64]) -> Result<MemSource, NoMemory> {
    Ok(MemSource::new(text.to_vec(alloc)?, 7, reads.to_vec(alloc)?))
}

// Plays a script on a device.
pub fn play_on<D: Disk + Drop>(alloc: Global, script: &[u8], disk: D) -> Result<Run<D>, NoMemory> {
    let script = MemSource::new(script.to_vec(alloc)?, 4096, Vec::new(alloc));
    run_on(alloc, &["play"], script, &[], disk)
}

/// A new volume of 64 data blocks and 256 records.
pub fn volume(alloc: Global) -> Result<MemDisk, NoMemory> {
    let disk = MemDisk::new(alloc, BLOCKS, Vec::new(alloc))?;
    let words = ["mkfs", "64", "256"];
    Ok(run_on(alloc, &words, source(alloc, b"", &[])?, &[], disk)?.disk)
}

/// A device with the blocks of another, at most as many as a volume's, of whose calls these fail.
pub fn copy_of(alloc: Global, disk: &MemDisk, fails: &[u64]) -> Result<MemDisk, NoMemory> {
    let mut image = disk.image().to_vec(alloc)?;
    image.truncate(BLOCKS as usize);
    MemDisk::of_image(alloc, image, fails.to_vec(alloc)?)
}
