//! `fsckptadm COMMAND IMAGE`: a file system with storage checkpoints, on one device.
#![tactic(auto)]

ghost use Rattle.ck_words.specs.Command.{IsWithin};

use ck_admin::top;
use ck_disk::{Disk, FileDisk, MemDisk};
use ck_io::{Clock, FixedClock, StdSink, StdSource, SystemClock, write_all};
use ck_log::device_blocks;
use ck_report::Status;
use ck_words::{Command, match_words};
use std::alloc::AllocError;
use std::env::FillError;
use std::fs::TryLockError;
use std::io;
use std::process::ExitCode;
use std::rt::Env;

const HELP: &[u8] = b"usage: fsckptadm COMMAND IMAGE

play                  plays the script on standard input, and prints its transcript
mkfs BLOCKS RECORDS   makes a volume with so many data blocks and records

IMAGE is a file, which mkfs makes where there is none, or -, a new volume in memory.
";

const VERSION: &[u8] = b"fsckptadm 0.2\n";

/// More bytes than a path may have.
const WORD_BYTES: usize = 4096;

/// How many blocks the device in memory has.
const BLANK_BLOCKS: u32 = 85;

fn exit_status(status: &Status) -> u8 {
    match status {
        Status::Done => 0,
        Status::Refused(_) => 1,
        Status::Usage => 2,
        Status::BadScript(_) => 3,
        Status::NotOpened(_) => 4,
        Status::DeviceFault => 5,
        Status::SourceFault => 6,
        Status::SinkFault => 7,
        Status::NoMemory => 8,
    }
}

/// Why there is no device to run a command on.
#[derive(Drop)]
enum ImageFault {
    NotOpened,
    InUse,
}

impl ImageFault {
    fn line(&self) -> &'static [u8] {
        match self {
            ImageFault::NotOpened => b"can't open the image\n",
            ImageFault::InUse => b"the image is in use\n",
        }
    }
}

/// A word as text, where it is UTF-8.
fn text_of(rt: &HostRuntime, word: &[u8]) -> Result<Option<String>, AllocError> {
    match str::from_utf8(word) {
        Ok(text) => Ok(Some(text.to_string(rt.alloc())?)),
        Err(_) => Ok(None),
    }
}

/// The words behind the program's name. One that isn't UTF-8, or is longer than any path, stands as None: it matches
/// no pattern, and no image has such a path.
fn words_of(rt: &HostRuntime) -> Result<Vec<Option<String>>, AllocError> {
    let mut words = Vec::new(rt.alloc());
    let mut buffer = [0; WORD_BYTES];
    for place in 1..usize::MAX {
        match rt.arg(place, &mut buffer) {
            Ok(length) => words.push(text_of(rt, &buffer[..length])?)?,
            Err(FillError::TooLong) => words.push(None)?,
            Err(FillError::NotPresent) => break,
        }
    }
    Ok(words)
}

fn is_only(words: &[Option<String>], text: &str) -> bool {
    match words {
        [Some(word)] => word.as_str() == text,
        _ => false,
    }
}

/// The words of a command, or none where one of them isn't text.
fn command_words(rt: &HostRuntime, words: Vec<Option<String>>) -> Result<Vec<String>, AllocError> {
    let mut command = Vec::new(rt.alloc());
    for word in words {
        match word {
            Some(text) => command.push(text)?,
            None => return Ok(Vec::new(rt.alloc())),
        }
    }
    Ok(command)
}

/// Runs a command on a device, and gives its exit status and the device back.
fn run_on<D: Disk, C: Clock>(
    rt: &HostRuntime,
    words: &[String],
    disk: D,
    clock: &mut C,
) -> (u8, D) {
    let errors = rt.stderr();
    let mut source = StdSource::new(rt.stdin());
    let mut out = StdSink::new(io::writer(rt));
    let mut err = StdSink::new(io::writer(&errors));
    let ended = top(
        rt.alloc(),
        words,
        &mut source,
        &mut out,
        &mut err,
        disk,
        clock,
    );
    (exit_status(&ended.status), ended.disk)
}

/// The words of the command that makes the volume in memory.
fn blank_words(rt: &HostRuntime) -> io::Result<Vec<String>> {
    let mut words = Vec::new(rt.alloc());
    for word in ["mkfs", "64", "256"] {
        words.push(word.to_string(rt.alloc())?)?;
    }
    Ok(words)
}

/// Runs a command on a new volume in memory, at the moment 100.
fn run_in_memory(rt: &HostRuntime, words: &[String]) -> u8 {
    let alloc = rt.alloc();
    let (Ok(disk), Ok(blank)) = (
        MemDisk::new(alloc, BLANK_BLOCKS, Vec::new(alloc)),
        blank_words(rt),
    ) else {
        return 8;
    };
    let mut clock = FixedClock { now: 100 };
    let (status, disk) = run_on(rt, &blank, disk, &mut clock);
    if status != 0 {
        return status;
    }
    run_on(rt, words, disk, &mut clock).0
}

/// Runs a command on an image, or says why it can't.
fn run_on_image(rt: &HostRuntime, words: &[String], opened: Result<FileDisk, ImageFault>) -> u8 {
    match opened {
        Ok(disk) => run_on(rt, words, disk, &mut SystemClock::new(rt)).0,
        Err(fault) => {
            let errors = rt.stderr();
            let _ = write_all(&mut StdSink::new(io::writer(&errors)), fault.line());
            9
        }
    }
}

/// The image that a command works on. `mkfs` makes it where there is none.
fn open_image(rt: &HostRuntime, command: Command, path: &str) -> Result<FileDisk, ImageFault>
    requires { IsWithin command }
{
    if let Command::Mkfs(blocks, records) = command {
        let needs = device_blocks(blocks, records);
        if let Ok(disk) = FileDisk::create(rt, path, needs) {
            return locked(disk);
        }
    }
    match FileDisk::open_image(rt, path) {
        Ok(disk) => locked(disk),
        Err(_) => Err(ImageFault::NotOpened),
    }
}

/// The same device, which no other run has from now on.
fn locked(disk: FileDisk) -> Result<FileDisk, ImageFault> {
    match disk.try_lock() {
        Ok(()) => Ok(disk),
        Err(TryLockError::WouldBlock) => Err(ImageFault::InUse),
        Err(TryLockError::Error(_)) => Err(ImageFault::NotOpened),
    }
}

/// Words that match no command are refused before the image is looked at.
fn refuse(rt: &HostRuntime, words: &[String]) -> u8 {
    let alloc = rt.alloc();
    match MemDisk::new(alloc, 0, Vec::new(alloc)) {
        Ok(disk) => run_on(rt, words, disk, &mut FixedClock { now: 0 }).0,
        Err(_) => 8,
    }
}

/// The last word is the image.
fn run(rt: &HostRuntime, mut words: Vec<Option<String>>) -> u8 {
    let image = words.pop().flatten();
    let Ok(words) = command_words(rt, words) else {
        return 8;
    };
    let Some(command) = match_words(&words) else {
        return refuse(rt, &words);
    };
    let opened = match image {
        Some(path) if path.as_str() == "-" => return run_in_memory(rt, &words),
        Some(path) => open_image(rt, command, path.as_str()),
        None => Err(ImageFault::NotOpened),
    };
    run_on_image(rt, &words, opened)
}

fn print(rt: &HostRuntime, text: &[u8]) -> u8 {
    match write_all(&mut StdSink::new(io::writer(rt)), text) {
        Ok(()) => 0,
        Err(_) => 7,
    }
}

fn main(rt: HostRuntime) -> ExitCode {
    let Ok(words) = words_of(&rt) else {
        return ExitCode::from(8);
    };
    if is_only(&words, "--help") {
        return ExitCode::from(print(&rt, HELP));
    }
    if is_only(&words, "--version") {
        return ExitCode::from(print(&rt, VERSION));
    }
    ExitCode::from(run(&rt, words))
}
