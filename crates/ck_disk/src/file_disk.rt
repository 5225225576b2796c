// A disk over a file of the system. What the file holds is known to the system alone, so nothing is promised of it.
ghost use Rattle.std.specs.Prelude.{◌≡◌, ◌<◌, ◌≤◌, ◌*◌, ◌/◌, ◌-◌, ◌^◌, ℕ, List, min, [], get_or, set, IsTrue, IfOk, OnOk, OnErr};
ghost use Rattle.ck_disk.specs.Disk.{Step, Within, TearsAt, Only, IsSynced, Rose, KeepsClean, KeepsCleanBut};

use crate::disk::{Block, Disk, Failed};
use std::fs::{File, OpenOptions, TryLockError};
use std::io::{Seek, SeekFrom};
use std::os::fd::AsRawFd;
use std::os::unix::fs::FileExt;
use std::rt::Files;
use std::{fs, io};

/// How many bytes a block has in the file.
const BLOCK_BYTES: u64 = 4096;

impl From<io::Error> for Failed {
    fn from(_error: io::Error) -> Failed {
        Failed
    }
}

/// A disk over a file: block `at` is the 4,096 bytes from byte `at * 4096` on. It tells nothing of its content. That
/// reads give what was written, and that a sync makes it safe from a crash, is trusted of the system. Nobody else may
/// change the file meanwhile; a block that such a change cuts off fails to be read.
#[derive(Drop)]
pub struct FileDisk {
    file: File,
    size: u32,
    read_faults: u64,
    write_faults: u64,
    ghost fits: { size < 2 ^ 32 },
}

impl FileDisk {
    ghost use Rattle.ck_disk.specs.FileDisk.{meaning, faults_of};

    /// A disk over the file at this path, opened for reading and writing. It has as many blocks as are whole in the
    /// file, and at most 4,294,967,295. The end is found by a seek, so that a block device serves as a file does. It
    /// fails where no file is there, where a folder is, where the file may not be both read and written or has no end
    /// to be found, and where the system refuses for another cause. It makes no file and changes none.
    pub fn open_image<R: Files<File = File>>(rt: &R, path: &str) -> Result<FileDisk, Failed>
        ensures no_faults { IfOk result (λ disk. faults_of disk ≡ (0, 0)) }
    {
        let file = OpenOptions::new().read(true).write(true).open(rt, path)?;
        let mut file = off_the_streams(file)?;
        let bytes = file.seek(SeekFrom::End(0))?;
        Ok(FileDisk::over(file, whole_blocks(bytes)))
    }

    /// A disk over a new file of so many blocks of zeros at this path. It fails where anything is at the path already,
    /// which it leaves as it is, and where the system refuses the file or its length. A file whose length was refused
    /// is taken away.
    pub fn create<R: Files<File = File>>(
        rt: &R,
        path: &str,
        blocks: u32,
    ) -> Result<FileDisk, Failed>
        ensures blocks { IfOk result (λ disk. (meaning disk).size ≡ blocks) }
        ensures no_faults { IfOk result (λ disk. faults_of disk ≡ (0, 0)) }
    {
        match with_blocks(File::create_new(rt, path)?, blocks) {
            Ok(file) => Ok(FileDisk::over(file, blocks)),
            Err(_) => {
                let _ = fs::remove_file(rt, path);
                Err(Failed)
            }
        }
    }

    /// Takes the file's exclusive lock, which goes with this disk. `WouldBlock` says that another disk over the file
    /// has it. The lock holds back nobody who doesn't ask for it.
    pub fn try_lock(&self) -> Result<(), TryLockError> {
        self.file.try_lock()
    }

    fn over(file: File, size: u32) -> FileDisk
        ensures blocks { (meaning result).size ≡ size }
        ensures no_faults { faults_of result ≡ (0, 0) }
    {
        FileDisk {
            file,
            size,
            read_faults: 0,
            write_faults: 0,
        }
    }
}

/// The file with so many blocks of zeros, where it was empty.
fn with_blocks(file: File, blocks: u32) -> io::Result<File> {
    let file = off_the_streams(file)?;
    file.set_len(u64::from(blocks) * BLOCK_BYTES)?;
    Ok(file)
}

/// Where a standard stream was closed before, a file that is opened gets its number, and what the program prints would
/// land in it. So such a file gets another number.
fn off_the_streams(file: File) -> io::Result<File> {
    if file.as_raw_fd() <= 2 {
        return file.try_clone();
    }
    Ok(file)
}

/// How many blocks so many bytes hold, as far as a disk can have them.
fn whole_blocks(bytes: u64) -> u32
    ensures { result ≡ min (bytes / 4096) (2 ^ 32 - 1) }
{
    u32::try_from(bytes / BLOCK_BYTES).unwrap_or(u32::MAX)
}

/// Where a block begins in the file.
fn offset_of(at: u32) -> u64
    ensures { result ≡ at * 4096 }
{
    u64::from(at) * BLOCK_BYTES
}

impl Disk for FileDisk {
    ghost use Rattle.ck_disk.specs.Silent.{silent_lawful};
    ghost use Rattle.ck_disk.specs.FileDisk.{meaning, faults_of, one_read_more, one_write_more};

    ghost means = { meaning };

    ghost lawful = { λ f. silent_lawful f.size f.read_faults f.write_faults f.fits };

    fn blocks(&self) -> u32 {
        self.size
    }

    fn read(&mut self, at: u32, into: &mut Block) -> Result<(), Failed>
        requires { at < (meaning self.old).size }

        // The clauses of every disk.
        ensures bytes { OnOk result (IsTrue (meaning self.old).tells → into.new ≡ get_or (meaning self.old).shows at []) }
        ensures shows { (meaning self.new).shows ≡ (meaning self.old).shows }
        ensures crash { Within (meaning self.new).may_leave (meaning self.old).may_leave }
        ensures marks { KeepsClean (meaning self.old).written (meaning self.new).written }
        ensures step { Step (meaning self.old) (meaning self.new) }
        ensures cause { OnErr result (Rose (meaning self.old).read_faults (meaning self.new).read_faults) }

        // It counts its faults, and nothing else.
        ensures no_fault { OnOk result (faults_of self.new ≡ faults_of self.old) }
        ensures one_fault { OnErr result (faults_of self.new ≡ one_read_more (faults_of self.old)) }
    {
        if self.file.read_exact_at(into, offset_of(at)).is_err() {
            self.read_faults = self.read_faults.saturating_add(1);
            return Err(Failed);
        }
        Ok(())
    }

    fn write(&mut self, at: u32, from: &Block) -> Result<(), Failed>
        requires { at < (meaning self.old).size }

        // The clauses of every disk.
        ensures bytes { OnOk result (IsTrue (meaning self.old).tells → (meaning self.new).shows ≡ set (meaning self.old).shows at from.now) }
        ensures others { IsTrue (meaning self.old).tells → (b : List ℕ) × ((meaning self.new).shows ≡ set (meaning self.old).shows at b) }
        ensures crash { TearsAt at (meaning self.old).may_leave (meaning self.new).may_leave }
        ensures marks { KeepsCleanBut at (meaning self.old).written (meaning self.new).written }
        ensures step { Step (meaning self.old) (meaning self.new) }
        ensures cause { OnErr result (Rose (meaning self.old).write_faults (meaning self.new).write_faults) }

        // It counts its faults, and nothing else.
        ensures no_fault { OnOk result (faults_of self.new ≡ faults_of self.old) }
        ensures one_fault { OnErr result (faults_of self.new ≡ one_write_more (faults_of self.old)) }
    {
        if self.file.write_all_at(from, offset_of(at)).is_err() {
            self.write_faults = self.write_faults.saturating_add(1);
            return Err(Failed);
        }
        Ok(())
    }

    fn sync(&mut self) -> Result<(), Failed>
        // The clauses of every disk.
        ensures durable { OnOk result (IsTrue (meaning self.old).tells → Only (meaning self.old).shows (meaning self.new).may_leave) }
        ensures shows { (meaning self.new).shows ≡ (meaning self.old).shows }
        ensures crash { Within (meaning self.new).may_leave (meaning self.old).may_leave }
        ensures marks { KeepsClean (meaning self.old).written (meaning self.new).written }
        ensures cleans { OnOk result (IsSynced (meaning self.new)) }
        ensures step { Step (meaning self.old) (meaning self.new) }
        ensures cause { OnErr result (Rose (meaning self.old).write_faults (meaning self.new).write_faults) }

        // It counts its faults, and nothing else.
        ensures no_fault { OnOk result (faults_of self.new ≡ faults_of self.old) }
        ensures one_fault { OnErr result (faults_of self.new ≡ one_write_more (faults_of self.old)) }
    {
        if self.file.sync_all().is_err() {
            self.write_faults = self.write_faults.saturating_add(1);
            return Err(Failed);
        }
        Ok(())
    }
}
