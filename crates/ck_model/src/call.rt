ghost use Rattle.std.specs.Prelude.{◌≡◌, List};

use crate::{NameBytes, Octets, Path};
use std::marker::Model;

/// A call, with its fields in the order of its words in a script.
#[derive(Debug, Drop)]
pub enum Call {
    /// A new file without bytes.
    Make(Path),
    /// A new directory.
    Mkdir(Path),
    /// Removes a file.
    Rm(Path),
    /// Removes an empty directory.
    Rmdir(Path),
    /// Gives a file another name.
    Mv(Path, Path),
    /// Writes bytes from a place on.
    Write(Path, u64, Octets),
    /// Writes so many times one byte from a place on.
    Fill(Path, u64, u32, u8),
    /// Sets a file's size.
    Trunc(Path, u64),
    /// Reads so many bytes from a place on.
    Read(Path, u64, u32),
    /// The names of a directory.
    List(Path),
    Stat(Path),
    /// Freezes a checkpoint: its name, and whether it is nodata and removable.
    Create(NameBytes, bool, bool),
    /// Removes a checkpoint.
    Remove(NameBytes),
    /// Makes a checkpoint nodata: whether the call waits until its data are gone.
    Nodata(NameBytes, bool),
    /// Makes a checkpoint removable, or not.
    Removable(NameBytes, bool),
    /// The checkpoints.
    Ckpts,
    /// Lets a letter of the actor's, a byte from `a` to `z`, stand for a checkpoint.
    Mount(u8, NameBytes),
    /// Frees a letter of the actor's.
    Umount(u8),
    /// Reads a file of a mounted checkpoint.
    Cread(u8, Path, u64, u32),
    /// The names of a directory of a mounted checkpoint.
    Clist(u8, Path),
    /// Makes a checkpoint's files the primary ones.
    Restore(NameBytes),
    /// The stream of what changed from one mounted checkpoint to another.
    Backup(u8, u8),
    /// The stream of a mounted checkpoint.
    Full(u8),
    /// What is in use.
    Info,
    /// Commits all before it to the device.
    Sync,
}

/// Calls, in order.
#[derive(Debug, Drop)]
pub struct Calls {
    calls: Vec<Call>,
}

impl Model for Calls {
    ghost use Rattle.std.specs.Prelude.{List};
    ghost use Rattle.ck_model.specs.declared.call.Call.{Call};

    ghost Value = { List Call };

    ghost view = { λ script. script.calls.items };
}

impl Calls {
    pub fn of(items: Vec<Call>) -> Calls
        ensures { result ≡ items.items }
    {
        Calls { calls: items }
    }

    pub fn items(&self) -> &[Call]
        ensures { result.now ≡ self.now }
    {
        &self.calls
    }

    pub fn into_vec(self) -> Vec<Call>
        ensures { result.items ≡ self }
    {
        self.calls
    }
}
