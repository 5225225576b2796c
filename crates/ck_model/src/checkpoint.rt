ghost use Rattle.std.specs.Prelude.{◌≡◌, List};

use crate::NameBytes;
use std::marker::Model;

/// What a checkpoint keeps: its files whole, or their metadata and which blocks changed.
#[derive(Clone, Copy, Debug, PartialEq, Eq)]
pub enum Kind {
    Keeping,
    Nodata,
}

/// How many data blocks and records a volume has, and how many checkpoints may stand in it.
#[derive(Clone, Copy, Debug, PartialEq, Eq)]
pub struct Limits {
    pub blocks: u32,
    pub records: u32,
    pub checkpoints: u32,
}

/// The numbers that are given next: no stamp, id or file number is ever given twice.
#[derive(Clone, Copy, Debug, PartialEq, Eq)]
pub struct Counters {
    /// The stamp of the next changing call, at most 2^63.
    pub stamp: u64,
    /// The id of the next checkpoint.
    pub id: u32,
    /// The number of the next file or directory.
    pub number: u32,
}

/// A checkpoint's record in a table. One that is gone left the list, and its entries are still being moved.
#[derive(Clone, Copy, Debug, PartialEq, Eq)]
pub struct Fileset {
    pub name: NameBytes,
    pub kind: Kind,
    pub removable: bool,
    pub gone: bool,
    /// When it was created, in seconds since 1970-01-01T00:00:00Z.
    pub ctime: u64,
}

/// How a listing shows a checkpoint. A nodata one is delayed while an older one keeps data.
#[derive(Clone, Copy, Debug, PartialEq, Eq)]
pub enum State {
    Keeping,
    Nodata,
    Delayed,
}

/// A checkpoint in a listing.
#[derive(Clone, Copy, Debug, PartialEq, Eq)]
pub struct CkptLine {
    pub id: u32,
    pub state: State,
    pub removable: bool,
    /// When it was created, in seconds since 1970-01-01T00:00:00Z.
    pub ctime: u64,
    pub name: NameBytes,
}

/// The checkpoints of a listing, oldest first.
#[derive(Debug, Drop)]
pub struct CkptLines {
    lines: Vec<CkptLine>,
}

impl Model for CkptLines {
    ghost use Rattle.std.specs.Prelude.{List};
    ghost use Rattle.ck_model.specs.declared.checkpoint.CkptLine.{CkptLine};

    ghost Value = { List CkptLine };

    ghost view = { λ listing. listing.lines.items };
}

impl CkptLines {
    pub fn of(items: Vec<CkptLine>) -> CkptLines
        ensures { result ≡ items.items }
    {
        CkptLines { lines: items }
    }

    pub fn items(&self) -> &[CkptLine]
        ensures { result.now ≡ self.now }
    {
        &self.lines
    }

    pub fn into_vec(self) -> Vec<CkptLine>
        ensures { result.items ≡ self }
    {
        self.lines
    }
}
