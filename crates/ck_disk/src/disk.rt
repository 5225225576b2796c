// A block device as a trait: what its reads give, and which images a crash may leave.
ghost use Rattle.std.specs.Prelude.{◌≡◌, ◌<◌, ◌≤◌, ℕ, List, IsTrue, OnOk, OnErr, get_or, set, []};
ghost use Rattle.ck_disk.specs.Disk.{Meaning, Lawful, Step, Within, TearsAt, Only, IsSynced, Rose, KeepsClean, KeepsCleanBut};

/// What is read, written and torn as one.
pub type Block = [u8; 4096];

/// A call on a disk failed. The disk counts such calls: failed reads, and failed writes and syncs.
#[derive(Clone, Copy, Debug, PartialEq, Eq)]
pub struct Failed;

/// A device of 4,096-byte blocks. A write is safe from a crash once a later sync has answered Ok.
pub trait Disk {
    /// What this disk is at a moment: what it holds and what a crash may leave of it, as far as it tells that.
    ghost means: { Self → Meaning };

    /// The number of blocks. No call changes it.
    fn blocks(&self) -> u32
        ensures { result ≡ (means self.now).size };

    /// Reads a block. After a failure `into` may hold anything.
    fn read(&mut self, at: u32, into: &mut Block) -> Result<(), Failed>
        requires { at < (means self.old).size }
        ensures bytes { OnOk result (IsTrue (means self.old).tells → into.new ≡ get_or (means self.old).shows at []) }
        ensures shows { (means self.new).shows ≡ (means self.old).shows }
        ensures crash { Within (means self.new).may_leave (means self.old).may_leave }
        ensures marks { KeepsClean (means self.old).written (means self.new).written }
        ensures step { Step (means self.old) (means self.new) }
        ensures cause { OnErr result (Rose (means self.old).read_faults (means self.new).read_faults) };

    /// Writes a block. Until a sync, a crash may leave any bytes in it, also where the write failed.
    fn write(&mut self, at: u32, from: &Block) -> Result<(), Failed>
        requires { at < (means self.old).size }
        ensures bytes { OnOk result (IsTrue (means self.old).tells → (means self.new).shows ≡ set (means self.old).shows at from.now) }
        ensures others { IsTrue (means self.old).tells → (b : List ℕ) × ((means self.new).shows ≡ set (means self.old).shows at b) }
        ensures crash { TearsAt at (means self.old).may_leave (means self.new).may_leave }
        ensures marks { KeepsCleanBut at (means self.old).written (means self.new).written }
        ensures step { Step (means self.old) (means self.new) }
        ensures cause { OnErr result (Rose (means self.old).write_faults (means self.new).write_faults) };

    /// Makes what was written safe: after Ok a crash leaves what reads give, and nothing else.
    fn sync(&mut self) -> Result<(), Failed>
        ensures durable { OnOk result (IsTrue (means self.old).tells → Only (means self.old).shows (means self.new).may_leave) }
        ensures shows { (means self.new).shows ≡ (means self.old).shows }
        ensures crash { Within (means self.new).may_leave (means self.old).may_leave }
        ensures marks { KeepsClean (means self.old).written (means self.new).written }
        ensures cleans { OnOk result (IsSynced (means self.new)) }
        ensures step { Step (means self.old) (means self.new) }
        ensures cause { OnErr result (Rose (means self.old).write_faults (means self.new).write_faults) };

    /// What holds of every disk at every moment.
    ghost lawful: { (disk : Self) → Lawful (means disk) };
}
