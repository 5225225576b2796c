// A disk that passes so many calls on, and then fails every call.
ghost use Rattle.ck_disk.specs.Lost.{places_of};
ghost use Rattle.std.specs.Prelude.{◌≡◌, ◌≢◌, ◌<◌, ◌≤◌, ◌-◌, ℕ, List, IsTrue, IsErr, OnOk, OnErr, get_or, set, true, []};
ghost use Rattle.ck_disk.specs.Disk.{Step, Within, TearsAt, Only, IsSynced, Rose, KeepsClean, KeepsCleanBut};

use crate::disk::{Block, Disk, Failed};
use crate::lost::Lost;

/// A disk over another one, which it passes so many calls and then none. It shows what a stop of the device leaves: a
/// block whose write it failed itself may hold anything after a crash, though the disk below wasn't called.
#[derive(Drop)]
pub struct FuseDisk<D> {
    inner: D,
    passes: u64,
    read_faults: u64,
    write_faults: u64,
    lost: Lost,
    ghost intact: { 0 < passes → places_of lost ≡ [] },
}

impl<D: Disk> FuseDisk<D> {
    ghost use Rattle.ck_disk.specs.FuseDisk.{inner_of, passes_of, own_faults_of};

    pub fn new(inner: D, passes: u64) -> FuseDisk<D>
        ensures inner { inner_of result ≡ inner }
        ensures passes { passes_of result ≡ passes }
        ensures own_faults { own_faults_of result ≡ (0, 0) }
    {
        FuseDisk {
            inner,
            passes,
            read_faults: 0,
            write_faults: 0,
            lost: Lost::Nothing,
        }
    }

    pub fn into_inner(self) -> D
        ensures { result ≡ inner_of self }
    {
        let FuseDisk {
            inner,
            passes: _,
            read_faults: _,
            write_faults: _,
            lost: _,
        } = self;
        inner
    }
}

impl<D: Disk> Disk for FuseDisk<D> {
    ghost use Rattle.ck_disk.specs.FuseDisk.{inner_of, passes_of, meaning, lawful_meaning};

    ghost means = { meaning D.means };

    ghost lawful = { lawful_meaning D.means D.lawful };

    fn blocks(&self) -> u32 {
        self.inner.blocks()
    }

    fn read(&mut self, at: u32, into: &mut Block) -> Result<(), Failed>
        requires { at < (meaning D.means self.old).size }

        // The clauses of every disk.
        ensures bytes { let old = meaning D.means self.old in OnOk result (IsTrue old.tells → into.new ≡ get_or old.shows at []) }
        ensures shows { (meaning D.means self.new).shows ≡ (meaning D.means self.old).shows }
        ensures crash { Within (meaning D.means self.new).may_leave (meaning D.means self.old).may_leave }
        ensures marks { KeepsClean (meaning D.means self.old).written (meaning D.means self.new).written }
        ensures step { Step (meaning D.means self.old) (meaning D.means self.new) }
        ensures cause { OnErr result (Rose (meaning D.means self.old).read_faults (meaning D.means self.new).read_faults) }

        // It fails where no pass is left, with the disk below untouched, and else only where that disk failed.
        ensures passes { passes_of self.new ≡ passes_of self.old - 1 }
        ensures spent { passes_of self.old ≡ 0 → IsErr result }
        ensures untouched { passes_of self.old ≡ 0 → inner_of self.new ≡ inner_of self.old }
        ensures passed { 0 < passes_of self.old → OnErr result (Rose (D.means (inner_of self.old)).read_faults (D.means (inner_of self.new)).read_faults) }
    {
        if self.passes == 0 {
            self.read_faults = self.read_faults.saturating_add(1);
            return Err(Failed);
        }
        self.passes -= 1;
        self.inner.read(at, into)
    }

    fn write(&mut self, at: u32, from: &Block) -> Result<(), Failed>
        requires { at < (meaning D.means self.old).size }

        // The clauses of every disk.
        ensures bytes { let old = meaning D.means self.old in OnOk result (IsTrue old.tells → (meaning D.means self.new).shows ≡ set old.shows at from.now) }
        ensures others { let old = meaning D.means self.old in IsTrue old.tells → (b : List ℕ) × ((meaning D.means self.new).shows ≡ set old.shows at b) }
        ensures crash { TearsAt at (meaning D.means self.old).may_leave (meaning D.means self.new).may_leave }
        ensures marks { KeepsCleanBut at (meaning D.means self.old).written (meaning D.means self.new).written }
        ensures step { Step (meaning D.means self.old) (meaning D.means self.new) }
        ensures cause { OnErr result (Rose (meaning D.means self.old).write_faults (meaning D.means self.new).write_faults) }

        // It fails where no pass is left, with the disk below untouched, and else only where that disk failed.
        ensures passes { passes_of self.new ≡ passes_of self.old - 1 }
        ensures spent { passes_of self.old ≡ 0 → IsErr result }
        ensures untouched { passes_of self.old ≡ 0 → inner_of self.new ≡ inner_of self.old }
        ensures passed { 0 < passes_of self.old → OnErr result (Rose (D.means (inner_of self.old)).write_faults (D.means (inner_of self.new)).write_faults) }

        // A write that it fails itself counts as written.
        ensures lost { passes_of self.old ≡ 0 → (meaning D.means self.new).written at ≡ true }
    {
        if self.passes == 0 {
            self.write_faults = self.write_faults.saturating_add(1);
            self.lost = self.lost.more(at);
            return Err(Failed);
        }
        self.passes -= 1;
        self.inner.write(at, from)
    }

    fn sync(&mut self) -> Result<(), Failed>
        // The clauses of every disk.
        ensures durable { let old = meaning D.means self.old in OnOk result (IsTrue old.tells → Only old.shows (meaning D.means self.new).may_leave) }
        ensures shows { (meaning D.means self.new).shows ≡ (meaning D.means self.old).shows }
        ensures crash { Within (meaning D.means self.new).may_leave (meaning D.means self.old).may_leave }
        ensures marks { KeepsClean (meaning D.means self.old).written (meaning D.means self.new).written }
        ensures cleans { OnOk result (IsSynced (meaning D.means self.new)) }
        ensures step { Step (meaning D.means self.old) (meaning D.means self.new) }
        ensures cause { OnErr result (Rose (meaning D.means self.old).write_faults (meaning D.means self.new).write_faults) }

        // It fails where no pass is left, with the disk below untouched, and else only where that disk failed.
        ensures passes { passes_of self.new ≡ passes_of self.old - 1 }
        ensures spent { passes_of self.old ≡ 0 → IsErr result }
        ensures untouched { passes_of self.old ≡ 0 → inner_of self.new ≡ inner_of self.old }
        ensures passed { 0 < passes_of self.old → OnErr result (Rose (D.means (inner_of self.old)).write_faults (D.means (inner_of self.new)).write_faults) }
    {
        if self.passes == 0 {
            self.write_faults = self.write_faults.saturating_add(1);
            return Err(Failed);
        }
        self.passes -= 1;
        self.inner.sync()
    }
}
