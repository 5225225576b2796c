// A disk in memory. It keeps a record of its writes and syncs, from which each earlier moment follows.
ghost use Rattle.std.specs.Prelude.{◌≡◌, ◌<◌, ◌≤◌, ◌+◌, ◌-◌, ◌^◌, ◌++◌, ◌↔◌, ℕ, List, min, [], ◌∷◌, length, get_or, set, true, false, IsTrue, IsErr, OnOk, OnErr, Contains, if◌then◌else◌};
ghost use Rattle.ck_disk.specs.Disk.{Step, Within, TearsAt, Only, IsSynced, Rose, KeepsClean, KeepsCleanBut, AreBlocks};
ghost use Rattle.ck_disk.specs.MemRecord.{is_written};
ghost use Rattle.ck_disk.specs.MemLaws.{mem_lawful};

use crate::disk::{Block, Disk, Failed};
use crate::memory::NoMemory;
use std::alloc::Global;

/// The bytes that a crash leaves in one block.
#[derive(Drop)]
pub struct Torn {
    pub at: u32,
    pub bytes: Block,
}

/// A step of the record: a write, with the block as it stood before, or a sync.
#[derive(Drop)]
enum MemStep {
    Write(u32, Block),
    Sync,
}

/// A disk in memory, of which chosen calls fail and which may crash. It tells what it holds.
#[derive(Drop)]
pub struct MemDisk {
    blocks: Vec<Block>,
    fails: Vec<u64>,
    calls: u64,
    read_faults: u64,
    write_faults: u64,
    steps: Vec<MemStep>,
    ghost fits: { length blocks.items < 2 ^ 32 },
    ghost consists: { AreBlocks blocks.items },
}

impl MemDisk {
    ghost use Rattle.std.specs.Prelude.{replicate, IfOk, IsOkAnd};
    ghost use Rattle.ck_disk.specs.Disk.{IsFresh};
    ghost use Rattle.ck_disk.specs.MemDisk.{meaning, fails_of, calls_of, IsTornBy};

    /// A disk of so many blocks of zeros. The calls with these numbers, from 1, will fail.
    pub fn new(alloc: Global, blocks: u32, fails: Vec<u64>) -> Result<MemDisk, NoMemory>
        ensures fresh { IfOk result (λ disk. IsFresh (replicate blocks (replicate 4096 0)) (meaning disk)) }
        ensures fails { IfOk result (λ disk. fails_of disk ≡ fails.items) }
        ensures no_calls { IfOk result (λ disk. calls_of disk ≡ 0) }
    {
        let mut image = Vec::new(alloc);
        image.resize(blocks as usize, [0; 4096])?;
        MemDisk::of_image(alloc, image, fails)
    }

    /// A disk of these blocks. It takes no memory, so it never answers for want of it.
    pub fn of_image(alloc: Global, image: Vec<Block>, fails: Vec<u64>) -> Result<MemDisk, NoMemory>
        requires { length image.items < 2 ^ 32 }
        ensures fresh { IsOkAnd result (λ disk. IsFresh image.items (meaning disk)) }
        ensures fails { IfOk result (λ disk. fails_of disk ≡ fails.items) }
        ensures no_calls { IfOk result (λ disk. calls_of disk ≡ 0) }
    {
        are_blocks(&image);
        Ok(MemDisk {
            blocks: image,
            fails,
            calls: 0,
            read_faults: 0,
            write_faults: 0,
            steps: Vec::new(alloc),
        })
    }

    /// What reads give.
    pub fn image(&self) -> &[Block]
        ensures { result.now ≡ (meaning self.now).shows }
    {
        &self.blocks
    }

    /// The disk after a crash that left these bytes, each in a block that was written since the last sync. For any
    /// other block they are ignored, and of several for one block the last ones count.
    pub fn crash(self, torn: Vec<Torn>) -> MemDisk
        ensures may_be_left { (meaning self).may_leave (meaning result).shows }
        ensures torn { IsTornBy torn.items (meaning self) (meaning result).shows }
        ensures fresh { IsFresh (meaning result).shows (meaning result) }
        ensures fails { fails_of result ≡ [] }
        ensures no_calls { calls_of result ≡ 0 }
    {
        let MemDisk {
            mut blocks,
            mut fails,
            calls: _,
            read_faults: _,
            write_faults: _,
            mut steps,
        } = self;
        for one in &torn {
            tear(&mut blocks, &steps, one);
        }
        fails.clear();
        steps.clear();
        are_blocks(&blocks);
        MemDisk {
            blocks,
            fails,
            calls: 0,
            read_faults: 0,
            write_faults: 0,
            steps,
        }
    }
}

/// Does nothing: it is the type that says how long each block is.
fn are_blocks(image: &[Block])
    ensures { AreBlocks image.now }
{}

/// Replaces a block, if it was written since the last sync.
fn tear(blocks: &mut [Block], steps: &[MemStep], one: &Torn)
    ensures { blocks.new ≡ (if is_written steps.now one.now.at false then set blocks.old one.now.at one.now.bytes else blocks.old) }
{
    let at = one.at as usize;
    if at < blocks.len() && was_written(steps, one.at) {
        blocks[at] = one.bytes;
    }
}

fn was_written(steps: &[MemStep], at: u32) -> bool
    ensures { result ≡ is_written steps.now at false }
{
    let mut written = false;
    for step in steps {
        written = match step {
            MemStep::Write(place, _) => written || *place == at,
            MemStep::Sync => false,
        };
    }
    written
}

fn note(steps: &mut Vec<MemStep>, step: MemStep) -> bool
    ensures ok { result ≡ true → steps.new.items ≡ steps.old.items ++ step ∷ [] }
    ensures err { result ≡ false → steps.new.items ≡ steps.old.items }
{
    steps.push(step).is_ok()
}

/// Counts a call, and says whether it is one of those that fail. Calls past the last number of a `u64` aren't counted.
fn is_due(calls: &mut u64, fails: &[u64]) -> bool
    ensures due { IsTrue result ↔ Contains fails.now (calls.old + 1) }
    ensures counted { calls.new ≡ min (calls.old + 1) (2 ^ 64 - 1) }
{
    if *calls == u64::MAX {
        return false;
    }
    *calls += 1;
    fails.contains(calls)
}

impl Disk for MemDisk {
    ghost use Rattle.ck_disk.specs.MemDisk.{meaning, fails_of, calls_of, CountsCall, SameFaults};

    ghost means = { meaning };

    ghost lawful = { λ m. mem_lawful m.steps.items m.blocks.items m.read_faults m.write_faults m.fits m.consists };

    fn blocks(&self) -> u32 {
        self.blocks.len() as u32
    }

    fn read(&mut self, at: u32, into: &mut Block) -> Result<(), Failed>
        requires { at < (meaning self.old).size }

        // The clauses of every disk.
        ensures bytes { OnOk result (IsTrue (meaning self.old).tells → into.new ≡ get_or (meaning self.old).shows at []) }
        ensures shows { (meaning self.new).shows ≡ (meaning self.old).shows }
        ensures crash { Within (meaning self.new).may_leave (meaning self.old).may_leave }
        ensures marks { KeepsClean (meaning self.old).written (meaning self.new).written }
        ensures step { Step (meaning self.old) (meaning self.new) }
        ensures cause { OnErr result (Rose (meaning self.old).read_faults (meaning self.new).read_faults) }

        // It fails where its number says so, and nowhere else.
        ensures due { IsErr result ↔ Contains (fails_of self.old) (calls_of self.old + 1) }
        ensures counted { CountsCall self.old self.new }
        ensures no_fault { OnOk result (SameFaults (meaning self.old) (meaning self.new)) }
        ensures other_count { (meaning self.new).write_faults ≡ (meaning self.old).write_faults }
    {
        if is_due(&mut self.calls, &self.fails) {
            self.read_faults = self.read_faults.saturating_add(1);
            return Err(Failed);
        }
        *into = self.blocks[at as usize];
        Ok(())
    }

    fn write(&mut self, at: u32, from: &Block) -> Result<(), Failed>
        requires { at < (meaning self.old).size }

        // The clauses of every disk.
        ensures bytes { OnOk result (IsTrue (meaning self.old).tells → (meaning self.new).shows ≡ set (meaning self.old).shows at from.now) }
        ensures others { IsTrue (meaning self.old).tells → (b : List ℕ) × ((meaning self.new).shows ≡ set (meaning self.old).shows at b) }
        ensures crash { TearsAt at (meaning self.old).may_leave (meaning self.new).may_leave }
        ensures marks { KeepsCleanBut at (meaning self.old).written (meaning self.new).written }
        ensures step { Step (meaning self.old) (meaning self.new) }
        ensures cause { OnErr result (Rose (meaning self.old).write_faults (meaning self.new).write_faults) }

        // It fails where its number says so. It may fail besides where the record finds no memory.
        ensures due { Contains (fails_of self.old) (calls_of self.old + 1) → IsErr result }
        ensures failed { OnErr result ((meaning self.new).shows ≡ (meaning self.old).shows) }
        ensures counted { CountsCall self.old self.new }
        ensures no_fault { OnOk result (SameFaults (meaning self.old) (meaning self.new)) }
        ensures other_count { (meaning self.new).read_faults ≡ (meaning self.old).read_faults }
    {
        let due = is_due(&mut self.calls, &self.fails);
        let was = self.blocks[at as usize];
        let noted = note(&mut self.steps, MemStep::Write(at, was));
        if due || !noted {
            self.write_faults = self.write_faults.saturating_add(1);
            return Err(Failed);
        }
        self.blocks[at as usize] = *from;
        Ok(())
    }

    fn sync(&mut self) -> Result<(), Failed>
        // The clauses of every disk.
        ensures durable { OnOk result (IsTrue (meaning self.old).tells → Only (meaning self.old).shows (meaning self.new).may_leave) }
        ensures shows { (meaning self.new).shows ≡ (meaning self.old).shows }
        ensures crash { Within (meaning self.new).may_leave (meaning self.old).may_leave }
        ensures marks { KeepsClean (meaning self.old).written (meaning self.new).written }
        ensures cleans { OnOk result (IsSynced (meaning self.new)) }
        ensures step { Step (meaning self.old) (meaning self.new) }
        ensures cause { OnErr result (Rose (meaning self.old).write_faults (meaning self.new).write_faults) }

        // It fails where its number says so. It may fail besides where the record finds no memory.
        ensures due { Contains (fails_of self.old) (calls_of self.old + 1) → IsErr result }
        ensures counted { CountsCall self.old self.new }
        ensures no_fault { OnOk result (SameFaults (meaning self.old) (meaning self.new)) }
        ensures other_count { (meaning self.new).read_faults ≡ (meaning self.old).read_faults }
    {
        let due = is_due(&mut self.calls, &self.fails);
        if due || !note(&mut self.steps, MemStep::Sync) {
            self.write_faults = self.write_faults.saturating_add(1);
            return Err(Failed);
        }
        Ok(())
    }
}
