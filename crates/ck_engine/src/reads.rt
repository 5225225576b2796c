ghost use Rattle.std.specs.Prelude.{◌≡◌, ◌≤◌, ◌+◌, ℕ, List, None, false, length, IfErr, IfSome, IsTrue};
ghost use Rattle.ck_disk.specs.Runs.{OnlyReads};
ghost use Rattle.ck_model.specs.History.{is_fault};
ghost use Rattle.ck_model.specs.Limits.{file_limit};
ghost use Rattle.ck_model.specs.ReadCalls.{checkpoint_read};
ghost use Rattle.ck_model.specs.Step.{answered};
ghost use Rattle.ck_model.specs.TableWorld.{world_on};
ghost use Rattle.ck_model.specs.Values.{Store};
ghost use Rattle.ck_data.specs.Reads.{IsReadingFault};
ghost use Rattle.ck_files.specs.Room.{answered_with};
ghost use Rattle.ck_read.specs.Mounted.{IsReadIn, IsReadNow};
ghost use Rattle.ck_read.specs.Progress.{had_by, turns_had, turns_of, IsOnWay, IsUnderWay};
ghost use Rattle.ck_engine.specs.Engine.{disk_of, table_of, mounts_of, world_of, no_memory, IsWhole, GoesOn, IsAttempt};
ghost use Rattle.ck_engine.specs.ReadAnswer.{bytes_in, IfBegun, IfMore, IfRefused, IfReplied};

use crate::engine::Engine;
use ck_data::Fault;
use ck_disk::Disk;
use ck_model::{Path, Reply};
use ck_read::{ReadProgress, ReadTurn, StartFault, start, turn};
use ck_tree::walk;
use std::alloc::Global;

/// What an event of a read of a checkpoint answers.
#[derive(Drop)]
pub enum ReadAnswer {
    /// A block was read, and bytes are left.
    More(ReadProgress),
    Replied(Reply),
}

impl<D: Disk> Engine<D> {
    /// Takes one block of an actor's read of a mounted checkpoint's file, which was begun before or begins
    /// now, or says why not.
    pub fn cread(
        &mut self,
        alloc: Global,
        actor: u32,
        letter: u8,
        path: &Path,
        at: u64,
        len: u32,
        begun: Option<ReadProgress>,
    ) -> Result<ReadAnswer, Fault>
        requires whole { IsWhole (D.means (disk_of self.old)) self.old }
        requires limit { at ≤ file_limit }
        requires on_way { IfSome begun (IsOnWay at) }

        // The device was read, and nothing else changed.
        ensures device { OnlyReads (D.means (disk_of self.old)) (D.means (disk_of self.new)) }
        ensures attempt { IsAttempt (D.means (disk_of self.old)) (D.means (disk_of self.new)) self.old self.new }
        ensures goes_on { GoesOn (D.means (disk_of self.old)) (D.means (disk_of self.new)) self.old self.new }
        ensures world { IsTrue (D.means (disk_of self.old)).tells → world_of (D.means (disk_of self.new)).shows self.new ≡ world_of (D.means (disk_of self.old)).shows self.old }
        ensures table { table_of self.new ≡ table_of self.old }
        ensures mounts { mounts_of self.new ≡ mounts_of self.old }

        // It replies as the model does, in as many turns as the bytes touch blocks, or goes on to fit.
        ensures replied { IfReplied result (λ reply. IsTrue (D.means (disk_of self.old)).tells → let w = world_of (D.means (disk_of self.old)).shows self.old in
            IfSome begun (IsReadIn w actor letter path.now at len) → answered w (checkpoint_read w actor letter path.now at len) ≡ answered_with reply w) }
        ensures ordinary { IfReplied result (λ reply. is_fault reply ≡ false) }
        ensures last { IfReplied result (λ reply. IfSome (bytes_in reply) (λ bytes. had_by begun + 1 ≡ turns_of at (length bytes))) }
        ensures more { IfMore result (λ read. IsOnWay at read × (turns_had read ≡ had_by begun + 1)) }
        ensures fits { IfMore result (λ read. IsTrue (D.means (disk_of self.old)).tells → let w = world_of (D.means (disk_of self.old)).shows self.old in
            IfSome begun (IsReadIn w actor letter path.now at len) → IsReadNow w actor letter path.now at len read) }
        ensures fault { IfErr result (IsReadingFault (D.means (disk_of self.old)) (D.means (disk_of self.new))) }
    {
        match begun {
            Some(read) => self.read_on(read),
            None => match self.begin_read(alloc, actor, letter, path, at, len)? {
                Ok(read) => self.read_on(read),
                Err(reply) => Ok(ReadAnswer::Replied(reply)),
            },
        }
    }

    /// Begins a read, or gives the reply that refuses it.
    fn begin_read(
        &self,
        alloc: Global,
        actor: u32,
        letter: u8,
        path: &Path,
        at: u64,
        len: u32,
    ) -> Result<Result<ReadProgress, Reply>, Fault>
        ensures under_way { IfBegun result IsUnderWay }
        ensures from { IfBegun result (λ read. read.from ≡ at) }
        ensures none_had { IfBegun result (λ read. turns_had read ≡ 0) }
        ensures fits { IfBegun result (λ read. (store : Store) → IsReadNow (world_on store (mounts_of self.now) (table_of self.now)) actor letter path.now at len read) }
        ensures refused { IfRefused result (λ reply. (store : Store) → let w = world_on store (mounts_of self.now) (table_of self.now) in
            answered w (checkpoint_read w actor letter path.now at len) ≡ answered_with reply w) }
        ensures ordinary { IfRefused result (λ reply. is_fault reply ≡ false) }
        ensures no_bytes { IfRefused result (λ reply. bytes_in reply ≡ None) }
        ensures fault { IfErr result (λ why. why ≡ no_memory) }
    {
        let Some(ckpt) = self.mounts.get(actor, letter) else {
            return Ok(Err(Reply::NotMounted));
        };
        let found = walk(&self.slots, ckpt, path);
        match start(alloc, &self.slots, ckpt, found, at, len) {
            Ok(read) => Ok(Ok(read)),
            Err(why) if why == StartFault::NoMemory => Err(Fault::NoMemory),
            Err(why) => Ok(Err(why.reply(ckpt))),
        }
    }

    /// Takes one block of a read.
    fn read_on(&mut self, mut read: ReadProgress) -> Result<ReadAnswer, Fault>
        requires whole { IsWhole (D.means (disk_of self.old)) self.old }
        requires under_way { IsUnderWay read }
        ensures device { OnlyReads (D.means (disk_of self.old)) (D.means (disk_of self.new)) }
        ensures others { self.new ≡ record self.old { disk = disk_of self.new } }
        ensures replied { IfReplied result (λ reply. IsTrue (D.means (disk_of self.old)).tells → let w = world_of (D.means (disk_of self.old)).shows self.old in
            (actor letter : ℕ) (path : List (List ℕ)) (at len : ℕ) → IsReadIn w actor letter path at len read → answered w (checkpoint_read w actor letter path at len) ≡ answered_with reply w) }
        ensures ordinary { IfReplied result (λ reply. is_fault reply ≡ false) }
        ensures last { IfReplied result (λ reply. IfSome (bytes_in reply) (λ bytes. turns_had read + 1 ≡ turns_of read.from (length bytes))) }
        ensures more { IfMore result (λ later. IsOnWay read.from later × (turns_had later ≡ turns_had read + 1)) }
        ensures fits { IfMore result (λ later. IsTrue (D.means (disk_of self.old)).tells → let w = world_of (D.means (disk_of self.old)).shows self.old in
            (actor letter : ℕ) (path : List (List ℕ)) (at len : ℕ) → IsReadIn w actor letter path at len read → IsReadNow w actor letter path at len later) }
        ensures fault { IfErr result (IsReadingFault (D.means (disk_of self.old)) (D.means (disk_of self.new))) }
    {
        let base = self.region.base();
        match turn(&self.slots, &mut self.disk, base, &mut read) {
            ReadTurn::More => Ok(ReadAnswer::More(read)),
            ReadTurn::Finished => Ok(ReadAnswer::Replied(Reply::Bytes(read.bytes))),
            ReadTurn::Gone => Ok(ReadAnswer::Replied(Reply::Gone(read.ckpt))),
            ReadTurn::NoData => Ok(ReadAnswer::Replied(Reply::NoData(read.ckpt))),
            ReadTurn::ReadFault => Err(Fault::ReadFault),
            ReadTurn::NoMemory => Err(Fault::NoMemory),
        }
    }
}
