ghost use Rattle.std.specs.Prelude.{◌≡◌, ◌-◌, ◌≤◌, true, false, IsOk, IsTrue, IfOk, IfErr, OnOk, OnErr};
ghost use Rattle.ck_model.specs.declared.call.Call.TheVariants.{Create, Sync};
ghost use Rattle.ck_model.specs.declared.reply.Reply.TheVariants.{Done};
ghost use Rattle.ck_model.specs.Limits.{file_limit};
ghost use Rattle.ck_model.specs.History.{is_fault};
ghost use Rattle.ck_model.specs.ReadCalls.{range_read};
ghost use Rattle.ck_model.specs.TableWorld.{world_on};
ghost use Rattle.ck_model.specs.Name.{IsCheckpointName};
ghost use Rattle.ck_model.specs.Space.{without_picks};
ghost use Rattle.ck_model.specs.Step.{answered, changing, created, step};
ghost use Rattle.ck_model.specs.Streams.{Texts};
ghost use Rattle.ck_model.specs.Values.{Store};
ghost use Rattle.ck_model.specs.World.{World, unmounted};
ghost use Rattle.ck_files.specs.Allocated.{KeepsBusy};
ghost use Rattle.ck_files.specs.Built.{is_cread, IsBuilt, IsQuiet};
ghost use Rattle.ck_files.specs.Files.{AreFiles};
ghost use Rattle.ck_nodata.specs.StripItem.{IsStrippedTo};
ghost use Rattle.ck_files.specs.Conversion.{Converts};
ghost use Rattle.ck_files.specs.Flag.{Flags};
ghost use Rattle.ck_files.specs.Planned.{IsPlanned};
ghost use Rattle.ck_files.specs.Freeze.{Freezes};
ghost use Rattle.ck_files.specs.Removal.{Removes};
ghost use Rattle.ck_push.specs.Growth.{gains, losses, write_count};
ghost use Rattle.ck_tree.specs.Plan.{IsPlan};
ghost use Rattle.ck_model.specs.FileCalls.{IsChanging, changed_by};
ghost use Rattle.ck_files.specs.Room.{answered_after, answered_with, has_room};
ghost use Rattle.ck_files.specs.Reports.{limits_of};
ghost use Rattle.ck_engine.specs.Engine.{disk_of, table_of, mounts_of, blocks_of, layout_of, world_of, IsWhole, KeepsWorld, GoesOnGivingOrBreaks, GoesOnOrBreaks, IsAttempt, IsAttemptGiving, no_memory};
ghost use Rattle.ck_data.specs.Writes.{IsWritingFault};

use crate::engine::Engine;
use ck_data::{Fault, apply_planned, read};
use ck_disk::Disk;
use ck_files::{
    Given, Planned, ckpts, cls, convert, create, drain, info, ls, make_removable, mount,
    plan_changes, remove, stat, umount, used,
};
use ck_model::{Call, Change, NameBytes, NoMemory, Path, Reply};
use std::alloc::Global;

impl<D: Disk> Engine<D> {
    /// Makes a call's planned changes, with a commit before them where fewer data blocks are free
    /// than they write.
    fn change_planned(
        &mut self,
        alloc: Global,
        call: &Call,
        changes: &mut [Change],
        writes: u32,
    ) -> Result<Reply, Fault>
        requires whole { IsWhole (D.means (disk_of self.old)) self.old }
        requires changing { IsChanging call.now }
        requires plan { IsPlan (table_of self.old) call.now changes.old }
        requires room { has_room (table_of self.old) (write_count changes.old) (gains (table_of self.old) changes.old - losses (table_of self.old) changes.old) ≡ true }
        requires writes { writes ≡ write_count changes.old }
        ensures attempt { IsAttempt (D.means (disk_of self.old)) (D.means (disk_of self.new)) self.old self.new }
        ensures goes_on { GoesOnOrBreaks (D.means (disk_of self.old)) (D.means (disk_of self.new)) self.old self.new result }
        ensures ok { IfOk result (λ reply. IsTrue (D.means (disk_of self.old)).tells → let w = world_of (D.means (disk_of self.old)).shows self.old in
            changing w (changed_by w call.now) ≡ answered_with reply (world_of (D.means (disk_of self.new)).shows self.new)) }
        ensures ordinary { IfOk result (λ reply. is_fault reply ≡ false) }
        ensures err { OnErr result (IsTrue (D.means (disk_of self.old)).tells → world_of (D.means (disk_of self.new)).shows self.new ≡ world_of (D.means (disk_of self.old)).shows self.old) }
        ensures fault { IfErr result (IsWritingFault (D.means (disk_of self.old)) (D.means (disk_of self.new))) }
    {
        self.free_blocks(alloc, writes)?;
        let area = self.area();
        let limits = self.limits();
        match apply_planned(
            &mut self.slots,
            &mut self.blocks,
            limits,
            &mut self.disk,
            area,
            call,
            changes,
        ) {
            Ok(()) => Ok(Reply::Done),
            Err(fault) => Err(fault),
        }
    }

    /// Does a call that changes files. Where it has no room, removable checkpoints are given up.
    fn change(&mut self, alloc: Global, call: &Call) -> Given<Result<Reply, Fault>>
        requires whole { IsWhole (D.means (disk_of self.old)) self.old }
        requires changing { IsChanging call.now }
        ensures attempt { IsAttemptGiving result.count (D.means (disk_of self.old)) (D.means (disk_of self.new)) self.old self.new }
        ensures goes_on { GoesOnGivingOrBreaks result.count (D.means (disk_of self.old)) (D.means (disk_of self.new)) self.old self.new result.answer }
        ensures ok { IfOk result.answer (λ reply. IsTrue (D.means (disk_of self.old)).tells → let w = world_of (D.means (disk_of self.old)).shows self.old in
            changing w (changed_by w call.now) ≡ answered_after result.count reply (world_of (D.means (disk_of self.new)).shows self.new)) }
        ensures ordinary { IfOk result.answer (λ reply. is_fault reply ≡ false) }
        ensures err { OnErr result.answer (IsTrue (D.means (disk_of self.old)).tells → world_of (D.means (disk_of self.new)).shows self.new ≡ without_picks result.count (world_of (D.means (disk_of self.old)).shows self.old)) }
        ensures few { OnErr result.answer (let w = world_of (D.means (disk_of self.old)).shows self.old in result.count ≤ (changing w (changed_by w call.now)).given) }
        ensures fault { IfErr result.answer (IsWritingFault (D.means (disk_of self.old)) (D.means (disk_of self.new))) }
    {
        let limits = self.limits();
        let planned = plan_changes(
            alloc,
            &mut self.slots,
            &mut self.blocks,
            &mut self.stripped,
            limits,
            call,
        );
        match planned {
            Ok(planned) => {
                let answer = self.make(alloc, call, planned.answer);
                Given {
                    count: planned.count,
                    answer,
                }
            }
            Err(NoMemory) => Given::none(Err(Fault::NoMemory)),
        }
    }

    /// Makes what a call that changes files comes to.
    fn make(&mut self, alloc: Global, call: &Call, planned: Planned) -> Result<Reply, Fault>
        requires whole { IsWhole (D.means (disk_of self.old)) self.old }
        requires changing { IsChanging call.now }
        requires planned { IsPlanned (table_of self.old) call.now planned }
        ensures attempt { IsAttempt (D.means (disk_of self.old)) (D.means (disk_of self.new)) self.old self.new }
        ensures goes_on { GoesOnOrBreaks (D.means (disk_of self.old)) (D.means (disk_of self.new)) self.old self.new result }
        ensures ok { IfOk result (λ reply. IsTrue (D.means (disk_of self.old)).tells → let w = world_of (D.means (disk_of self.old)).shows self.old in
            changing w (changed_by w call.now) ≡ answered_with reply (world_of (D.means (disk_of self.new)).shows self.new)) }
        ensures ordinary { IfOk result (λ reply. is_fault reply ≡ false) }
        ensures err { OnErr result (IsTrue (D.means (disk_of self.old)).tells → world_of (D.means (disk_of self.new)).shows self.new ≡ world_of (D.means (disk_of self.old)).shows self.old) }
        ensures fault { IfErr result (IsWritingFault (D.means (disk_of self.old)) (D.means (disk_of self.new))) }
    {
        match planned {
            Planned::Answered(reply) => Ok(reply),
            Planned::Changes(mut changes, writes) => {
                self.change_planned(alloc, call, &mut changes, writes)
            }
        }
    }

    /// Freezes a checkpoint. The device isn't called; where no record is free, removable checkpoints are given up.
    fn freeze(
        &mut self,
        name: &NameBytes,
        nodata: bool,
        removable: bool,
        moment: u64,
    ) -> Given<Result<Reply, Fault>>
        requires whole { IsWhole (D.means (disk_of self.old)) self.old }
        requires name { IsCheckpointName name.now }
        ensures attempt { IsAttemptGiving result.count (D.means (disk_of self.old)) (D.means (disk_of self.new)) self.old self.new }
        ensures goes_on { GoesOnGivingOrBreaks result.count (D.means (disk_of self.old)) (D.means (disk_of self.new)) self.old self.new result.answer }
        ensures ok { IfOk result.answer (λ reply. created (world_of (D.means (disk_of self.old)).shows self.old) name.now nodata removable moment
            ≡ answered_after result.count reply (world_of (D.means (disk_of self.new)).shows self.new)) }
        ensures done { IsOk result.answer }
        ensures ordinary { IfOk result.answer (λ reply. is_fault reply ≡ false) }
        ensures freezes { IfOk result.answer (λ reply. Freezes (Create name.now nodata removable) moment reply (table_of self.old) (table_of self.new)) }
        ensures disk { disk_of self.new ≡ disk_of self.old }
    {
        let limits = self.limits();
        let Given { count, answer } = create(
            &mut self.slots,
            &mut self.blocks,
            &mut self.stripped,
            limits,
            name,
            nodata,
            removable,
            moment,
        );
        Given {
            count,
            answer: Ok(answer),
        }
    }

    fn read(&mut self, alloc: Global, path: &Path, at: u64, len: u32) -> Result<Reply, Fault>
        requires whole { IsWhole (D.means (disk_of self.old)) self.old }
        requires limit { at ≤ file_limit }
        ensures attempt { IsAttempt (D.means (disk_of self.old)) (D.means (disk_of self.new)) self.old self.new }
        ensures goes_on { GoesOnOrBreaks (D.means (disk_of self.old)) (D.means (disk_of self.new)) self.old self.new result }
        ensures ok { IfOk result (λ reply. IsTrue (D.means (disk_of self.old)).tells → let w = world_of (D.means (disk_of self.old)).shows self.old in
            answered w (range_read w.primary path.now at len) ≡ answered_with reply (world_of (D.means (disk_of self.new)).shows self.new)) }
        ensures ordinary { IfOk result (λ reply. is_fault reply ≡ false) }
        ensures err { OnErr result (IsTrue (D.means (disk_of self.old)).tells → world_of (D.means (disk_of self.new)).shows self.new ≡ world_of (D.means (disk_of self.old)).shows self.old) }
        ensures fault { IfErr result (IsWritingFault (D.means (disk_of self.old)) (D.means (disk_of self.new))) }
    {
        let area = self.area();
        read(
            alloc,
            &self.slots,
            &self.mounts,
            &mut self.disk,
            area,
            path,
            at,
            len,
        )
    }

    /// Does a call that makes no call of the device.
    fn answer_quietly(
        &mut self,
        alloc: Global,
        actor: u32,
        moment: u64,
        call: &Call,
    ) -> Result<Reply, NoMemory>
        requires whole { IsWhole (D.means (disk_of self.old)) self.old }
        requires built { IsBuilt call.now }
        requires quiet { IsQuiet call.now }
        ensures disk { disk_of self.new ≡ disk_of self.old }
        ensures region { layout_of self.new ≡ layout_of self.old }
        ensures files { AreFiles (limits_of (table_of self.old)) (table_of self.new) (blocks_of self.new) }
        ensures busy { KeepsBusy (blocks_of self.old) (blocks_of self.new) }
        ensures ok { IfOk result (λ reply. (store : Store) (texts : Texts) →
            step texts (world_on store (mounts_of self.old) (table_of self.old)) actor moment call.now
            ≡ answered_with reply (world_on store (mounts_of self.new) (table_of self.new))) }
        ensures ordinary { IfOk result (λ reply. is_fault reply ≡ false) }
        ensures removes { IfOk result (λ reply. Removes call.now reply (table_of self.old) (table_of self.new)) }
        ensures converts { IfOk result (λ reply. Converts call.now reply (table_of self.old) (table_of self.new)) }
        ensures flags { IfOk result (λ reply. Flags call.now reply (table_of self.old) (table_of self.new)) }
        ensures stripped { IsStrippedTo (table_of self.new) self.new.stripped }
        ensures err_table { OnErr result (table_of self.new ≡ table_of self.old) }
        ensures err_mounts { OnErr result (mounts_of self.new ≡ mounts_of self.old) }
    {
        let limits = self.limits();
        match call {
            Call::List(path) => ls(alloc, &self.slots, path),
            Call::Stat(path) => stat(alloc, &self.slots, path),
            Call::Clist(letter, path) => {
                cls(alloc, &self.slots, &self.mounts, actor, *letter, path)
            }
            Call::Remove(name) => Ok(remove(&mut self.slots, &mut self.stripped, name)),
            Call::Nodata(name, _) => Ok(convert(&mut self.slots, &mut self.stripped, name)),
            Call::Removable(name, on) => Ok(make_removable(&mut self.slots, name, *on)),
            Call::Mount(letter, name) => mount(&self.slots, &mut self.mounts, actor, *letter, name),
            Call::Umount(letter) => Ok(umount(&mut self.mounts, actor, *letter)),
            Call::Ckpts => ckpts(alloc, &self.slots),
            Call::Info => {
                drain(&mut self.slots, &mut self.blocks, &mut self.stripped);
                let used = used(&self.slots, &self.blocks, limits);
                Ok(info(&self.slots, limits, used))
            }
            _ => unreachable!(),
        }
    }

    fn quiet(&mut self, alloc: Global, actor: u32, moment: u64, call: &Call) -> Result<Reply, Fault>
        requires whole { IsWhole (D.means (disk_of self.old)) self.old }
        requires built { IsBuilt call.now }
        requires quiet { IsQuiet call.now }
        ensures attempt { IsAttempt (D.means (disk_of self.old)) (D.means (disk_of self.new)) self.old self.new }
        ensures goes_on { GoesOnOrBreaks (D.means (disk_of self.old)) (D.means (disk_of self.new)) self.old self.new result }
        ensures ok { IfOk result (λ reply. (texts : Texts) →
            step texts (world_of (D.means (disk_of self.old)).shows self.old) actor moment call.now
            ≡ answered_with reply (world_of (D.means (disk_of self.new)).shows self.new)) }
        ensures ordinary { IfOk result (λ reply. is_fault reply ≡ false) }
        ensures removes { IfOk result (λ reply. Removes call.now reply (table_of self.old) (table_of self.new)) }
        ensures converts { IfOk result (λ reply. Converts call.now reply (table_of self.old) (table_of self.new)) }
        ensures flags { IfOk result (λ reply. Flags call.now reply (table_of self.old) (table_of self.new)) }
        ensures err { OnErr result (world_of (D.means (disk_of self.new)).shows self.new ≡ world_of (D.means (disk_of self.old)).shows self.old) }
        ensures fault { IfErr result (λ fault. fault ≡ no_memory) }
    {
        match self.answer_quietly(alloc, actor, moment, call) {
            Ok(reply) => Ok(reply),
            Err(_) => Err(Fault::NoMemory),
        }
    }

    /// Does an actor's call at a moment, which isn't a read of a checkpoint. A failure leaves the world as it
    /// was, but for the checkpoints that were given up.
    pub fn answer(
        &mut self,
        alloc: Global,
        actor: u32,
        moment: u64,
        call: &Call,
    ) -> Given<Result<Reply, Fault>>
        requires whole { IsWhole (D.means (disk_of self.old)) self.old }
        requires built { IsBuilt call.now }
        requires at_once { is_cread call.now ≡ false }
        ensures attempt { IsAttemptGiving result.count (D.means (disk_of self.old)) (D.means (disk_of self.new)) self.old self.new }
        ensures goes_on { GoesOnGivingOrBreaks result.count (D.means (disk_of self.old)) (D.means (disk_of self.new)) self.old self.new result.answer }
        ensures ok { IfOk result.answer (λ reply. IsTrue (D.means (disk_of self.old)).tells → (texts : Texts) →
            step texts (world_of (D.means (disk_of self.old)).shows self.old) actor moment call.now
            ≡ answered_after result.count reply (world_of (D.means (disk_of self.new)).shows self.new)) }
        ensures ordinary { IfOk result.answer (λ reply. is_fault reply ≡ false) }
        ensures freezes { IfOk result.answer (λ reply. Freezes call.now moment reply (table_of self.old) (table_of self.new)) }
        ensures removes { IfOk result.answer (λ reply. Removes call.now reply (table_of self.old) (table_of self.new)) }
        ensures converts { IfOk result.answer (λ reply. Converts call.now reply (table_of self.old) (table_of self.new)) }
        ensures flags { IfOk result.answer (λ reply. Flags call.now reply (table_of self.old) (table_of self.new)) }
        ensures err { OnErr result.answer (IsTrue (D.means (disk_of self.old)).tells → world_of (D.means (disk_of self.new)).shows self.new ≡ without_picks result.count (world_of (D.means (disk_of self.old)).shows self.old)) }

        // A failure has given up no more checkpoints than the call itself would.
        ensures few { OnErr result.answer ((texts : Texts) → result.count ≤ (step texts (world_of (D.means (disk_of self.old)).shows self.old) actor moment call.now).given) }
        ensures fault { IfErr result.answer (IsWritingFault (D.means (disk_of self.old)) (D.means (disk_of self.new))) }

        // A sync has committed the present world.
        ensures synced { call.now ≡ Sync → OnOk result.answer (IsTrue (D.means (disk_of self.old)).tells → (w : World) → KeepsWorld (D.means (disk_of self.old)) self.old w
            → KeepsWorld (D.means (disk_of self.new)) self.new (unmounted (world_of (D.means (disk_of self.new)).shows self.new))) }
    {
        match call {
            Call::Make(_)
            | Call::Mkdir(_)
            | Call::Rm(_)
            | Call::Rmdir(_)
            | Call::Mv(_, _)
            | Call::Write(_, _, _)
            | Call::Fill(_, _, _, _)
            | Call::Trunc(_, _) => self.change(alloc, call),
            Call::Create(name, nodata, removable) => {
                self.freeze(name, *nodata, *removable, moment)
            }
            Call::Read(path, at, len) => Given::none(self.read(alloc, path, *at, *len)),
            Call::Sync => Given::none(self.sync(alloc)),
            _ => Given::none(self.quiet(alloc, actor, moment, call)),
        }
    }

    /// Commits the table.
    fn sync(&mut self, alloc: Global) -> Result<Reply, Fault>
        requires whole { IsWhole (D.means (disk_of self.old)) self.old }
        ensures attempt { IsAttempt (D.means (disk_of self.old)) (D.means (disk_of self.new)) self.old self.new }
        ensures goes_on { GoesOnOrBreaks (D.means (disk_of self.old)) (D.means (disk_of self.new)) self.old self.new result }
        ensures done { IfOk result (λ reply. reply ≡ Done) }
        ensures world { IsTrue (D.means (disk_of self.old)).tells → world_of (D.means (disk_of self.new)).shows self.new ≡ world_of (D.means (disk_of self.old)).shows self.old }
        ensures fault { IfErr result (IsWritingFault (D.means (disk_of self.old)) (D.means (disk_of self.new))) }
        ensures synced { OnOk result (IsTrue (D.means (disk_of self.old)).tells → (w : World) → KeepsWorld (D.means (disk_of self.old)) self.old w
            → KeepsWorld (D.means (disk_of self.new)) self.new (unmounted (world_of (D.means (disk_of self.new)).shows self.new))) }
    {
        self.commit(alloc)?;
        Ok(Reply::Done)
    }
}
