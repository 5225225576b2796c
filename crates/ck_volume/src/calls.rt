ghost use Rattle.std.specs.Prelude.{◌≡◌, ◌≢◌, ◌<◌, ◌≤◌, ◌+◌, ◌^◌, ◌++◌, ◌∷◌, [], ℕ, false, Some, None, IsTrue, IsOk, IsSome, IfOk, IfErr, IfNone, IfSome, OnOk, OnErr, MatchOption, if◌then◌else◌, is_some, length, slice_get};
ghost use Rattle.std.specs.Option.{option_or};
ghost use Rattle.ck_disk.specs.Disk.{Image, Rose};
ghost use Rattle.ck_log.specs.Layout.{IsSized};
ghost use Rattle.ck_model.specs.declared.reply.Reply.TheVariants as reply;
ghost use Rattle.ck_model.specs.Streams.{Texts};
ghost use Rattle.ck_model.specs.World.{unmounted};
ghost use Rattle.ck_model.specs.History.{CallsBy, numbers_of, is_write_fault, is_broken};
ghost use Rattle.ck_files.specs.Built.{IsBuilt};
ghost use Rattle.ck_files.specs.Conversion.{Converts};
ghost use Rattle.ck_files.specs.Drained.{IsDrained, IsStepped};
ghost use Rattle.ck_files.specs.Flag.{Flags};
ghost use Rattle.ck_files.specs.Freeze.{Freezes};
ghost use Rattle.ck_files.specs.Removal.{Removes};
ghost use Rattle.ck_disk.specs.Runs.{Runs};
ghost use Rattle.ck_engine.specs.Engine as files;
ghost use Rattle.ck_engine.specs.Exact.{IsExact};
ghost use Rattle.ck_engine.specs.Formatted.{IsFormatFault};
ghost use Rattle.ck_engine.specs.Opened.{IsOpenFault};
ghost use Rattle.ck_engine.specs.Opened as opened;
ghost use Rattle.ck_engine.specs.Recovery.{Recovers};
ghost use Rattle.ck_volume.specs.declared.background.Background.TheVariants as back;
ghost use Rattle.ck_volume.specs.declared.commit.CommitAnswer.TheVariants as answer;
ghost use Rattle.ck_volume.specs.declared.event.Turn.TheVariants.{Answered};
ghost use Rattle.ck_volume.specs.declared.event.Progress.TheVariants.{Fresh};
ghost use Rattle.ck_volume.specs.Causes.{acknowledges};
ghost use Rattle.ck_volume.specs.CommitAnswer.{broken_after, committed_after, spoilt_after};
ghost use Rattle.ck_volume.specs.Event.{newest, Follows, HasCause, IsEntryOf};
ghost use Rattle.ck_volume.specs.Present.{present};
ghost use Rattle.ck_volume.specs.Progress.{had_of, FitsHistory, IsBegunFor, IsLastOf};
ghost use Rattle.ck_volume.specs.Conversion.{strip_begun, ConvertsBy};
ghost use Rattle.ck_volume.specs.Turn.{entries_had, GoesOn, OnAnswered, OnEntry, OnMore, OnReading, OnStrip, StripsOn, UnlessStrip};
ghost use Rattle.ck_volume.specs.Volume.{disk_of, origin_of, table_of, mounts_of, history_of, room_of, length_of, committed_of, spoilt_of, told_of, broken_of, world_of, past_on, KeepsAllButRoom, KeepsLog, IsKept, IsBegun, IsOpened, IsFormatted};

use crate::background::{Background, drain, step, strip};
use crate::commit::{CommitAnswer, commit};
use crate::event::{Progress, Turn, happen};
use crate::log::Log;
use crate::told::Told;
use crate::volume::Volume;
use ck_disk::Disk;
use ck_engine::{Engine, FormatFault, OpenFault};
use ck_model::{Call, Entry, NoMemory};
use std::alloc::Global;
use std::snapshot::Snapshot;

/// What is left of a volume: its device, and the calls that it answered.
#[derive(Drop)]
pub struct Closed<D> {
    pub disk: D,
    pub history: Vec<Entry>,
}

/// The volume whose origin is its device as it stands now.
fn begun<D: Disk>(alloc: Global, engine: Engine<D>) -> Volume<D>
    requires begun { opened.IsBegun (D.means (files.disk_of engine)) engine }
    requires recovers { IsTrue (D.means (files.disk_of engine)).tells → Recovers (D.means (files.disk_of engine)).shows (files.world_of (D.means (files.disk_of engine)).shows engine) }
    requires kept { IsTrue (D.means (files.disk_of engine)).tells → files.KeepsWorld (D.means (files.disk_of engine)) engine (unmounted (files.world_of (D.means (files.disk_of engine)).shows engine)) }
    ensures engine { result.engine ≡ engine }
    ensures begun { IsBegun (D.means (disk_of result)) result }
    ensures origin { origin_of result ≡ files.disk_of engine }
    ensures committed { committed_of result ≡ 0 }
    ensures unspoilt { spoilt_of result ≡ None }
    ensures told { told_of result ≡ [] }
{
    Volume {
        origin: Snapshot::of(engine.disk()),
        committed: Snapshot::of(&0),
        told: Told::Nothing,
        spoilt: Snapshot::of(&None),
        log: Log::new(alloc),
        engine,
    }
}

/// Notes how many calls a commit has committed, after so many that were answered.
fn note_commit(committed: &mut Snapshot<u32>, answered: u32, answer: CommitAnswer)
    ensures { committed.new.value ≡ committed_after answered committed.old.value answer }
{
    if answer == CommitAnswer::Done {
        *committed = Snapshot::of(&answered);
    }
}

/// Notes how many calls a sync has committed, after so many that were answered.
fn note_sync(committed: &mut Snapshot<u32>, answered: u32, synced: bool)
    ensures { committed.new.value ≡ (if synced then answered else committed.old.value) }
{
    if synced {
        *committed = Snapshot::of(&answered);
    }
}

/// Notes after how many calls a commit broke the volume, where it did.
fn note_spoilt(spoilt: &mut Snapshot<Option<u32>>, answered: u32, answer: CommitAnswer)
    ensures { spoilt.new.value ≡ spoilt_after answered spoilt.old.value answer }
{
    if answer == CommitAnswer::WriteFault {
        *spoilt = Snapshot::of(&Some(answered));
    }
}

impl<D: Disk> Volume<D> {
    /// Makes a volume with so many data blocks and records on a device, over whatever stood there.
    pub fn format(
        alloc: Global,
        disk: D,
        blocks: u32,
        records: u32,
    ) -> Result<Volume<D>, FormatFault<D>>
        requires { IsSized blocks records }
        ensures formatted { IfOk result (λ volume. IsFormatted blocks records (D.means disk) (D.means (disk_of volume)) volume) }
        ensures fault { IfErr result (IsFormatFault D.means blocks records disk) }
        ensures origin { IfOk result (λ volume. origin_of volume ≡ disk_of volume) }
        ensures committed { IfOk result (λ volume. committed_of volume ≡ 0) }
        ensures unspoilt { IfOk result (λ volume. spoilt_of volume ≡ None) }
        ensures told { IfOk result (λ volume. told_of volume ≡ []) }
    {
        let engine = Engine::format(alloc, disk, blocks, records)?;
        Ok(begun(alloc, engine))
    }

    /// Opens the volume on a device, with the table that was committed last.
    pub fn open(alloc: Global, disk: D) -> Result<Volume<D>, OpenFault<D>>
        ensures opened { IfOk result (λ volume. IsOpened (D.means disk) (D.means (disk_of volume)) volume) }
        ensures fault { IfErr result (IsOpenFault D.means (D.means disk)) }
        ensures origin { IfOk result (λ volume. origin_of volume ≡ disk_of volume) }
        ensures committed { IfOk result (λ volume. committed_of volume ≡ 0) }
        ensures unspoilt { IfOk result (λ volume. spoilt_of volume ≡ None) }
        ensures told { IfOk result (λ volume. told_of volume ≡ []) }
    {
        let engine = Engine::open(alloc, disk)?;
        Ok(begun(alloc, engine))
    }

    /// Takes memory for so many calls more than it answered, unless there is room for them already.
    pub fn reserve(&mut self, calls: u32) -> Result<(), NoMemory>
        requires { length_of self.old + calls < 2 ^ 32 }
        ensures room { OnOk result (calls ≤ room_of self.new) }
        ensures no_less { room_of self.old ≤ room_of self.new }
        ensures succeeds { calls ≤ room_of self.old → IsOk result }
        ensures err { OnErr result (room_of self.new ≡ room_of self.old) }
        ensures history { history_of self.new ≡ history_of self.old }
        ensures disk { disk_of self.new ≡ disk_of self.old }
        ensures rest { KeepsAllButRoom self.old self.new }
        ensures committed { committed_of self.new ≡ committed_of self.old }
        ensures origin { origin_of self.new ≡ origin_of self.old }
        ensures spoilt { spoilt_of self.new ≡ spoilt_of self.old }
        ensures told { told_of self.new ≡ told_of self.old }
    {
        self.log.history.reserve(calls)
    }

    /// Makes one event of an actor's next call, which has this number among the actor's and began at this
    /// moment. It answers the call, and puts its entry into the history, or takes one block of a checkpoint
    /// that it reads. It takes no memory for the entry. The entry of a conversion step by step comes with its
    /// first event; each event of it strips a data block, until none of its checkpoint's is left.
    pub fn event(
        &mut self,
        alloc: Global,
        actor: u32,
        seq: u32,
        at: u64,
        call: &Call,
        progress: &mut Progress,
    ) -> Turn
        requires built { IsBuilt call.now }
        requires room { UnlessStrip progress.old (0 < room_of self.old) }
        requires number { seq + entries_had progress.old ≡ length (numbers_of (history_of self.old) actor) + 1 }
        requires unspoilt { spoilt_of self.old ≡ None }
        requires begun { IsBegunFor call.now progress.old }
        requires fits { FitsHistory (D.means (origin_of self.old)) (told_of self.old) (history_of self.old) actor call.now progress.old }

        // A block of a checkpoint was read, and more are left; or one was stripped.
        ensures more { OnReading result progress.new (GoesOn D.means self.old self.new actor call.now progress.old progress.new) }
        ensures strips { OnStrip progress.old (λ id. StripsOn D.means self.old self.new id result progress.new) }

        // Where there is more to do, it is of the call, and fits it.
        ensures begun { OnMore result (IsBegunFor call.now progress.new) }
        ensures fits { OnMore result (FitsHistory (D.means (origin_of self.new)) (told_of self.new) (history_of self.new) actor call.now progress.new) }
        ensures progress { OnAnswered result (progress.new ≡ Fresh) }

        // Its one entry is legal where the history stands.
        ensures added { OnEntry progress.old result progress.new (history_of self.new ≡ history_of self.old ++ newest (history_of self.new) ∷ []) }
        ensures room { OnEntry progress.old result progress.new (room_of self.new + 1 ≡ room_of self.old) }
        ensures entry { OnEntry progress.old result progress.new (IsEntryOf actor seq at (newest (history_of self.new))) }
        ensures follows { OnEntry progress.old result progress.new (IsTrue (D.means (disk_of self.old)).tells → (texts : Texts) (calls : CallsBy) → calls actor seq ≡ Some call.now
            → Follows texts calls (past_on (D.means (disk_of self.old)).shows self.old) (newest (history_of self.new)) (past_on (D.means (disk_of self.new)).shows self.new)) }

        // Bytes of a checkpoint come with the last block that they touch, or at once where they touch none.
        ensures last { OnEntry progress.old result progress.new (IsLastOf call.now (newest (history_of self.new)).reply (had_of progress.old + 1)) }

        // A call goes on behind its entry only where it was done.
        ensures done { OnEntry progress.old result progress.new (OnMore result ((newest (history_of self.new)).reply ≡ reply.Done)) }

        // A checkpoint costs one record where one is free: nothing is copied. Its removal marks that record alone, and so do
        // its conversion and its being made removable.
        ensures freezes { OnEntry progress.old result progress.new (Freezes call.now at (newest (history_of self.new)).reply (table_of self.old) (table_of self.new)) }
        ensures removes { OnEntry progress.old result progress.new (Removes call.now (newest (history_of self.new)).reply (table_of self.old) (table_of self.new)) }
        ensures converts { OnEntry progress.old result progress.new (ConvertsBy call.now (newest (history_of self.new)).reply (table_of self.old) (table_of self.new) result progress.new) }
        ensures flags { OnEntry progress.old result progress.new (Flags call.now (newest (history_of self.new)).reply (table_of self.old) (table_of self.new)) }

        // A failed write breaks it; once it is broken it says so, and leaves the device alone.
        ensures broken { OnEntry progress.old result progress.new (broken_of self.new ≡ option_or (broken_of self.old) (if is_write_fault (newest (history_of self.new)).reply then Some (length_of self.old) else None)) }
        ensures refused { OnEntry progress.old result progress.new (MatchOption (broken_of self.old) (is_broken (newest (history_of self.new)).reply ≡ false) (λ entry. (newest (history_of self.new)).reply ≡ reply.Broken entry)) }
        ensures untouched { IsSome (broken_of self.old) → (result ≡ Answered) × (disk_of self.new ≡ disk_of self.old) }
        ensures cause { OnEntry progress.old result progress.new (HasCause (D.means (disk_of self.old)) (D.means (disk_of self.new)) (newest (history_of self.new)).reply) }
        ensures runs { Runs (D.means (disk_of self.old)) (D.means (disk_of self.new)) }

        // A sync that was done has committed all entries up to itself.
        ensures committed { OnEntry progress.old result progress.new (committed_of self.new ≡ (if acknowledges call.now (newest (history_of self.new)).reply then length_of self.new else committed_of self.old)) }
        ensures origin { origin_of self.new ≡ origin_of self.old }
        ensures spoilt { spoilt_of self.new ≡ spoilt_of self.old }

        // It remembers the call. Its history is legal from the world that its origin recovers to, up to the present one, and
        // each image that a crash may have left recovers a cut of it.
        ensures told { OnEntry progress.old result progress.new (told_of self.new ≡ told_of self.old ++ call.now ∷ []) }
        ensures kept { IsKept D.means self.new }
    {
        if let Some(id) = progress.strip_id() {
            return self.strip_on(id, progress);
        }
        match self.answer(alloc, actor, seq, at, call, progress) {
            Turn::More => Turn::More,
            Turn::Answered => self.begin_strip(call, progress),
        }
    }

    /// Answers an actor's next call, and puts its entry into the history, or takes one block of a checkpoint
    /// that it reads.
    fn answer(
        &mut self,
        alloc: Global,
        actor: u32,
        seq: u32,
        at: u64,
        call: &Call,
        progress: &mut Progress,
    ) -> Turn
        requires built { IsBuilt call.now }
        requires room { 0 < room_of self.old }
        requires number { seq ≡ length (numbers_of (history_of self.old) actor) + 1 }
        requires unspoilt { spoilt_of self.old ≡ None }
        requires unless_strip { OnStrip progress.old (λ id. ⊥) }
        requires begun { IsBegunFor call.now progress.old }
        requires fits { FitsHistory (D.means (origin_of self.old)) (told_of self.old) (history_of self.old) actor call.now progress.old }

        // A block of a checkpoint was read, and more are left.
        ensures more { OnMore result (GoesOn D.means self.old self.new actor call.now progress.old progress.new) }

        // Its one entry is legal where the history stands.
        ensures progress { OnAnswered result (progress.new ≡ Fresh) }
        ensures added { OnAnswered result (history_of self.new ≡ history_of self.old ++ newest (history_of self.new) ∷ []) }
        ensures room { OnAnswered result (room_of self.new + 1 ≡ room_of self.old) }
        ensures entry { OnAnswered result (IsEntryOf actor seq at (newest (history_of self.new))) }
        ensures follows { OnAnswered result (IsTrue (D.means (disk_of self.old)).tells → (texts : Texts) (calls : CallsBy) → calls actor seq ≡ Some call.now
            → Follows texts calls (past_on (D.means (disk_of self.old)).shows self.old) (newest (history_of self.new)) (past_on (D.means (disk_of self.new)).shows self.new)) }

        // Bytes of a checkpoint come with the last block that they touch, or at once where they touch none.
        ensures last { OnAnswered result (IsLastOf call.now (newest (history_of self.new)).reply (had_of progress.old + 1)) }

        // A checkpoint costs one record where one is free: nothing is copied. Its removal, its conversion and its flag change
        // that record alone.
        ensures freezes { OnAnswered result (Freezes call.now at (newest (history_of self.new)).reply (table_of self.old) (table_of self.new)) }
        ensures removes { OnAnswered result (Removes call.now (newest (history_of self.new)).reply (table_of self.old) (table_of self.new)) }
        ensures converts { OnAnswered result (Converts call.now (newest (history_of self.new)).reply (table_of self.old) (table_of self.new)) }
        ensures flags { OnAnswered result (Flags call.now (newest (history_of self.new)).reply (table_of self.old) (table_of self.new)) }

        // A failed write breaks it; once it is broken it says so, and leaves the device alone.
        ensures broken { OnAnswered result (broken_of self.new ≡ option_or (broken_of self.old) (if is_write_fault (newest (history_of self.new)).reply then Some (length_of self.old) else None)) }
        ensures refused { OnAnswered result (MatchOption (broken_of self.old) (is_broken (newest (history_of self.new)).reply ≡ false) (λ entry. (newest (history_of self.new)).reply ≡ reply.Broken entry)) }
        ensures untouched { IsSome (broken_of self.old) → (result ≡ Answered) × (disk_of self.new ≡ disk_of self.old) }
        ensures cause { OnAnswered result (HasCause (D.means (disk_of self.old)) (D.means (disk_of self.new)) (newest (history_of self.new)).reply) }
        ensures runs { Runs (D.means (disk_of self.old)) (D.means (disk_of self.new)) }

        // A sync that was done has committed all entries up to itself.
        ensures committed { OnAnswered result (committed_of self.new ≡ (if acknowledges call.now (newest (history_of self.new)).reply then length_of self.new else committed_of self.old)) }
        ensures origin { origin_of self.new ≡ origin_of self.old }
        ensures spoilt { spoilt_of self.new ≡ spoilt_of self.old }

        // It remembers the call. Its history is legal from the world that its origin recovers to, up to the present one, and
        // each image that a crash may have left recovers a cut of it.
        ensures told { OnAnswered result (told_of self.new ≡ told_of self.old ++ call.now ∷ []) }
        ensures kept { IsKept D.means self.new }
    {
        match happen(
            &mut self.engine,
            &mut self.log,
            alloc,
            actor,
            seq,
            at,
            call,
            progress,
        ) {
            Turn::More => Turn::More,
            Turn::Answered => {
                self.told = self.told.more(call);
                let synced = self.log.acknowledged(call);
                let answered = self.log.history.length();
                note_sync(&mut self.committed, answered, synced);
                Turn::Answered
            }
        }
    }

    /// Strips a data block where one of this checkpoint is left to strip, unless the volume is broken. The
    /// call is through where none of it is left.
    fn strip_on(&mut self, id: u32, progress: &mut Progress) -> Turn
        ensures strips { StripsOn D.means self.old self.new id result progress.new }
        ensures progress { OnAnswered result (progress.new ≡ Fresh) }
        ensures untouched { IsSome (broken_of self.old) → result ≡ Answered }
        ensures kept { IsKept D.means self.new }
    {
        if strip(&mut self.engine, &self.log, id) {
            *progress = Progress::Strip(id);
            Turn::More
        } else {
            *progress = Progress::Fresh;
            Turn::Answered
        }
    }

    /// The checkpoint that a call goes on to strip which was just answered: that of a conversion step by
    /// step which was done.
    fn to_strip(&self, call: &Call) -> Option<u32>
        requires { 0 < length_of self.now }
        ensures { result ≡ strip_begun call.now (newest (history_of self.now)).reply (table_of self.now) }
    {
        match call {
            Call::Nodata(name, true) if self.log.is_done() => self.engine.find(name),
            _ => None,
        }
    }

    /// Begins to strip where the call goes on to, which was just answered.
    fn begin_strip(&mut self, call: &Call, progress: &mut Progress) -> Turn
        requires answered { 0 < length_of self.old }
        requires fresh { progress.old ≡ Fresh }
        ensures strips { IfSome (strip_begun call.now (newest (history_of self.old)).reply (table_of self.old)) (λ id. StripsOn D.means self.old self.new id result progress.new) }
        ensures through { IfNone (strip_begun call.now (newest (history_of self.old)).reply (table_of self.old)) ((result ≡ Answered) × (progress.new ≡ Fresh) × (self.new ≡ self.old)) }
        ensures progress { OnAnswered result (progress.new ≡ Fresh) }
        ensures kept { IsKept D.means self.new }
    {
        match self.to_strip(call) {
            Some(id) => self.strip_on(id, progress),
            None => Turn::Answered,
        }
    }

    /// Takes one step of what is left to do in the background: of the removal of a checkpoint that is gone,
    /// or, where none is, of the stripping of those that keep no data. Nobody sees it, and the device isn't
    /// called.
    pub fn background(&mut self) -> Background
        ensures world { world_of (D.means (disk_of self.old)).shows self.new ≡ world_of (D.means (disk_of self.old)).shows self.old }
        ensures mounts { mounts_of self.new ≡ mounts_of self.old }
        ensures log { KeepsLog self.old self.new }
        ensures disk { disk_of self.new ≡ disk_of self.old }

        // A step leaves one less to do; a broken volume stays as it is.
        ensures stepped { result ≡ back.Stepped → IsStepped (table_of self.old) (table_of self.new) }
        ensures idle { result ≡ back.Idle → IsDrained (table_of self.new) }
        ensures broken { result ≡ back.Broken → IsSome (broken_of self.old) }
        ensures untouched { IsSome (broken_of self.old) → (result ≡ back.Broken) × KeepsAllButRoom self.old self.new }

        ensures kept { IsKept D.means self.new }
    {
        step(&mut self.engine, &self.log)
    }

    /// Takes all background steps that are left.
    pub fn drain(&mut self)
        ensures world { world_of (D.means (disk_of self.old)).shows self.new ≡ world_of (D.means (disk_of self.old)).shows self.old }
        ensures mounts { mounts_of self.new ≡ mounts_of self.old }
        ensures log { KeepsLog self.old self.new }
        ensures disk { disk_of self.new ≡ disk_of self.old }
        ensures drained { broken_of self.old ≡ None → IsDrained (table_of self.new) }
        ensures untouched { IsSome (broken_of self.old) → KeepsAllButRoom self.old self.new }
        ensures kept { IsKept D.means self.new }
    {
        drain(&mut self.engine, &self.log);
    }

    /// Commits the present world, which no call does but `sync`: a crash leaves it afterwards, without its mounts.
    pub fn commit(&mut self, alloc: Global) -> CommitAnswer

        // The world stays, and no entry is made.
        ensures world { IsTrue (D.means (disk_of self.old)).tells → world_of (D.means (disk_of self.new)).shows self.new ≡ world_of (D.means (disk_of self.old)).shows self.old }
        ensures mounts { mounts_of self.new ≡ mounts_of self.old }
        ensures history { history_of self.new ≡ history_of self.old }
        ensures room { room_of self.new ≡ room_of self.old }

        // A failed write breaks the volume; once it is broken it says so, and leaves the device alone.
        ensures broken { broken_of self.new ≡ broken_after (length_of self.old) (broken_of self.old) result }
        ensures refused { (n : ℕ) → broken_of self.old ≡ Some n → result ≡ answer.Broken n }
        ensures not_refused { broken_of self.old ≡ None → (n : ℕ) → result ≢ answer.Broken n }
        ensures untouched { IsSome (broken_of self.old) → disk_of self.new ≡ disk_of self.old }
        ensures cause { result ≡ answer.WriteFault → Rose (D.means (disk_of self.old)).write_faults (D.means (disk_of self.new)).write_faults }
        ensures runs { Runs (D.means (disk_of self.old)) (D.means (disk_of self.new)) }

        // Refused memory leaves files, device and history as they were: nothing was written.
        ensures no_memory { result ≡ answer.NoMemory → KeepsAllButRoom self.old self.new }

        ensures committed_entries { committed_of self.new ≡ committed_after (length_of self.new) (committed_of self.old) result }
        ensures origin { origin_of self.new ≡ origin_of self.old }
        ensures spoilt { spoilt_of self.new ≡ spoilt_after (length_of self.new) (spoilt_of self.old) result }
        ensures told { told_of self.new ≡ told_of self.old }

        // Its history stands as before, and each image now recovers a cut of it with all that was committed.
        ensures kept { IsKept D.means self.new }

        // Afterwards a crash leaves the present world, and nothing beside it where nothing is left to remove or to strip.
        ensures exact { IsDrained (table_of self.old) → result ≡ answer.Done → IsTrue (D.means (disk_of self.old)).tells
            → (image : Image) → (D.means (disk_of self.new)).may_leave image → IsExact (unmounted (world_of (D.means (disk_of self.new)).shows self.new)) image }
    {
        let answer = commit(&mut self.engine, &mut self.log, alloc);
        let answered = self.log.history.length();
        note_commit(&mut self.committed, answered, answer);
        note_spoilt(&mut self.spoilt, answered, answer);
        answer
    }

    /// How many calls it answered.
    pub fn length(&self) -> u32
        ensures { result ≡ length_of self.now }
    {
        self.log.history.length()
    }

    /// The entry of an answered call by its number, counted from 0.
    pub fn entry(&self, at: u32) -> &Entry
        requires { at < length_of self.now }
        ensures { slice_get (history_of self.now) at ≡ Some result.now }
    {
        self.log.history.entry(at)
    }

    /// Whether a write of it has failed.
    pub fn is_broken(&self) -> bool
        ensures { result ≡ is_some (broken_of self.now) }
    {
        self.log.broken.is_some()
    }

    /// Ends its use. What wasn't committed is lost.
    pub fn close(self) -> Closed<D>
        ensures disk { result.disk ≡ disk_of self }
        ensures history { result.history.items ≡ history_of self }
        ensures kept { IsKept D.means self }
    {
        let Volume {
            engine,
            log,
            origin: _,
            committed: _,
            told: _,
            spoilt: _,
        } = self;
        Closed {
            disk: engine.into_disk(),
            history: log.history.into_entries(),
        }
    }
}
