ghost use Rattle.std.specs.Prelude.{◌≡◌, ◌+◌, ◌<◌, ◌≤◌, ℕ, ◌++◌, ◌∷◌, [], false, Some, None, IsTrue, IsSome, MatchOption, if◌then◌else◌};
ghost use Rattle.std.specs.Option.{option_or};
ghost use Rattle.ck_history.specs.History.{room_of};
ghost use Rattle.ck_model.specs.declared.call.Call.TheVariants.{Cread, Sync};
ghost use Rattle.ck_model.specs.declared.reply.Reply.TheVariants as reply;
ghost use Rattle.ck_model.specs.Streams.{Texts};
ghost use Rattle.ck_model.specs.World.{World, unmounted};
ghost use Rattle.ck_model.specs.History.{CallsBy, is_fault, is_write_fault, is_broken};
ghost use Rattle.ck_model.specs.Limits.{file_limit};
ghost use Rattle.ck_files.specs.Built.{is_cread, IsBuilt};
ghost use Rattle.ck_read.specs.Progress.{turns_had, IsOnWay};
ghost use Rattle.ck_engine.specs.Engine as files;
ghost use Rattle.ck_files.specs.Conversion.{Converts};
ghost use Rattle.ck_files.specs.Flag.{Flags};
ghost use Rattle.ck_files.specs.Freeze.{Freezes};
ghost use Rattle.ck_files.specs.Removal.{Removes};
ghost use Rattle.ck_engine.specs.Engine.{disk_of, table_of, IsWhole};
ghost use Rattle.ck_disk.specs.Runs.{Runs};
ghost use Rattle.ck_volume.specs.Cuts.{SurvivesOnTheWay, KeepsOnTheWay};
ghost use Rattle.ck_volume.specs.Event.{newest, Answers, Follows, HasCause, IsEntryOf};
ghost use Rattle.ck_volume.specs.declared.event.Progress.TheVariants.{Fresh};
ghost use Rattle.ck_volume.specs.declared.event.Turn.TheVariants.{Answered};
ghost use Rattle.ck_volume.specs.Progress.{had_of, read_of, strip_of, FitsNow, FitsWorld, IsBegunFor, IsLastOf, IsNowOf, IsOfCall};
ghost use Rattle.ck_volume.specs.Turn.{IsReading, OnAnswered, OnMore, OnRead, OnReply, OnStrip};
ghost use Rattle.ck_volume.specs.Present.{present, history_of, length_of, broken_of, world_of, past_on, IsReady, KeepsWorld};

use crate::log::Log;
use ck_data::Fault;
use ck_disk::Disk;
use ck_engine::{Engine, ReadAnswer};
use ck_files::Given;
use ck_model::{Call, Entry, Path, Reply};
use ck_read::ReadProgress;
use std::alloc::Global;

/// Whether an event answered its call, or there is more to do of it.
#[derive(Clone, Copy, Debug, PartialEq, Eq)]
pub enum Turn {
    More,
    Answered,
}

/// How far a call has come that takes more than one event.
#[derive(Drop)]
pub enum Progress {
    /// It wasn't begun, or it was answered.
    Fresh,
    /// It reads a checkpoint.
    Read(ReadProgress),
    /// It was answered, and strips the checkpoint with this id.
    Strip(u32),
}

impl Progress {
    /// The read that is on its way.
    fn into_read(self) -> Option<ReadProgress>
        ensures { result ≡ read_of self }
    {
        match self {
            Progress::Fresh => None,
            Progress::Read(read) => Some(read),
            Progress::Strip(_) => None,
        }
    }

    /// The checkpoint that it strips.
    pub(crate) fn strip_id(&self) -> Option<u32>
        ensures { result ≡ strip_of self.now }
    {
        match self {
            Progress::Strip(id) => Some(*id),
            _ => None,
        }
    }
}

fn entry_of(actor: u32, seq: u32, at: u64, given: u32, reply: Reply) -> Entry
    ensures { result ≡ record { actor = actor; seq = seq; at = at; given = given; reply = reply } }
{
    Entry {
        actor,
        seq,
        at,
        given,
        reply,
    }
}

/// The reply to an actor's call at a moment, on a volume that isn't broken, and how many checkpoints were
/// given up for it. A failed write breaks it. A read of a checkpoint isn't answered here.
fn answer<D: Disk>(
    engine: &mut Engine<D>,
    log: &mut Log,
    alloc: Global,
    actor: u32,
    moment: u64,
    call: &Call,
) -> Given<Reply>
    requires built { IsBuilt call.now }
    requires at_once { is_cread call.now ≡ false }
    requires whole { IsWhole (D.means (disk_of engine.old)) engine.old }
    requires unbroken { log.old.broken ≡ None }
    ensures answers { IsTrue (D.means (disk_of engine.old)).tells → (texts : Texts) → Answers texts (world_of (D.means (disk_of engine.old)).shows (present engine.old log.old)) actor moment call.now result.count result.answer (world_of (D.means (disk_of engine.new)).shows (present engine.new log.new)) }
    ensures ready { IsReady (D.means (disk_of engine.new)) (present engine.new log.new) }
    ensures freezes { Freezes call.now moment result.answer (table_of engine.old) (table_of engine.new) }
    ensures removes { Removes call.now result.answer (table_of engine.old) (table_of engine.new) }
    ensures converts { Converts call.now result.answer (table_of engine.old) (table_of engine.new) }
    ensures flags { Flags call.now result.answer (table_of engine.old) (table_of engine.new) }
    ensures history { log.new.history ≡ log.old.history }
    ensures broken { log.new.broken ≡ (if is_write_fault result.answer then Some (length_of (present engine.old log.old)) else None) }
    ensures not_refused { is_broken result.answer ≡ false }
    ensures cause { HasCause (D.means (disk_of engine.old)) (D.means (disk_of engine.new)) result.answer }
    ensures runs { Runs (D.means (disk_of engine.old)) (D.means (disk_of engine.new)) }
    ensures survives { SurvivesOnTheWay result.count (D.means (disk_of engine.old)) (D.means (disk_of engine.new)) (present engine.old log.old) }
    ensures kept { log.new.broken ≡ None → IsTrue (D.means (disk_of engine.old)).tells → (w : World) → KeepsWorld (D.means (disk_of engine.old)) (present engine.old log.old) w
        → KeepsOnTheWay result.count (D.means (disk_of engine.new)) (present engine.new log.new) w (world_of (D.means (disk_of engine.old)).shows (present engine.old log.old)) }
    ensures synced { call.now ≡ Sync → is_fault result.answer ≡ false → IsTrue (D.means (disk_of engine.old)).tells → (w : World) → KeepsWorld (D.means (disk_of engine.old)) (present engine.old log.old) w
        → KeepsWorld (D.means (disk_of engine.new)) (present engine.new log.new) (unmounted (world_of (D.means (disk_of engine.new)).shows (present engine.new log.new))) }
{
    let Given { count, answer } = engine.answer(alloc, actor, moment, call);
    match answer {
        Ok(answer) => Given { count, answer },
        Err(Fault::WriteFault) => {
            log.broken = Some(log.history.length());
            Given {
                count,
                answer: Reply::WriteFault,
            }
        }
        Err(Fault::ReadFault) => Given {
            count,
            answer: Reply::ReadFault,
        },
        Err(Fault::NoMemory) => Given {
            count,
            answer: Reply::NoMemory,
        },
    }
}

/// One event of an actor's read of a mounted checkpoint, on a volume that isn't broken.
fn read<D: Disk>(
    engine: &mut Engine<D>,
    alloc: Global,
    actor: u32,
    letter: u8,
    path: &Path,
    at: u64,
    len: u32,
    progress: Progress,
) -> ReadAnswer
    requires whole { IsWhole (D.means (disk_of engine.old)) engine.old }
    requires limit { at ≤ file_limit }
    requires begun { IsBegunFor (Cread letter path.now at len) progress }
    requires fits { IsTrue (D.means (disk_of engine.old)).tells → FitsWorld (files.world_of (D.means (disk_of engine.old)).shows engine.old) actor (Cread letter path.now at len) progress }
    ensures answers { OnReply result (λ reply. IsTrue (D.means (disk_of engine.old)).tells → (texts : Texts) (moment : ℕ) → Answers texts (files.world_of (D.means (disk_of engine.old)).shows engine.old) actor moment (Cread letter path.now at len) 0 reply (files.world_of (D.means (disk_of engine.new)).shows engine.new)) }
    ensures no_write { OnReply result (λ reply. is_write_fault reply ≡ false) }
    ensures not_refused { OnReply result (λ reply. is_broken reply ≡ false) }
    ensures last { OnReply result (λ reply. IsLastOf (Cread letter path.now at len) reply (had_of progress + 1)) }
    ensures cause { OnReply result (HasCause (D.means (disk_of engine.old)) (D.means (disk_of engine.new))) }
    ensures whole { IsWhole (D.means (disk_of engine.new)) engine.new }
    ensures runs { Runs (D.means (disk_of engine.old)) (D.means (disk_of engine.new)) }
    ensures reading { (log : Log) → IsReading (D.means (disk_of engine.old)) (D.means (disk_of engine.new)) (present engine.old log) (present engine.new log) }
    ensures begun { OnRead result (λ read. IsOnWay at read) }
    ensures turns { OnRead result (λ read. turns_had read ≡ had_of progress + 1) }
    ensures fits { OnRead result (λ read. IsTrue (D.means (disk_of engine.old)).tells → IsNowOf (files.world_of (D.means (disk_of engine.old)).shows engine.old) actor (Cread letter path.now at len) read) }
{
    match engine.cread(alloc, actor, letter, path, at, len, progress.into_read()) {
        Ok(turn) => turn,
        Err(Fault::ReadFault) => ReadAnswer::Replied(Reply::ReadFault),
        Err(_) => ReadAnswer::Replied(Reply::NoMemory),
    }
}

/// One event of an actor's call at a moment, on a volume that isn't broken, and how many checkpoints were given
/// up for it.
fn one_event<D: Disk>(
    engine: &mut Engine<D>,
    log: &mut Log,
    alloc: Global,
    actor: u32,
    moment: u64,
    call: &Call,
    progress: Progress,
) -> Given<ReadAnswer>
    requires built { IsBuilt call.now }
    requires whole { IsWhole (D.means (disk_of engine.old)) engine.old }
    requires unbroken { log.old.broken ≡ None }
    requires begun { IsBegunFor call.now progress }
    requires fits { IsTrue (D.means (disk_of engine.old)).tells → FitsWorld (world_of (D.means (disk_of engine.old)).shows (present engine.old log.old)) actor call.now progress }
    ensures answers { OnReply result.answer (λ reply. IsTrue (D.means (disk_of engine.old)).tells → (texts : Texts) → Answers texts (world_of (D.means (disk_of engine.old)).shows (present engine.old log.old)) actor moment call.now result.count reply (world_of (D.means (disk_of engine.new)).shows (present engine.new log.new))) }
    ensures ready { IsReady (D.means (disk_of engine.new)) (present engine.new log.new) }
    ensures freezes { OnReply result.answer (λ reply. Freezes call.now moment reply (table_of engine.old) (table_of engine.new)) }
    ensures removes { OnReply result.answer (λ reply. Removes call.now reply (table_of engine.old) (table_of engine.new)) }
    ensures converts { OnReply result.answer (λ reply. Converts call.now reply (table_of engine.old) (table_of engine.new)) }
    ensures flags { OnReply result.answer (λ reply. Flags call.now reply (table_of engine.old) (table_of engine.new)) }
    ensures history { log.new.history ≡ log.old.history }
    ensures broken { OnReply result.answer (λ reply. log.new.broken ≡ (if is_write_fault reply then Some (length_of (present engine.old log.old)) else None)) }
    ensures not_refused { OnReply result.answer (λ reply. is_broken reply ≡ false) }
    ensures last { OnReply result.answer (λ reply. IsLastOf call.now reply (had_of progress + 1)) }
    ensures cause { OnReply result.answer (HasCause (D.means (disk_of engine.old)) (D.means (disk_of engine.new))) }
    ensures runs { Runs (D.means (disk_of engine.old)) (D.means (disk_of engine.new)) }
    ensures survives { SurvivesOnTheWay result.count (D.means (disk_of engine.old)) (D.means (disk_of engine.new)) (present engine.old log.old) }
    ensures kept { log.new.broken ≡ None → IsTrue (D.means (disk_of engine.old)).tells → (w : World) → KeepsWorld (D.means (disk_of engine.old)) (present engine.old log.old) w
        → KeepsOnTheWay result.count (D.means (disk_of engine.new)) (present engine.new log.new) w (world_of (D.means (disk_of engine.old)).shows (present engine.old log.old)) }
    ensures synced { OnReply result.answer (λ reply. call.now ≡ Sync → is_fault reply ≡ false → IsTrue (D.means (disk_of engine.old)).tells → (w : World) → KeepsWorld (D.means (disk_of engine.old)) (present engine.old log.old) w
        → KeepsWorld (D.means (disk_of engine.new)) (present engine.new log.new) (unmounted (world_of (D.means (disk_of engine.new)).shows (present engine.new log.new)))) }
    ensures log { OnRead result.answer (λ read. log.new ≡ log.old) }
    ensures reading { OnRead result.answer (λ read. IsReading (D.means (disk_of engine.old)) (D.means (disk_of engine.new)) (present engine.old log.old) (present engine.new log.old)) }
    ensures begun { OnRead result.answer (IsOfCall call.now) }
    ensures turns { OnRead result.answer (λ read. turns_had read ≡ had_of progress + 1) }
    ensures fits { OnRead result.answer (λ read. IsTrue (D.means (disk_of engine.old)).tells → IsNowOf (world_of (D.means (disk_of engine.old)).shows (present engine.old log.old)) actor call.now read) }
{
    match call {
        Call::Cread(letter, path, at, len) => Given {
            count: 0,
            answer: read(engine, alloc, actor, *letter, path, *at, *len, progress),
        },
        _ => {
            let Given { count, answer } = answer(engine, log, alloc, actor, moment, call);
            Given {
                count,
                answer: ReadAnswer::Replied(answer),
            }
        }
    }
}

/// Makes one event of an actor's call with this number, which began at this moment. It answers the
/// call, and puts its entry into the log, or takes one block of a checkpoint that it reads. It takes no
/// memory for the entry. What is stripped isn't looked at here.
pub(crate) fn happen<D: Disk>(
    engine: &mut Engine<D>,
    log: &mut Log,
    alloc: Global,
    actor: u32,
    seq: u32,
    at: u64,
    call: &Call,
    progress: &mut Progress,
) -> Turn
    requires built { IsBuilt call.now }
    requires ready { IsReady (D.means (disk_of engine.old)) (present engine.old log.old) }
    requires room { 0 < room_of log.old.history }
    requires unless_strip { OnStrip progress.old (λ id. ⊥) }
    requires begun { IsBegunFor call.now progress.old }
    requires fits { IsTrue (D.means (disk_of engine.old)).tells → FitsWorld (world_of (D.means (disk_of engine.old)).shows (present engine.old log.old)) actor call.now progress.old }

    // A block of a checkpoint was read, and more are left.
    ensures log { OnMore result (log.new ≡ log.old) }
    ensures unbroken { OnMore result (log.old.broken ≡ None) }
    ensures reading { OnMore result (IsReading (D.means (disk_of engine.old)) (D.means (disk_of engine.new)) (present engine.old log.old) (present engine.new log.old)) }
    ensures begun { OnMore result (IsBegunFor call.now progress.new) }
    ensures turns { OnMore result (had_of progress.new ≡ had_of progress.old + 1) }
    ensures fits { OnMore result (IsTrue (D.means (disk_of engine.old)).tells → FitsNow (world_of (D.means (disk_of engine.old)).shows (present engine.old log.old)) actor call.now progress.new) }

    // Its one entry is legal where the history stands.
    ensures progress { OnAnswered result (progress.new ≡ Fresh) }
    ensures last { OnAnswered result (IsLastOf call.now (newest (history_of (present engine.new log.new))).reply (had_of progress.old + 1)) }
    ensures added { OnAnswered result (history_of (present engine.new log.new) ≡ history_of (present engine.old log.old) ++ newest (history_of (present engine.new log.new)) ∷ []) }
    ensures room { OnAnswered result (room_of log.new.history + 1 ≡ room_of log.old.history) }
    ensures entry { OnAnswered result (IsEntryOf actor seq at (newest (history_of (present engine.new log.new)))) }
    ensures follows { OnAnswered result (IsTrue (D.means (disk_of engine.old)).tells → (texts : Texts) (calls : CallsBy) → calls actor seq ≡ Some call.now
        → Follows texts calls (past_on (D.means (disk_of engine.old)).shows (present engine.old log.old)) (newest (history_of (present engine.new log.new))) (past_on (D.means (disk_of engine.new)).shows (present engine.new log.new))) }
    ensures ready { IsReady (D.means (disk_of engine.new)) (present engine.new log.new) }

    // A checkpoint costs one record where one is free: nothing is copied. Its removal, its conversion and its flag change that record alone.
    ensures freezes { OnAnswered result (Freezes call.now at (newest (history_of (present engine.new log.new))).reply (table_of engine.old) (table_of engine.new)) }
    ensures removes { OnAnswered result (Removes call.now (newest (history_of (present engine.new log.new))).reply (table_of engine.old) (table_of engine.new)) }
    ensures converts { OnAnswered result (Converts call.now (newest (history_of (present engine.new log.new))).reply (table_of engine.old) (table_of engine.new)) }
    ensures flags { OnAnswered result (Flags call.now (newest (history_of (present engine.new log.new))).reply (table_of engine.old) (table_of engine.new)) }

    // A failed write breaks the volume; once it is broken it says so, and leaves the device alone.
    ensures broken { OnAnswered result (broken_of (present engine.new log.new) ≡ option_or (broken_of (present engine.old log.old)) (if is_write_fault (newest (history_of (present engine.new log.new))).reply then Some (length_of (present engine.old log.old)) else None)) }
    ensures refused { OnAnswered result (MatchOption (broken_of (present engine.old log.old)) (is_broken (newest (history_of (present engine.new log.new))).reply ≡ false) (λ entry. (newest (history_of (present engine.new log.new))).reply ≡ reply.Broken entry)) }
    ensures untouched { IsSome (broken_of (present engine.old log.old)) → (result ≡ Answered) × (disk_of engine.new ≡ disk_of engine.old) }
    ensures cause { OnAnswered result (HasCause (D.means (disk_of engine.old)) (D.means (disk_of engine.new)) (newest (history_of (present engine.new log.new))).reply) }
    ensures runs { Runs (D.means (disk_of engine.old)) (D.means (disk_of engine.new)) }

    // A crash at any moment of it leaves the world that was committed before, or the present one from before it, without
    // some of the picks that its entry gave up.
    ensures survives { OnAnswered result (broken_of (present engine.old log.old) ≡ None → SurvivesOnTheWay (newest (history_of (present engine.new log.new))).given (D.means (disk_of engine.old)) (D.means (disk_of engine.new)) (present engine.old log.old)) }
    ensures kept { OnAnswered result (broken_of (present engine.new log.new) ≡ None → IsTrue (D.means (disk_of engine.old)).tells → (w : World) → KeepsWorld (D.means (disk_of engine.old)) (present engine.old log.old) w
        → KeepsOnTheWay (newest (history_of (present engine.new log.new))).given (D.means (disk_of engine.new)) (present engine.new log.new) w (world_of (D.means (disk_of engine.old)).shows (present engine.old log.old))) }

    // A sync that is answered without a fault has committed every entry up to itself.
    ensures synced { OnAnswered result (call.now ≡ Sync → is_fault (newest (history_of (present engine.new log.new))).reply ≡ false → IsTrue (D.means (disk_of engine.old)).tells → (w : World) → KeepsWorld (D.means (disk_of engine.old)) (present engine.old log.old) w
        → KeepsWorld (D.means (disk_of engine.new)) (present engine.new log.new) (unmounted (world_of (D.means (disk_of engine.new)).shows (present engine.new log.new)))) }
{
    let begun = std::mem::replace(progress, Progress::Fresh);
    if let Some(entry) = log.broken {
        log.history
            .put(entry_of(actor, seq, at, 0, Reply::Broken(entry)));
        return Turn::Answered;
    }
    let Given { count, answer } = one_event(engine, log, alloc, actor, at, call, begun);
    match answer {
        ReadAnswer::More(read) => {
            *progress = Progress::Read(read);
            Turn::More
        }
        ReadAnswer::Replied(reply) => {
            log.history.put(entry_of(actor, seq, at, count, reply));
            Turn::Answered
        }
    }
}
