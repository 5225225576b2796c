ghost use Rattle.std.specs.Prelude.{[], ◌≡◌, ◌≤◌, ◌<◌, ◌++◌, ◌⊎◌, false, ℕ, Ok, Some, None, IsTrue, length, is_none, string_bytes, map as list_map};
ghost use Rattle.std.specs.Bool.{OnTrue, OnFalse};
ghost use Rattle.std.specs.List.{AllByRecursion};
ghost use Rattle.ck_io.specs.Bytes.{GainsPrefix};
ghost use Rattle.ck_io.specs.Faults.{Rose};
ghost use Rattle.ck_log.specs.Layout.{size_of};
ghost use Rattle.ck_report.specs.Status.{status_line};
ghost use Rattle.ck_files.specs.Built.{IsBuilt};
ghost use Rattle.ck_volume.specs.Volume.{disk_of, origin_of, told_of, spoilt_of, world_of, IsBegun};
ghost use Rattle.ck_engine.specs.Recovery.{Recovers};
ghost use Rattle.ck_words.specs.declared.command.Command.TheVariants.{Play, Mkfs};
ghost use Rattle.ck_words.specs.Command.{command_of};
ghost use Rattle.ck_admin.specs.Ends.{EndsOn};
ghost use Rattle.ck_admin.specs.Play.{parsed, IsLater};
ghost use Rattle.ck_admin.specs.Statuses.{play_status, IsReadFault, IsRefusedAt};
ghost use Rattle.ck_admin.specs.Top.{is_usage, is_play, leaves_device, IsUntouched, EndsPlay, EndsMkfs};

use crate::mkfs::mkfs;
use crate::print::print;
use crate::read::read;
use crate::session::play_and_commit;
use crate::volume::open;
use ck_disk::Disk;
use ck_io::{Clock, Sink, Source};
use ck_report::{Status, fault_line};
use ck_script::Script;
use ck_volume::{Closed, CommitAnswer, Volume};
use ck_words::{Command, match_words};
use std::alloc::Global;

/// How a command ended, and the device that was handed in.
#[derive(Drop)]
pub struct Ended<D> {
    pub status: Status,
    pub disk: D,
}

/// The status of a play: how the commit behind it ended comes before what printing said.
fn status_of(committed: CommitAnswer, printed: Result<(), Status>) -> Status
    ensures { result ≡ play_status committed printed }
{
    match committed {
        CommitAnswer::Done => match printed {
            Ok(()) => Status::Done,
            Err(status) => status,
        },
        CommitAnswer::WriteFault | CommitAnswer::Broken(_) => Status::DeviceFault,
        CommitAnswer::NoMemory => Status::NoMemory,
    }
}

// Plays a script on an opened volume, commits, and prints the transcript. The transcript is printed also where a write
// was lost.
fn play_volume<K: Sink, D: Disk, C: Clock>(
    alloc: Global,
    script: &Script,
    mut volume: Volume<D>,
    out: &mut K,
    clock: &mut C,
) -> Ended<D>
    requires begun { IsBegun (D.means (disk_of volume)) volume }
    requires origin { origin_of volume ≡ disk_of volume }
    requires recovers { IsTrue (D.means (disk_of volume)).tells → Recovers (D.means (disk_of volume)).shows (world_of (D.means (disk_of volume)).shows volume) }
    requires told { told_of volume ≡ [] }
    requires unspoilt { spoilt_of volume ≡ None }
    requires built { AllByRecursion (λ line. IsBuilt line.call) script.now.calls }
    requires few { length script.now.calls ≤ 65536 }
    ensures ends { EndsOn (parsed script.now) (C.means clock.old) (world_of (D.means (disk_of volume)).shows volume) (D.means (disk_of volume)) (D.means result.disk) (K.means out.old) (K.means out.new) result.status }
    ensures begun { leaves_device result.status ≡ false }
    ensures later { IsLater (D.means (disk_of volume)) (D.means result.disk) }
    ensures out_tells { (K.means out.new).tells ≡ (K.means out.old).tells }
    ensures clock { C.means clock.new ≡ C.means clock.old }
{
    let played = play_and_commit(alloc, &mut volume, script, clock);
    let Closed { disk, history } = volume.close();
    let Ok(committed) = played else {
        return Ended {
            status: Status::NoMemory,
            disk,
        };
    };
    let printed = print(alloc, &history, script, out);
    Ended {
        status: status_of(committed, printed),
        disk,
    }
}

// Reads a script, opens the device, plays the script on it, and prints its transcript.
fn play_script<S: Source, K: Sink, D: Disk, C: Clock>(
    alloc: Global,
    source: &mut S,
    out: &mut K,
    disk: D,
    clock: &mut C,
) -> Ended<D>
    ensures ends { EndsPlay (S.means source.old) (S.means source.new) (C.means clock.old) (K.means out.old) (K.means out.new) (D.means disk) (D.means result.disk) result.status }
    ensures bad_script { (line : ℕ) → IsRefusedAt (S.means source.old) line → IsReadFault (S.means source.old) (S.means source.new) result.status }
    ensures bad_script_device { (line : ℕ) → IsRefusedAt (S.means source.old) line → result.disk ≡ disk }
    ensures device { OnTrue (leaves_device result.status) (result.disk ≡ disk) }
    ensures later { IsLater (D.means disk) (D.means result.disk) }
    ensures source_tells { (S.means source.new).tells ≡ (S.means source.old).tells }
    ensures out_tells { (K.means out.new).tells ≡ (K.means out.old).tells }
    ensures clock { C.means clock.new ≡ C.means clock.old }
{
    let script = match read(alloc, source) {
        Ok(script) => script,
        Err(status) => return Ended { status, disk },
    };
    match open(alloc, disk) {
        Ok(volume) => play_volume(alloc, &script, volume, out, clock),
        Err(ended) => ended,
    }
}

fn run_words<S: Source, K: Sink, D: Disk, C: Clock>(
    alloc: Global,
    words: &[String],
    source: &mut S,
    out: &mut K,
    disk: D,
    clock: &mut C,
) -> Ended<D>
    ensures usage { is_usage result.status ≡ is_none (command_of (list_map string_bytes words.now)) }
    ensures untouched { OnFalse (is_play (command_of (list_map string_bytes words.now))) (IsUntouched (S.means source.old) (S.means source.new) (K.means out.old) (K.means out.new)) }
    ensures play { command_of (list_map string_bytes words.now) ≡ Some Play
        → EndsPlay (S.means source.old) (S.means source.new) (C.means clock.old) (K.means out.old) (K.means out.new) (D.means disk) (D.means result.disk) result.status }
    ensures bad_script { (line : ℕ) → command_of (list_map string_bytes words.now) ≡ Some Play → IsRefusedAt (S.means source.old) line → IsReadFault (S.means source.old) (S.means source.new) result.status }
    ensures bad_script_device { (line : ℕ) → command_of (list_map string_bytes words.now) ≡ Some Play → IsRefusedAt (S.means source.old) line → result.disk ≡ disk }
    ensures mkfs { (blocks records : ℕ) → command_of (list_map string_bytes words.now) ≡ Some (Mkfs blocks records) → EndsMkfs blocks records (D.means disk) (D.means result.disk) result.status }
    ensures short { (blocks records : ℕ) → command_of (list_map string_bytes words.now) ≡ Some (Mkfs blocks records) → (D.means disk).size < size_of blocks records → result.disk ≡ disk }
    ensures device { OnTrue (leaves_device result.status) (result.disk ≡ disk) }
    ensures later { IsLater (D.means disk) (D.means result.disk) }
    ensures source_tells { (S.means source.new).tells ≡ (S.means source.old).tells }
    ensures out_tells { (K.means out.new).tells ≡ (K.means out.old).tells }
    ensures clock { C.means clock.new ≡ C.means clock.old }
{
    match match_words(words) {
        Some(Command::Play) => play_script(alloc, source, out, disk, clock),
        Some(Command::Mkfs(blocks, records)) => mkfs(alloc, disk, blocks, records),
        None => Ended {
            status: Status::Usage,
            disk,
        },
    }
}

/// Runs a command on a device: its words, its script from the source, its play and the commit
/// behind it, its output, its line on standard error.
///
/// `play` plays the script on the volume that stands on the device. `mkfs BLOCKS RECORDS` makes a
/// volume there, and reads and prints nothing.
pub fn top<S: Source, K: Sink, E: Sink, D: Disk, C: Clock>(
    alloc: Global,
    words: &[String],
    source: &mut S,
    out: &mut K,
    err: &mut E,
    disk: D,
    clock: &mut C,
) -> Ended<D>
    // The words match no command exactly where the status says so. Only `play` reads or prints.
    ensures usage { is_usage result.status ≡ is_none (command_of (list_map string_bytes words.now)) }
    ensures untouched { OnFalse (is_play (command_of (list_map string_bytes words.now))) (IsUntouched (S.means source.old) (S.means source.new) (K.means out.old) (K.means out.new)) }

    // What a play prints is the transcript of one legal history that holds each actor's calls once and in its order, and
    // follows the script's turns. Its numbers, bytes and names are such that the transcript tells the history
    // (`ck_report::texts_tell`). Each image that a crash may leave recovers a prefix of it, at the end one that holds every
    // acknowledged sync, and after the status Done the whole. Each fault in it, and each other ending, has its cause.
    ensures play { command_of (list_map string_bytes words.now) ≡ Some Play
        → EndsPlay (S.means source.old) (S.means source.new) (C.means clock.old) (K.means out.old) (K.means out.new) (D.means disk) (D.means result.disk) result.status }

    // A script that is refused ends the play before the device is looked at, whatever stands there.
    ensures bad_script { (line : ℕ) → command_of (list_map string_bytes words.now) ≡ Some Play → IsRefusedAt (S.means source.old) line → IsReadFault (S.means source.old) (S.means source.new) result.status }
    ensures bad_script_device { (line : ℕ) → command_of (list_map string_bytes words.now) ≡ Some Play → IsRefusedAt (S.means source.old) line → result.disk ≡ disk }

    // After mkfs each image has the empty world. A device that is too short is left as it is.
    ensures mkfs { (blocks records : ℕ) → command_of (list_map string_bytes words.now) ≡ Some (Mkfs blocks records) → EndsMkfs blocks records (D.means disk) (D.means result.disk) result.status }
    ensures short { (blocks records : ℕ) → command_of (list_map string_bytes words.now) ≡ Some (Mkfs blocks records) → (D.means disk).size < size_of blocks records → result.disk ≡ disk }

    // Before the device is opened it isn't called; else its counts of faults don't fall.
    ensures device { OnTrue (leaves_device result.status) (result.disk ≡ disk) }
    ensures later { IsLater (D.means disk) (D.means result.disk) }

    // Standard error has the status's line, or the front of it where it failed.
    ensures line { IsTrue (E.means err.old).tells → GainsPrefix (E.means err.old).holds (E.means err.new).holds (status_line result.status) }
    ensures whole_line { (IsTrue (E.means err.old).tells → (E.means err.new).holds ≡ (E.means err.old).holds ++ status_line result.status) ⊎ Rose (E.means err.old).faults (E.means err.new).faults }

    ensures clock { C.means clock.new ≡ C.means clock.old }
{
    let ended = run_words(alloc, words, source, out, disk, clock);
    let _ = fault_line(&ended.status, err);
    ended
}
