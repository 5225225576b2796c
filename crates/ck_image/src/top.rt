ghost use Rattle.std.specs.Prelude.{◌≡◌, ◌++◌, ◌⊎◌, IsTrue, IfOk, IfErr, OnOk, OnErr, string_bytes, map as list_map};
ghost use Rattle.ck_io.specs.Bytes.{GainsPrefix};
ghost use Rattle.ck_io.specs.Faults.{Rose};
ghost use Rattle.ck_image.specs.Texts.{printed};
ghost use Rattle.ck_image.specs.Top.{command_of, Ends, EndsAs, IsReadFault, IsRefused, IsPrinted, line_of};

use crate::command::Command;
use crate::refusal::Refusal;
use crate::texts::{INPUT_LIMIT, print_of, words_of};
use ck_io::{Failed, InputFault, Sink, Source, read_all, write_all};
use ck_model::Octets;
use ck_report::{Status, fault_line};
use std::alloc::Global;

fn command_of(words: &[String]) -> Option<Command>
    ensures { result ≡ command_of (list_map string_bytes words.now) }
{
    match words {
        [word] => {
            let word = word.as_str();
            if word == "verify" {
                Some(Command::Verify)
            } else if word == "apply" {
                Some(Command::Apply)
            } else if word == "merge" {
                Some(Command::Merge)
            } else {
                None
            }
        }
        _ => None,
    }
}

/// The status of a refusal, with its words.
fn refused(alloc: Global, refusal: Refusal) -> Status
    ensures { IsRefused refusal result }
{
    if let Refusal::NoMemory = refusal {
        return Status::NoMemory;
    }
    match words_of(alloc, &refusal) {
        Ok(words) => Status::Refused(Octets::of(words)),
        Err(_) => Status::NoMemory,
    }
}

/// Reads the source to its end. An input that is too long is refused.
fn read<S: Source>(alloc: Global, source: &mut S, command: Command) -> Result<Vec<u8>, Status>
    ensures read { IfOk result (λ bytes. IsTrue (S.means source.old).tells
        → bytes.items ≡ (S.means source.old).left) }
    ensures fault { IfErr result (λ status.
        IsReadFault command (S.means source.old) (S.means source.new) status) }
{
    match read_all(alloc, source, INPUT_LIMIT) {
        Ok(bytes) => Ok(bytes),
        Err(InputFault::TooLong(_)) => Err(refused(alloc, Refusal::TooLong)),
        Err(InputFault::ReadFault) => Err(Status::SourceFault),
        Err(InputFault::NoMemory) => Err(Status::NoMemory),
    }
}

fn print<K: Sink>(alloc: Global, command: Command, bytes: &[u8], out: &mut K) -> Status
    ensures { IsPrinted (printed command bytes.now) (K.means out.old) (K.means out.new) result }
{
    match print_of(alloc, command, bytes) {
        Ok(text) => match write_all(out, &text) {
            Ok(()) => Status::Done,
            Err(_) => Status::SinkFault,
        },
        Err(refusal) => refused(alloc, refusal),
    }
}

fn run<S: Source, K: Sink>(alloc: Global, command: Command, source: &mut S, out: &mut K) -> Status
    ensures { Ends command (S.means source.old) (S.means source.new) (K.means out.old) (K.means out.new) result }
{
    match read(alloc, source, command) {
        Ok(bytes) => print(alloc, command, &bytes, out),
        Err(status) => status,
    }
}

fn run_words<S: Source, K: Sink>(
    alloc: Global,
    words: &[String],
    source: &mut S,
    out: &mut K,
) -> Status
    ensures { EndsAs (command_of (list_map string_bytes words.now)) (S.means source.old) (S.means source.new) (K.means out.old) (K.means out.new) result }
{
    match command_of(words) {
        Some(command) => run(alloc, command, source, out),
        None => Status::Usage,
    }
}

/// Writes the line of a status to standard error.
fn write_line<E: Sink>(status: &Status, err: &mut E) -> Result<(), Failed>
    ensures whole { OnOk result (IsTrue (E.means err.old).tells
        → (E.means err.new).holds ≡ (E.means err.old).holds ++ line_of status.now) }
    ensures cause { OnErr result (Rose (E.means err.old).faults (E.means err.new).faults) }
    ensures part { IsTrue (E.means err.old).tells
        → GainsPrefix (E.means err.old).holds (E.means err.new).holds (line_of status.now) }
{
    match status {
        Status::Usage => write_all(err, b"usage: ckptimage COMMAND\n"),
        other => fault_line(other, err),
    }
}

/// Runs a command over the streams on its input: its words, its input, its output, its line on
/// standard error. `verify` says what one stream is, `apply` applies changed streams to the full one
/// before them, `merge` makes one of changed streams that follow one another.
pub fn image_top<S: Source, K: Sink, E: Sink>(
    alloc: Global,
    words: &[String],
    source: &mut S,
    out: &mut K,
    err: &mut E,
) -> Status
    // What is printed is what the words' command makes of the input; each other ending has its cause, and nothing is
    // printed where a stream is refused.
    ensures ends { EndsAs (command_of (list_map string_bytes words.now)) (S.means source.old) (S.means source.new) (K.means out.old) (K.means out.new) result }

    // Standard error has the status's line, or the front of it where it failed.
    ensures line { IsTrue (E.means err.old).tells → GainsPrefix (E.means err.old).holds (E.means err.new).holds (line_of result) }
    ensures whole_line { (IsTrue (E.means err.old).tells → (E.means err.new).holds ≡ (E.means err.old).holds ++ line_of result) ⊎ Rose (E.means err.old).faults (E.means err.new).faults }
{
    let status = run_words(alloc, words, source, out);
    let _ = write_line(&status, err);
    status
}
