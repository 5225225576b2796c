ghost use Rattle.std.specs.Prelude.{◌≡◌, ◌≤◌, OnOk, IfErr};
ghost use Rattle.ck_model.specs.History.{call_at};
ghost use Rattle.ck_script.specs.Numbered.{calls_in};
ghost use Rattle.ck_admin.specs.Statuses.{IsPrintFault};
ghost use Rattle.ck_admin.specs.Top.{Gains};

use ck_io::{Sink, write_all};
use ck_model::Entry;
use ck_report::{Status, transcript};
use ck_script::Script;
use std::alloc::Global;

/// Writes the transcript of a history, which tells it.
pub fn print<K: Sink>(
    alloc: Global,
    history: &[Entry],
    script: &Script,
    out: &mut K,
) -> Result<(), Status>
    ensures whole { OnOk result (Gains (K.means out.old) (K.means out.new) (call_at (calls_in script.now.calls)) history.now) }
    ensures fault { IfErr result (λ status. IsPrintFault (K.means out.old) (K.means out.new) (call_at (calls_in script.now.calls)) history.now status) }
    ensures tells { (K.means out.new).tells ≡ (K.means out.old).tells }
    ensures faults { (K.means out.old).faults ≤ (K.means out.new).faults }
{
    let Ok(text) = transcript(alloc, history, script) else {
        return Err(Status::NoMemory);
    };
    match write_all(out, &text) {
        Ok(()) => Ok(()),
        Err(_) => Err(Status::SinkFault),
    }
}
