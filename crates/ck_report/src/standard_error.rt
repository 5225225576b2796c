ghost use Rattle.std.specs.Prelude.{◌≡◌, ◌++◌, ◌≤◌, IsTrue, OnOk, OnErr};
ghost use Rattle.ck_io.specs.Bytes.{GainsPrefix};
ghost use Rattle.ck_io.specs.Faults.{Rose};
ghost use Rattle.ck_report.specs.Status.{status_head, status_end, status_line};

use crate::Status;
use ck_io::{Failed, Sink, write_all};
use itoa::Buffer;

fn write_three<E: Sink>(
    err: &mut E,
    first: &[u8],
    second: &[u8],
    third: &[u8],
) -> Result<(), Failed>
    ensures whole { OnOk result (IsTrue (E.means err.old).tells → (E.means err.new).holds ≡ (E.means err.old).holds ++ (first.now ++ second.now ++ third.now)) }
    ensures cause { OnErr result (Rose (E.means err.old).faults (E.means err.new).faults) }
    ensures part { IsTrue (E.means err.old).tells → GainsPrefix (E.means err.old).holds (E.means err.new).holds (first.now ++ second.now ++ third.now) }
    ensures tells { (E.means err.new).tells ≡ (E.means err.old).tells }
    ensures faults { (E.means err.old).faults ≤ (E.means err.new).faults }
{
    write_all(err, first)?;
    write_all(err, second)?;
    write_all(err, third)?;
    Ok(())
}

fn head_of(status: &Status) -> &'static [u8]
    ensures { result.now ≡ status_head status.now }
{
    match status {
        Status::Done => b"",
        Status::Refused(_) => b"refused: ",
        Status::Usage => b"usage: fsckptadm COMMAND IMAGE",
        Status::BadScript(_) => b"line ",
        Status::NotOpened(_) => b"not opened: ",
        Status::DeviceFault => b"device fault",
        Status::SourceFault => b"source fault",
        Status::SinkFault => b"sink fault",
        Status::NoMemory => b"no memory",
    }
}

fn end_of(status: &Status) -> &'static [u8]
    ensures { result.now ≡ status_end status.now }
{
    match status {
        Status::Done => b"",
        Status::BadScript(_) => b": refused\n",
        _ => b"\n",
    }
}

/// Writes the line of a status to standard error. It takes no memory.
pub fn fault_line<E: Sink>(status: &Status, err: &mut E) -> Result<(), Failed>
    ensures whole { OnOk result (IsTrue (E.means err.old).tells → (E.means err.new).holds ≡ (E.means err.old).holds ++ status_line status.now) }
    ensures cause { OnErr result (Rose (E.means err.old).faults (E.means err.new).faults) }

    // However it ends, only the front of the line was written.
    ensures part { IsTrue (E.means err.old).tells → GainsPrefix (E.means err.old).holds (E.means err.new).holds (status_line status.now) }
    ensures tells { (E.means err.new).tells ≡ (E.means err.old).tells }
    ensures faults { (E.means err.old).faults ≤ (E.means err.new).faults }
{
    match status {
        Status::Refused(words) | Status::NotOpened(words) => write_three(
            err,
            head_of(status),
            words.items(),
            end_of(status),
        ),
        Status::BadScript(line) => {
            let mut buffer = Buffer::new();
            write_three(
                err,
                b"line ",
                buffer.format(*line).as_bytes(),
                b": refused\n",
            )
        }
        Status::Done
        | Status::Usage
        | Status::DeviceFault
        | Status::SourceFault
        | Status::SinkFault
        | Status::NoMemory => write_three(err, head_of(status), b"", end_of(status)),
    }
}
