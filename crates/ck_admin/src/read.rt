ghost use Rattle.std.specs.Prelude.{◌≡◌, ◌≤◌, IsTrue, IfOk, IfErr, Ok, length};
ghost use Rattle.std.specs.List.{AllByRecursion};
ghost use Rattle.ck_script.specs.Parsed.{read_script};
ghost use Rattle.ck_files.specs.Built.{IsBuilt};
ghost use Rattle.ck_admin.specs.Statuses.{IsReadFault};

use ck_io::{InputFault, Source, read_all};
use ck_model::SCRIPT_LIMIT;
use ck_report::Status;
use ck_script::{ParseFault, Script, parse};
use std::alloc::Global;

fn read_bytes<S: Source>(alloc: Global, source: &mut S) -> Result<Vec<u8>, Status>
    ensures read { IfOk result (λ bytes. IsTrue (S.means source.old).tells → read_script bytes.items ≡ read_script (S.means source.old).left) }
    ensures fault { IfErr result (λ status. IsReadFault (S.means source.old) (S.means source.new) status) }
    ensures tells { (S.means source.new).tells ≡ (S.means source.old).tells }
    ensures faults { (S.means source.old).faults ≤ (S.means source.new).faults }
{
    match read_all(alloc, source, SCRIPT_LIMIT) {
        Ok(bytes) => Ok(bytes),
        Err(InputFault::TooLong(bytes)) => Ok(bytes),
        Err(InputFault::ReadFault) => Err(Status::SourceFault),
        Err(InputFault::NoMemory) => Err(Status::NoMemory),
    }
}

/// Reads the source to its end, and what it gives as a script.
pub fn read<S: Source>(alloc: Global, source: &mut S) -> Result<Script, Status>
    ensures script { IfOk result (λ script. IsTrue (S.means source.old).tells → read_script (S.means source.old).left ≡ Ok (record { calls = script.calls; turns = script.turns })) }
    ensures built { IfOk result (λ script. AllByRecursion (λ line. IsBuilt line.call) script.calls) }
    ensures few { IfOk result (λ script. length script.calls ≤ 65536) }
    ensures fault { IfErr result (λ status. IsReadFault (S.means source.old) (S.means source.new) status) }
    ensures tells { (S.means source.new).tells ≡ (S.means source.old).tells }
    ensures faults { (S.means source.old).faults ≤ (S.means source.new).faults }
{
    let bytes = read_bytes(alloc, source)?;
    match parse(alloc, &bytes) {
        Ok(script) => Ok(script),
        Err(ParseFault::BadLine(line)) => Err(Status::BadScript(line)),
        Err(ParseFault::NoMemory) => Err(Status::NoMemory),
    }
}
