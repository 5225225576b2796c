// A whole input, and a whole output.
ghost use Rattle.std.specs.Prelude.{◌≡◌, ◌+◌, ◌^◌, ◌<◌, ◌≤◌, ◌++◌, [], true, false, length, vec_len, IsTrue, IsErrOf, IfOk, IfErr, OnOk, OnErr};
ghost use Rattle.ck_io.specs.Bytes.{EndsWith, GainsPrefix};
ghost use Rattle.ck_io.specs.Faults.{Rose, IfTooLong};

use crate::fault::{Failed, InputFault};
use crate::sink::Sink;
use crate::source::Source;
use std::alloc::Global;

// How many bytes a read asks for at most.
const PIECE: usize = 65536;

/// Reads the source to its end, and gives up once more bytes came than the limit allows. It asks for no byte beyond
/// the first that is too many.
pub fn read_all<S: Source>(
    alloc: Global,
    source: &mut S,
    limit: usize,
) -> Result<Vec<u8>, InputFault>
    requires { limit + 1 < 2 ^ 64 }
    ensures all { IfOk result (λ bytes. IsTrue (S.means source.old).tells → bytes.items ≡ (S.means source.old).left) }
    ensures ended { OnOk result (IsTrue (S.means source.old).tells → (S.means source.new).left ≡ []) }
    ensures within { IfOk result (λ bytes. vec_len bytes ≤ limit) }

    // What came is carried: one byte more than the limit, and the rest is left.
    ensures carried { IfErr result (λ fault. IfTooLong fault (λ bytes. IsTrue (S.means source.old).tells → (S.means source.old).left ≡ bytes ++ (S.means source.new).left)) }
    ensures one_more { IfErr result (λ fault. IfTooLong fault (λ bytes. length bytes ≡ limit + 1)) }
    ensures cause { IsErrOf result InputFault.ReadFault → Rose (S.means source.old).faults (S.means source.new).faults }

    // However it ends, only the front of what was left is taken.
    ensures rest { IsTrue (S.means source.old).tells → EndsWith (S.means source.old).left (S.means source.new).left }
    ensures tells { (S.means source.new).tells ≡ (S.means source.old).tells }
    ensures faults { (S.means source.old).faults ≤ (S.means source.new).faults }
{
    let most = limit + 1;
    let mut buffer = vec![in alloc; 0u8; most.min(PIECE)]?;
    read_pieces(source, &mut buffer, room_for(alloc, most), most)
}

/// An empty list with room for so many bytes where memory allows, so that it doesn't move as it
/// grows.
fn room_for(alloc: Global, most: usize) -> Vec<u8>
    ensures { result.items ≡ [] }
{
    match Vec::with_capacity(alloc, most) {
        Ok(bytes) => bytes,
        Err(_) => Vec::new(alloc),
    }
}

fn read_pieces<S: Source>(
    source: &mut S,
    buffer: &mut [u8],
    mut bytes: Vec<u8>,
    most: usize,
) -> Result<Vec<u8>, InputFault>
    requires room { 0 < length buffer.old }
    requires empty { bytes.items ≡ [] }
    ensures all { IfOk result (λ bytes. IsTrue (S.means source.old).tells → bytes.items ≡ (S.means source.old).left) }
    ensures ended { OnOk result (IsTrue (S.means source.old).tells → (S.means source.new).left ≡ []) }
    ensures within { IfOk result (λ bytes. vec_len bytes < most) }
    ensures carried { IfErr result (λ fault. IfTooLong fault (λ bytes. IsTrue (S.means source.old).tells → (S.means source.old).left ≡ bytes ++ (S.means source.new).left)) }
    ensures one_more { IfErr result (λ fault. IfTooLong fault (λ bytes. length bytes ≡ most)) }
    ensures cause { IsErrOf result InputFault.ReadFault → Rose (S.means source.old).faults (S.means source.new).faults }
    ensures rest { IsTrue (S.means source.old).tells → EndsWith (S.means source.old).left (S.means source.new).left }
    ensures tells { (S.means source.new).tells ≡ (S.means source.old).tells }
    ensures faults { (S.means source.old).faults ≤ (S.means source.new).faults }
{
    while bytes.len() < most {
        let wanted = buffer.len().min(most - bytes.len());
        if !take_piece(source, &mut buffer[..wanted], &mut bytes)? {
            return Ok(bytes);
        }
    }
    Err(InputFault::TooLong(bytes))
}

// Appends what one read gives. False says that the source is at its end.
fn take_piece<S: Source>(
    source: &mut S,
    buffer: &mut [u8],
    bytes: &mut Vec<u8>,
) -> Result<bool, InputFault>
    requires { 0 < length buffer.old }
    ensures none_lost { OnOk result (IsTrue (S.means source.old).tells → bytes.new.items ++ (S.means source.new).left ≡ bytes.old.items ++ (S.means source.old).left) }
    ensures within { OnOk result (vec_len bytes.new ≤ vec_len bytes.old + length buffer.old) }
    ensures more { result ≡ Ok true → vec_len bytes.old < vec_len bytes.new }
    ensures no_more { result ≡ Ok false → vec_len bytes.new ≡ vec_len bytes.old }
    ensures ended { result ≡ Ok false → IsTrue (S.means source.old).tells → (S.means source.new).left ≡ [] }
    ensures refused { IfErr result (λ fault. IfTooLong fault (λ _. ⊥)) }
    ensures cause { IsErrOf result InputFault.ReadFault → Rose (S.means source.old).faults (S.means source.new).faults }
    ensures rest { IsTrue (S.means source.old).tells → EndsWith (S.means source.old).left (S.means source.new).left }
    ensures tells { (S.means source.new).tells ≡ (S.means source.old).tells }
    ensures faults { (S.means source.old).faults ≤ (S.means source.new).faults }
{
    let count = source.read(buffer)?;
    bytes.extend_from_slice(&buffer[..count])?;
    Ok(count > 0)
}

/// Writes all the bytes. It takes no memory.
pub fn write_all<K: Sink>(sink: &mut K, bytes: &[u8]) -> Result<(), Failed>
    ensures whole { OnOk result (IsTrue (K.means sink.old).tells → (K.means sink.new).holds ≡ (K.means sink.old).holds ++ bytes.now) }
    ensures cause { OnErr result (Rose (K.means sink.old).faults (K.means sink.new).faults) }

    // However it ends, only the front of the bytes was written.
    ensures part { IsTrue (K.means sink.old).tells → GainsPrefix (K.means sink.old).holds (K.means sink.new).holds bytes.now }
    ensures tells { (K.means sink.new).tells ≡ (K.means sink.old).tells }
    ensures faults { (K.means sink.old).faults ≤ (K.means sink.new).faults }
{
    let mut written = 0;
    while written < bytes.len() {
        written += sink.write(&bytes[written..])?;
    }
    Ok(())
}
