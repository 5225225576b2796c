ghost use Rattle.std.specs.Prelude.{◌≡◌, ℕ, IfOk, Ok, ◌≤◌, ◌<◌, ◌^◌, ◌-◌, suc, ◌∷◌, [], None, MatchOption, length, drop};
ghost use Rattle.sha2.specs.Sha256.{sha256};
ghost use Rattle.ck_stream.specs.declared.fault.StreamFault.TheVariants as faults;
ghost use Rattle.ck_stream.specs.declared.stream.Stream.{Stream};
ghost use Rattle.ck_stream.specs.Written.{text, StandsIn};
ghost use Rattle.ck_stream.specs.Right.{IsStream};
ghost use Rattle.ck_stream.specs.Parsed.{Finds, Gives, run_at, fault_at, located, header_at, items_at, end_at, signed, stream_at};

use crate::fault::Flaw;
use crate::fields::u64_of;
use crate::header::{header_of, is_full, made};
use crate::records::record_of;
use crate::tag::Header;
use crate::{Item, Items, Stream, StreamFault};
use sha2::{Digest, Sha256};
use std::alloc::Global;

/// The length of a digest.
const DIGEST_LEN: usize = 32;

/// A header or a record that begins at this place of the whole input couldn't be read.
pub fn fault_at(flaw: Flaw, total: usize, place: usize) -> StreamFault
    ensures { result ≡ fault_at total place flaw }
{
    match flaw {
        Flaw::Short => StreamFault::Truncated(total as u64),
        Flaw::Wrong => StreamFault::NotStream(place as u64),
        Flaw::NoMemory => StreamFault::NoMemory,
    }
}

pub fn header_in(bytes: &[u8], at: usize) -> Result<(Header, &[u8]), StreamFault>
    requires { at ≤ length bytes.now }
    ensures { Finds (λ x. (x.0, x.1.now)) result
        (located (length bytes.now) at (header_at (drop at bytes.now))) }
{
    match header_of(&bytes[at..]) {
        Ok(read) => Ok(read),
        Err(flaw) => Err(fault_at(flaw, bytes.len(), at)),
    }
}

/// A byte, if there is one, and the bytes behind it.
pub fn byte_of(bytes: &[u8]) -> Option<(u8, &[u8])>
    ensures { MatchOption result (bytes.now ≡ []) (λ x. bytes.now ≡ x.0 ∷ x.1.now) }
{
    match bytes {
        [] => None,
        [byte, rest @ ..] => Some((*byte, rest)),
    }
}

/// The records up to the end's tag, and the bytes behind that tag.
fn items_of(
    alloc: Global,
    full: bool,
    total: usize,
    bytes: &[u8],
) -> Result<(Vec<Item>, &[u8]), StreamFault>
    ensures { Gives (λ x. (x.0.items, x.1.now)) result
        (items_at (length bytes.now) total full None bytes.now) }
{
    let mut items = Vec::new(alloc);
    let mut last = None;
    let mut rest = bytes;
    // Each record has a byte at least, its tag.
    for _ in 0..bytes.len() {
        match byte_of(rest) {
            None => return Err(StreamFault::Truncated(total as u64)),
            Some((0, after)) => return Ok((items, after)),
            Some((number, after)) => match record_of(alloc, full, &last, number, after) {
                Ok((item, after)) => {
                    last = Some(item.key());
                    items.push(item)?;
                    rest = after;
                }
                Err(flaw) => return Err(fault_at(flaw, total, total.saturating_sub(rest.len()))),
            },
        }
    }
    Err(StreamFault::Truncated(total as u64))
}

fn digest_bytes(bytes: &[u8]) -> Result<([u8; 32], &[u8]), Flaw>
    ensures { Finds (λ x. (x.0, x.1.now)) result (run_at 32 bytes.now) }
{
    match bytes.split_first_chunk::<32>() {
        Some((digest, rest)) => Ok((*digest, rest)),
        None => Err(Flaw::Short),
    }
}

/// The digest that is kept behind the number of records, and the bytes behind it.
#[tactic(auto, unfolding(crate::specs::Parsed::end_at))]
fn end_of(count: usize, bytes: &[u8]) -> Result<([u8; 32], &[u8]), Flaw>
    ensures { Finds (λ x. (x.0, x.1.now)) result (end_at count bytes.now) }
{
    let (number, rest) = u64_of(bytes)?;
    if number != count as u64 {
        return Err(Flaw::Wrong);
    }
    digest_bytes(rest)
}

/// The SHA-256 of all bytes up to the digest that stands before the rest.
pub fn digest_of(bytes: &[u8], rest: usize) -> [u8; 32]
    requires { rest < 2 ^ 63 }
    ensures { result ≡ sha256 (signed bytes.now rest) }
{
    let (signed, _) = bytes.split_at(bytes.len().saturating_sub(rest + DIGEST_LEN));
    Sha256::digest(signed)
}

pub fn end_in(total: usize, count: usize, bytes: &[u8]) -> Result<([u8; 32], &[u8]), StreamFault>
    ensures { Finds (λ x. (x.0, x.1.now)) result
        (located total (total - suc (length bytes.now)) (end_at count bytes.now)) }
{
    match end_of(count, bytes) {
        Ok(read) => Ok(read),
        Err(flaw) => {
            let place = total.saturating_sub(bytes.len() + 1);
            Err(fault_at(flaw, total, place))
        }
    }
}

#[tactic(auto, unfolding(crate::specs::Parsed::stream_at))]
fn stream_in(alloc: Global, bytes: &[u8], at: usize) -> Result<(Stream, usize), StreamFault>
    requires { at ≤ length bytes.now }
    ensures { Gives (λ x. x) result (stream_at bytes.now at) }
{
    let (header, rest) = header_in(bytes, at)?;
    let (items, rest) = match items_of(alloc, is_full(header), bytes.len(), rest) {
        Ok(read) => read,
        Err(fault) => return Err(fault),
    };
    let (kept, rest) = end_in(bytes.len(), items.len(), rest)?;
    let found = digest_of(&bytes[at..], rest.len());
    if kept != found {
        return Err(StreamFault::Digest { kept, found });
    }
    let end = bytes.len().saturating_sub(rest.len());
    Ok((made(header, Items::of(items)), end))
}

/// The stream that begins at `at`, and the place behind it.
///
/// Bytes behind the stream aren't looked at.
pub fn read_stream(alloc: Global, bytes: &[u8], at: usize) -> Result<(Stream, usize), StreamFault>
    requires { at ≤ length bytes.now }
    // What is read is right, and is spelled so.
    ensures right { IfOk result (λ read. IsStream read.0) }
    ensures spelled { IfOk result (λ read. StandsIn bytes.now at read.1 (text read.0)) }
    // What is right and spelled so is read, unless memory runs out.
    ensures only { (s : Stream) (end : ℕ) → IsStream s → StandsIn bytes.now at end (text s)
        → Gives (λ read. read) result (Ok (s, end)) }
    // Which fault it is, and where.
    ensures exact { Gives (λ read. read) result (stream_at bytes.now at) }
{
    stream_in(alloc, bytes, at)
}
