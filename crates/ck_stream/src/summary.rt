ghost use Rattle.std.specs.Prelude.{◌≡◌, ◌≤◌, ℕ, IfOk, Ok, None, length};
ghost use Rattle.ck_stream.specs.declared.stream.Stream.{Stream};
ghost use Rattle.ck_stream.specs.Written.{text, StandsIn};
ghost use Rattle.ck_stream.specs.Right.{IsStream};
ghost use Rattle.ck_stream.specs.Parsed.{Finds, items_at, stream_at};
ghost use Rattle.ck_stream.specs.Seen.{summary_of, TellsOf, seen, counted, seen_at};

use crate::header::is_full;
use crate::parsed::{byte_of, digest_of, end_in, fault_at, header_in};
use crate::passed::pass_record;
use crate::{StreamFault, Summary};

/// How many records there are up to the end's tag, and the bytes behind that tag.
fn count_of(full: bool, total: usize, bytes: &[u8]) -> Result<(usize, &[u8]), StreamFault>
    ensures { Finds (λ x. (x.0, x.1.now)) result
        (counted (items_at (length bytes.now) total full None bytes.now)) }
{
    let mut last = None;
    let mut rest = bytes;
    // Each record has a byte at least, its tag.
    for count in 0..bytes.len() {
        match byte_of(rest) {
            None => return Err(StreamFault::Truncated(total as u64)),
            Some((0, after)) => return Ok((count, after)),
            Some((number, after)) => match pass_record(full, last, number, after) {
                Ok((key, after)) => {
                    last = Some(key);
                    rest = after;
                }
                Err(flaw) => return Err(fault_at(flaw, total, total.saturating_sub(rest.len()))),
            },
        }
    }
    Err(StreamFault::Truncated(total as u64))
}

#[tactic(auto, unfolding(crate::specs::Seen::seen_at))]
fn summary_in(bytes: &[u8], at: usize) -> Result<(Summary, usize), StreamFault>
    requires { at ≤ length bytes.now }
    ensures { result ≡ seen_at bytes.now at }
{
    let (header, rest) = header_in(bytes, at)?;
    let (records, rest) = count_of(is_full(header), bytes.len(), rest)?;
    let (kept, rest) = end_in(bytes.len(), records, rest)?;
    let found = digest_of(&bytes[at..], rest.len());
    if kept != found {
        return Err(StreamFault::Digest { kept, found });
    }
    let end = bytes.len().saturating_sub(rest.len());
    Ok((Summary { header, records }, end))
}

/// What is told of the stream that begins at `at`, and the place behind it. The records are passed
/// over where they stand, and this takes no memory.
pub fn verify_stream(bytes: &[u8], at: usize) -> Result<(Summary, usize), StreamFault>
    requires { at ≤ length bytes.now }
    // A right stream is spelled there, and this is told of it.
    ensures stands { IfOk result (λ read. TellsOf bytes.now at read) }
    // What is right and spelled there is told of.
    ensures only { (s : Stream) (end : ℕ) → IsStream s → StandsIn bytes.now at end (text s)
        → result ≡ Ok (summary_of s, end) }
    // Which fault it is, and where: what reading the stream gives, without the records.
    ensures exact { result ≡ seen (stream_at bytes.now at) }
{
    summary_in(bytes, at)
}
