ghost use Rattle.std.specs.Prelude.{◌≡◌, ◌≤◌, length, IfOk};
ghost use Rattle.ck_stream.specs.declared.fault.StreamFault.TheVariants as faults;
ghost use Rattle.ck_stream.specs.Right.{IsFull, IsChanged, IsStream};
ghost use Rattle.ck_image.specs.declared.refusal.Refusal.TheVariants as refusals;
ghost use Rattle.ck_stream.specs.Seen.{seen};
ghost use Rattle.ck_image.specs.Images.{Answers, told, refused_stream, stream_in, whole_in, full_in, changed_in, applied_once, next_in, changes_in, applied_in};

use crate::refusal::Refusal;
use ck_stream::{
    ApplyFault, Base, Changed, Full, Stream, StreamFault, Summary, read_stream, verify_stream,
};
use std::alloc::Global;

fn refused(fault: StreamFault) -> Refusal
    ensures { result ≡ refused_stream fault }
{
    match fault {
        StreamFault::NoMemory => Refusal::NoMemory,
        other => Refusal::Stream(other),
    }
}

fn not_stream(place: usize) -> Refusal
    ensures { result ≡ refusals.Stream (faults.NotStream place) }
{
    Refusal::Stream(StreamFault::NotStream(place as u64))
}

#[tactic(auto, unfolding(crate::specs::Images::stream_in))]
fn stream_of(alloc: Global, bytes: &[u8], at: usize) -> Result<(Stream, usize), Refusal>
    requires { at ≤ length bytes.now }
    ensures read { Answers (λ read. read) result (stream_in bytes.now at) }
    ensures right { IfOk result (λ read. IsStream read.0) }
    ensures within { IfOk result (λ read. read.1 ≤ length bytes.now) }
{
    match read_stream(alloc, bytes, at) {
        Ok(read) => Ok(read),
        Err(fault) => Err(refused(fault)),
    }
}

/// What is told of the stream at the beginning, and the place behind it.
fn summary_of(bytes: &[u8]) -> Result<(Summary, usize), Refusal>
    ensures { result ≡ seen (stream_in bytes.now 0) }
{
    match verify_stream(bytes, 0) {
        Ok(read) => Ok(read),
        Err(fault) => Err(refused(fault)),
    }
}

/// What is told of the one stream that the bytes are. This takes no memory.
pub fn whole(bytes: &[u8]) -> Result<Summary, Refusal>
    ensures { result ≡ told (whole_in bytes.now) }
{
    let (summary, end) = summary_of(bytes)?;
    if end != bytes.len() {
        return Err(not_stream(end));
    }
    Ok(summary)
}

#[tactic(auto, unfolding(crate::specs::Images::full_in))]
fn full_of(alloc: Global, bytes: &[u8]) -> Result<(Full, usize), Refusal>
    ensures read { Answers (λ read. read) result (full_in bytes.now) }
    ensures right { IfOk result (λ read. IsFull read.0) }
    ensures within { IfOk result (λ read. read.1 ≤ length bytes.now) }
{
    let (stream, end) = stream_of(alloc, bytes, 0)?;
    match stream {
        Stream::Full(full) => Ok((full, end)),
        Stream::Changed(_) => Err(not_stream(0)),
    }
}

#[tactic(auto, unfolding(crate::specs::Images::changed_in))]
pub fn changed_of(alloc: Global, bytes: &[u8], at: usize) -> Result<(Changed, usize), Refusal>
    requires { at ≤ length bytes.now }
    ensures read { Answers (λ read. read) result (changed_in bytes.now at) }
    ensures right { IfOk result (λ read. IsChanged read.0) }
    ensures within { IfOk result (λ read. read.1 ≤ length bytes.now) }
{
    let (stream, end) = stream_of(alloc, bytes, at)?;
    match stream {
        Stream::Full(_) => Err(not_stream(at)),
        Stream::Changed(changed) => Ok((changed, end)),
    }
}

/// The later checkpoint, if what changed is from this one on.
fn apply_one(base: Base, changed: Changed) -> Result<Base, Refusal>
    requires full { IsFull base }
    requires changed { IsChanged changed }
    ensures read { Answers (λ later. later) result (applied_once base changed) }
    ensures right { IfOk result IsFull }
{
    match base.apply(changed) {
        Ok(later) => Ok(later),
        Err(ApplyFault::WrongBase { has, wants }) => Err(Refusal::WrongBase { has, wants }),
        Err(ApplyFault::NoMemory) => Err(Refusal::NoMemory),
    }
}

#[tactic(auto, unfolding(crate::specs::Images::next_in))]
fn next(alloc: Global, bytes: &[u8], base: Base, at: usize) -> Result<(Base, usize), Refusal>
    requires within { at ≤ length bytes.now }
    requires full { IsFull base }
    ensures read { Answers (λ read. read) result (next_in bytes.now base at) }
    ensures right { IfOk result (λ read. IsFull read.0) }
    ensures within { IfOk result (λ read. read.1 ≤ length bytes.now) }
{
    let (changed, end) = changed_of(alloc, bytes, at)?;
    let later = apply_one(base, changed)?;
    Ok((later, end))
}

/// Applies the changed streams from a place on.
fn apply_all(alloc: Global, bytes: &[u8], base: Base, at: usize) -> Result<Base, Refusal>
    requires within { at ≤ length bytes.now }
    requires full { IsFull base }
    ensures read { Answers (λ full. full) result (changes_in (length bytes.now) bytes.now base at) }
    ensures right { IfOk result IsFull }
{
    let mut base = base;
    let mut at = at;
    // Each stream has bytes.
    for _ in 0..bytes.len() {
        if at == bytes.len() {
            return Ok(base);
        }
        (base, at) = next(alloc, bytes, base, at)?;
    }
    Ok(base)
}

/// The full stream at the beginning, with its records by their keys.
fn base_of(alloc: Global, bytes: &[u8]) -> Result<(Base, usize), Refusal>
    ensures read { Answers (λ read. read) result (full_in bytes.now) }
    ensures right { IfOk result (λ read. IsFull read.0) }
    ensures within { IfOk result (λ read. read.1 ≤ length bytes.now) }
{
    let (full, end) = full_of(alloc, bytes)?;
    match Base::of(alloc, full) {
        Ok(base) => Ok((base, end)),
        Err(_) => Err(Refusal::NoMemory),
    }
}

/// The full stream at the beginning, with all changed ones behind it applied.
#[tactic(auto, unfolding(crate::specs::Images::applied_in))]
pub fn applied(alloc: Global, bytes: &[u8]) -> Result<Full, Refusal>
    ensures read { Answers (λ full. full) result (applied_in bytes.now) }
    ensures right { IfOk result IsFull }
{
    let (base, at) = base_of(alloc, bytes)?;
    let later = apply_all(alloc, bytes, base, at)?;
    match later.into_full(alloc) {
        Ok(full) => Ok(full),
        Err(_) => Err(Refusal::NoMemory),
    }
}
