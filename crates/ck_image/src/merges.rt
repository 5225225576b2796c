ghost use Rattle.std.specs.Prelude.{◌≡◌, ◌≤◌, length, IfOk};
ghost use Rattle.ck_stream.specs.Right.{IsChanged};
ghost use Rattle.ck_image.specs.Images.{Answers, changed_in, merged_once, next_merged, to_end, merged_in};

use crate::images::changed_of;
use crate::refusal::Refusal;
use ck_merge::{MergeFault, Merged};
use ck_stream::Changed;
use std::alloc::Global;

/// All changed streams of the input, as one.
#[tactic(auto, unfolding(crate::specs::Images::merged_in))]
pub fn merged(alloc: Global, bytes: &[u8]) -> Result<Changed, Refusal>
    ensures read { Answers (λ changed. changed) result (merged_in bytes.now) }
    ensures right { IfOk result IsChanged }
{
    let (first, at) = first_of(alloc, bytes)?;
    let all = merge_all(alloc, bytes, first, at)?;
    match all.into_changed(alloc) {
        Ok(changed) => Ok(changed),
        Err(_) => Err(Refusal::NoMemory),
    }
}

/// The changed stream at the beginning, with its records by their keys.
fn first_of(alloc: Global, bytes: &[u8]) -> Result<(Merged, usize), Refusal>
    ensures read { Answers (λ read. read) result (changed_in bytes.now 0) }
    ensures right { IfOk result (λ read. IsChanged read.0) }
    ensures within { IfOk result (λ read. read.1 ≤ length bytes.now) }
{
    let (changed, end) = changed_of(alloc, bytes, 0)?;
    match Merged::of(alloc, changed) {
        Ok(first) => Ok((first, end)),
        Err(_) => Err(Refusal::NoMemory),
    }
}

/// Merges the changed streams from a place on.
fn merge_all(alloc: Global, bytes: &[u8], first: Merged, at: usize) -> Result<Merged, Refusal>
    requires within { at ≤ length bytes.now }
    requires first { IsChanged first }
    ensures read { Answers (λ all. all) result
        (to_end (next_merged bytes.now) (length bytes.now) bytes.now first at) }
    ensures right { IfOk result IsChanged }
{
    let mut all = first;
    let mut at = at;
    // Each stream has bytes.
    for _ in 0..bytes.len() {
        if at == bytes.len() {
            return Ok(all);
        }
        (all, at) = next(alloc, bytes, all, at)?;
    }
    Ok(all)
}

#[tactic(auto, unfolding(crate::specs::Images::next_merged))]
fn next(alloc: Global, bytes: &[u8], all: Merged, at: usize) -> Result<(Merged, usize), Refusal>
    requires within { at ≤ length bytes.now }
    requires all { IsChanged all }
    ensures read { Answers (λ read. read) result (next_merged bytes.now all at) }
    ensures right { IfOk result (λ read. IsChanged read.0) }
    ensures within { IfOk result (λ read. read.1 ≤ length bytes.now) }
{
    let (changed, end) = changed_of(alloc, bytes, at)?;
    let both = merge_one(all, changed)?;
    Ok((both, end))
}

/// The changes of both, if the next ones begin where the others end.
fn merge_one(all: Merged, next: Changed) -> Result<Merged, Refusal>
    requires all { IsChanged all }
    requires next { IsChanged next }
    ensures read { Answers (λ both. both) result (merged_once all next) }
    ensures right { IfOk result IsChanged }
{
    match all.merge(next) {
        Ok(both) => Ok(both),
        Err(MergeFault::NotAdjacent { ends, begins }) => Err(Refusal::NotAdjacent { ends, begins }),
        Err(MergeFault::NoMemory) => Err(Refusal::NoMemory),
    }
}
