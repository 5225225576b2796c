ghost use Rattle.std.specs.Prelude.{◌≡◌, ◌+◌, ◌≤◌, ◌<◌, IfOk, OnOk, length};
ghost use Rattle.ck_model.specs.Cells.{size_at, with_cells};
ghost use Rattle.ck_model.specs.Changes.{grown_to, touched, written};
ghost use Rattle.ck_model.specs.Limits.{file_limit};
ghost use Rattle.ck_plain.specs.Blocks.{blocks_after};

use crate::PlainMap;
use crate::blocks::block_after;
use crate::names::cell_of;
use crate::walk::content_at;
use ck_model::{BLOCK, Key, NoMemory, Octets, Payload};
use std::alloc::Global;

pub fn size_at(cells: &PlainMap, node: u32) -> u64
    ensures { result ≡ size_at cells.now node }
{
    match content_at(cells, &Key::Node(node)) {
        Some(Payload::File(size)) => *size,
        _ => 0,
    }
}

/// Raises a file's size to an end where it is less.
fn put_grown(cells: &mut PlainMap, stamp: u64, node: u32, end: u64) -> Result<(), NoMemory>
    ensures { OnOk result (cells.new ≡ with_cells cells.old (grown_to cells.old stamp node end)) }
{
    if size_at(cells, node) < end {
        cells.put(Key::Node(node), cell_of(stamp, Payload::File(end)))?;
    }
    Ok(())
}

/// Puts each block that the bytes touch. The bytes round them are those of the old map.
fn put_blocks(
    alloc: Global,
    old: &PlainMap,
    next: &mut PlainMap,
    stamp: u64,
    node: u32,
    at: u64,
    bytes: &[u8],
) -> Result<(), NoMemory>
    requires some { 0 < length bytes.now }
    requires limit { at + length bytes.now ≤ file_limit }
    ensures { OnOk result (next.new ≡ with_cells next.old (blocks_after old.now stamp node at bytes.now (touched at (length bytes.now)))) }
{
    let first = (at / BLOCK) as u32;
    let end = (at + bytes.len() as u64).div_ceil(BLOCK) as u32;
    for index in (first..end).rev() {
        let block = block_after(alloc, old, node, at, bytes, index)?;
        next.put(
            Key::Block(node, index),
            cell_of(stamp, Payload::Bytes(Octets::of(block))),
        )?;
    }
    Ok(())
}

/// Bytes at a place of a file.
pub fn written(
    alloc: Global,
    cells: &PlainMap,
    stamp: u64,
    node: u32,
    at: u64,
    bytes: &[u8],
) -> Result<PlainMap, NoMemory>
    requires { at + length bytes.now ≤ file_limit }
    ensures { IfOk result (λ next. next ≡ written cells.now stamp node at bytes.now) }
{
    let mut next = cells.copy(alloc)?;
    if bytes.is_empty() {
        return Ok(next);
    }
    put_grown(&mut next, stamp, node, at + bytes.len() as u64)?;
    put_blocks(alloc, cells, &mut next, stamp, node, at, bytes)?;
    Ok(next)
}
