ghost use Rattle.std.specs.Prelude.{◌≡◌, ◌+◌, ◌*◌, ◌^◌, ◌<◌, ◌≤◌, IfOk, length, slice_index, nat_lt, if◌then◌else◌};
ghost use Rattle.std.specs.Option.{option_copied};
ghost use Rattle.ck_model.specs.declared.key.Key.TheVariants.{Block};
ghost use Rattle.ck_model.specs.Cells.{content_at, bytes_in};
ghost use Rattle.ck_model.specs.Contents.{block_byte};
ghost use Rattle.ck_model.specs.Changes.{byte_after, block_after, cut_block};

use crate::PlainMap;
use crate::walk::content_at;
use ck_model::{BLOCK, Key, NoMemory, Payload};
use std::alloc::Global;

/// The bytes that a file's block holds, none where it has no cell.
pub fn bytes_of(cells: &PlainMap, node: u32, index: u32) -> &[u8]
    ensures { result.now ≡ bytes_in (content_at cells.now (Block node index)) }
{
    match content_at(cells, &Key::Block(node, index)) {
        Some(Payload::Bytes(bytes)) => bytes.items(),
        _ => &[],
    }
}

/// The byte at a place, 0 behind the end.
pub fn byte_at(bytes: &[u8], at: usize) -> u8
    ensures { result ≡ slice_index bytes.now at }
{
    if at < bytes.len() { bytes[at] } else { 0 }
}

/// A byte of a block, of which these are the old bytes, once new ones stand at a place of the file.
fn byte_after(
    cells: &PlainMap,
    old: &[u8],
    node: u32,
    at: u64,
    bytes: &[u8],
    index: u32,
    place: u64,
) -> u8
    requires old { old.now ≡ bytes_in (content_at cells.now (Block node index)) }
    requires at { at + length bytes.now < 2 ^ 64 }
    requires place { place < 4096 }
    ensures { result ≡ byte_after cells.now node at bytes.now index place }
{
    let here = u64::from(index) * BLOCK + place;
    if at <= here && here < at + bytes.len() as u64 {
        byte_at(bytes, (here - at) as usize)
    } else {
        byte_at(old, place as usize)
    }
}

/// A block once new bytes stand at a place of the file.
pub fn block_after(
    alloc: Global,
    cells: &PlainMap,
    node: u32,
    at: u64,
    bytes: &[u8],
    index: u32,
) -> Result<Vec<u8>, NoMemory>
    requires { at + length bytes.now < 2 ^ 64 }
    ensures { IfOk result (λ block. block.items ≡ block_after cells.now node at bytes.now index) }
{
    let old = bytes_of(cells, node, index);
    let mut block = Vec::with_capacity(alloc, BLOCK as usize)?;
    for place in 0..BLOCK {
        block.push(byte_after(cells, old, node, at, bytes, index, place))?;
    }
    Ok(block)
}

/// A byte of a block of which so many bytes are kept.
fn kept_byte(block: &[u8], kept: u64, place: u64) -> u8
    ensures { result ≡ (if nat_lt place kept then slice_index block.now place else 0) }
{
    if place < kept {
        byte_at(block, place as usize)
    } else {
        0
    }
}

/// The first so many bytes of a block, and zeros behind.
pub fn cut_block(
    alloc: Global,
    cells: &PlainMap,
    node: u32,
    index: u32,
    kept: u64,
) -> Result<Vec<u8>, NoMemory>
    ensures { IfOk result (λ block. block.items ≡ cut_block cells.now node index kept) }
{
    let old = bytes_of(cells, node, index);
    let mut block = Vec::with_capacity(alloc, BLOCK as usize)?;
    for place in 0..BLOCK {
        block.push(kept_byte(old, kept, place))?;
    }
    Ok(block)
}
