ghost use Rattle.std.specs.Prelude.{◌≡◌, ◌≤◌, IfOk, OnOk, nat_lt, if◌then◌else◌};
ghost use Rattle.ck_model.specs.Cells.{size_at, with_cells};
ghost use Rattle.ck_model.specs.Changes.{cut_at, cut_to, resized};
ghost use Rattle.ck_model.specs.Limits.{file_limit};

use crate::PlainMap;
use crate::blocks::cut_block;
use crate::names::cell_of;
use crate::writes::size_at;
use ck_model::{BLOCK, Key, NoMemory, Octets, Payload};
use std::alloc::Global;

/// Puts the last block below a size with zeros behind it, where the size cuts it and it has a cell.
fn put_cut(
    alloc: Global,
    old: &PlainMap,
    next: &mut PlainMap,
    stamp: u64,
    node: u32,
    size: u64,
) -> Result<(), NoMemory>
    requires { size ≤ file_limit }
    ensures { OnOk result (next.new ≡ with_cells next.old (cut_at old.now stamp node size)) }
{
    let last = (size / BLOCK) as u32;
    let kept = size % BLOCK;
    if kept != 0 && old.contains_key(&Key::Block(node, last)) {
        let block = cut_block(alloc, old, node, last, kept)?;
        next.put(
            Key::Block(node, last),
            cell_of(stamp, Payload::Bytes(Octets::of(block))),
        )?;
    }
    Ok(())
}

fn cut_to(
    alloc: Global,
    cells: &PlainMap,
    stamp: u64,
    node: u32,
    size: u64,
) -> Result<PlainMap, NoMemory>
    requires { size ≤ file_limit }
    ensures { IfOk result (λ next. next ≡ cut_to cells.now stamp node size) }
{
    let mut next = cells.copy(alloc)?;
    next.retain_not_past(node, size);
    put_cut(alloc, cells, &mut next, stamp, node, size)?;
    Ok(next)
}

/// Without the blocks from a size on, where the file is longer.
fn cut_where_longer(
    alloc: Global,
    cells: &PlainMap,
    stamp: u64,
    node: u32,
    size: u64,
) -> Result<PlainMap, NoMemory>
    requires { size ≤ file_limit }
    ensures { IfOk result (λ next. next ≡ (if nat_lt size (size_at cells.now node) then cut_to cells.now stamp node size else cells.now)) }
{
    if size < size_at(cells, node) {
        cut_to(alloc, cells, stamp, node, size)
    } else {
        cells.copy(alloc)
    }
}

/// A file at a size.
pub fn resized(
    alloc: Global,
    cells: &PlainMap,
    stamp: u64,
    node: u32,
    size: u64,
) -> Result<PlainMap, NoMemory>
    requires { size ≤ file_limit }
    ensures { IfOk result (λ next. next ≡ resized cells.now stamp node size) }
{
    if size == size_at(cells, node) {
        return cells.copy(alloc);
    }
    let mut next = cut_where_longer(alloc, cells, stamp, node, size)?;
    next.put(Key::Node(node), cell_of(stamp, Payload::File(size)))?;
    Ok(next)
}
