ghost use Rattle.std.specs.Prelude.{◌≡◌, IfOk};
ghost use Rattle.ck_model.specs.Changes.{cell_of, with_node, without_file, without_directory, renamed};

use crate::PlainMap;
use ck_model::{Cell, Key, NoMemory, Payload};
use std::alloc::Global;

pub fn cell_of(stamp: u64, payload: Payload) -> Cell
    ensures { result ≡ cell_of stamp payload }
{
    Cell {
        stamp,
        payload: Some(payload),
    }
}

/// A new node and its name.
pub fn with_node(
    alloc: Global,
    cells: &PlainMap,
    stamp: u64,
    name: Key,
    node: u32,
    payload: Payload,
) -> Result<PlainMap, NoMemory>
    ensures { IfOk result (λ next. next ≡ with_node cells.now stamp name node payload) }
{
    let mut next = cells.copy(alloc)?;
    next.put(Key::Node(node), cell_of(stamp, payload))?;
    next.put(name, cell_of(stamp, Payload::To(node)))?;
    Ok(next)
}

/// Without a file's name, its node and its blocks.
pub fn without_file(
    alloc: Global,
    cells: &PlainMap,
    name: &Key,
    node: u32,
) -> Result<PlainMap, NoMemory>
    ensures { IfOk result (λ next. next ≡ without_file cells.now name.now node) }
{
    let mut next = cells.copy(alloc)?;
    next.retain_not_of(node);
    next.remove(name);
    Ok(next)
}

/// Without a directory's name and its node.
pub fn without_directory(
    alloc: Global,
    cells: &PlainMap,
    name: &Key,
    node: u32,
) -> Result<PlainMap, NoMemory>
    ensures { IfOk result (λ next. next ≡ without_directory cells.now name.now node) }
{
    let mut next = cells.copy(alloc)?;
    next.remove(&Key::Node(node));
    next.remove(name);
    Ok(next)
}

/// A node under another name.
pub fn renamed(
    alloc: Global,
    cells: &PlainMap,
    stamp: u64,
    from: &Key,
    to: Key,
    node: u32,
) -> Result<PlainMap, NoMemory>
    ensures { IfOk result (λ next. next ≡ renamed cells.now stamp from.now to node) }
{
    let mut next = cells.copy(alloc)?;
    next.remove(from);
    next.put(to, cell_of(stamp, Payload::To(node)))?;
    Ok(next)
}
