ghost use Rattle.std.specs.Prelude.{◌≡◌, ◌≤◌, ◌<◌, ◌+◌, ◌-◌, ◌++◌, IfOk, OnOk};
ghost use Rattle.std.specs.List.{range_with_len};
ghost use Rattle.ck_model.specs.Limits.{file_limit};
ghost use Rattle.ck_tree.specs.Writes.{block_writes, grown_put, write_changes};

use ck_model::{BLOCK, Change, Key, NoMemory, Small};
use std::alloc::Global;

/// Puts the node, if the file grows to this end, and writes the blocks from an index to another.
fn write_range(
    node: u32,
    old: u64,
    end: u64,
    from: u32,
    to: u32,
    changes: &mut Vec<Change>,
) -> Result<(), NoMemory>
    requires { from ≤ to }
    ensures { OnOk result (changes.new.items ≡ (changes.old.items ++ grown_put node old end)
        ++ block_writes node (range_with_len from (to - from))) }
{
    if old < end {
        changes.push(Change::Put(Key::Node(node), Small::File(end)))?;
    }
    for index in from..to {
        changes.push(Change::Write(node, index, 0))?;
    }
    Ok(())
}

/// The changes of a file of an old size to which so many bytes are written at a place.
pub fn write_bytes(
    alloc: Global,
    node: u32,
    old: u64,
    at: u64,
    len: u64,
) -> Result<Vec<Change>, NoMemory>
    requires some { 0 < len }
    requires limit { at + len ≤ file_limit }
    ensures { IfOk result (λ changes. changes.items ≡ write_changes node old at len) }
{
    let end = at + len;
    let from = (at / BLOCK) as u32;
    let to = ((end + BLOCK - 1) / BLOCK) as u32;
    let mut changes = Vec::new(alloc);
    write_range(node, old, end, from, to, &mut changes)?;
    Ok(changes)
}
