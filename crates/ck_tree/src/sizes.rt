ghost use Rattle.std.specs.Prelude.{◌≡◌, ◌≤◌, ◌++◌, IfOk, OnOk, [], if◌then◌else◌, nat_lt};
ghost use Rattle.ck_model.specs.Limits.{file_limit};
ghost use Rattle.ck_tree.specs.Sizes.{cut_changes, cut_write, size_changes, size_put};

use crate::deletions::delete_blocks;
use crate::value::held_at;
use ck_model::{BLOCK, Change, Key, Meta, NoMemory, Small};
use std::alloc::Global;

/// Writes the last block, where a size cuts it and the primary has it.
fn cut_last<M: Meta>(
    meta: &M,
    node: u32,
    size: u64,
    changes: &mut Vec<Change>,
) -> Result<(), NoMemory>
    requires { size ≤ file_limit }
    ensures { OnOk result
        (changes.new.items ≡ changes.old.items ++ cut_write (M.table meta.now) node size) }
{
    let last = (size / BLOCK) as u32;
    if size % BLOCK != 0 && held_at(meta, 0, &Key::Block(node, last)).is_some() {
        changes.push(Change::Write(node, last, 0))?;
    }
    Ok(())
}

/// Cuts a file at a size.
fn cut<M: Meta>(meta: &M, node: u32, size: u64, changes: &mut Vec<Change>) -> Result<(), NoMemory>
    requires { size ≤ file_limit }
    ensures { OnOk result
        (changes.new.items ≡ changes.old.items ++ cut_changes (M.table meta.now) node size) }
{
    let first = ((size + BLOCK - 1) / BLOCK) as u32;
    delete_blocks(meta, node, first, changes)?;
    cut_last(meta, node, size, changes)
}

/// Cuts a file of an old size at a size, if that is less.
fn cut_less<M: Meta>(
    meta: &M,
    node: u32,
    old: u64,
    size: u64,
    changes: &mut Vec<Change>,
) -> Result<(), NoMemory>
    requires { size ≤ file_limit }
    ensures { OnOk result (changes.new.items ≡ changes.old.items
        ++ (if nat_lt size old then cut_changes (M.table meta.now) node size else [])) }
{
    if size < old {
        cut(meta, node, size, changes)?;
    }
    Ok(())
}

/// Puts the node, if its size changes.
fn put_size(node: u32, old: u64, size: u64, changes: &mut Vec<Change>) -> Result<(), NoMemory>
    ensures { OnOk result (changes.new.items ≡ changes.old.items ++ size_put node old size) }
{
    if size != old {
        changes.push(Change::Put(Key::Node(node), Small::File(size)))?;
    }
    Ok(())
}

/// The changes of a file of an old size that gets this one.
pub fn resize<M: Meta>(
    alloc: Global,
    meta: &M,
    node: u32,
    old: u64,
    size: u64,
) -> Result<Vec<Change>, NoMemory>
    requires { size ≤ file_limit }
    ensures { IfOk result (λ changes. changes.items
        ≡ size_changes (M.table meta.now) node old size) }
{
    let mut changes = Vec::new(alloc);
    cut_less(meta, node, old, size, &mut changes)?;
    put_size(node, old, size, &mut changes)?;
    Ok(changes)
}
