ghost use Rattle.std.specs.Prelude.{◌≡◌, ◌++◌, ◌&&◌, true, is_some, IfSome, IfOk, OnOk, Some};
ghost use Rattle.ck_model.specs.declared.key.Key.TheVariants.{Block};
ghost use Rattle.ck_model.specs.Table.{column};
ghost use Rattle.ck_chain.specs.Order.{IsNext};
ghost use Rattle.ck_tree.specs.Deletions.{blocks_from, deletion_at, deletions, file_keys, is_block_from};

use ck_chain::next_entry;
use ck_model::{Change, Key, Meta, NoMemory};
use std::alloc::Global;

fn is_block_from(node: u32, first: u32, key: &Key) -> bool
    ensures { result ≡ is_block_from node first key.now }
{
    match key {
        Key::Block(number, index) => *number == node && first <= *index,
        _ => false,
    }
}

/// The next block of a file behind this one that the primary has.
fn next_block<M: Meta>(meta: &M, node: u32, first: u32, block: &Key) -> Option<Key>
    requires { is_block_from node first block.now ≡ true }
    ensures next { let t = M.table meta.now in
        IsNext t (λ q. is_block_from node first q && is_some (column t q 0)) (Some block.now) result }
    ensures block { IfSome result (λ next. is_block_from node first next ≡ true) }
{
    let next = next_entry(meta, 0, Some(block))?;
    if is_block_from(node, first, &next) {
        Some(next)
    } else {
        None
    }
}

/// Deletes the key, if the primary has it.
fn delete<M: Meta>(meta: &M, key: &Key, changes: &mut Vec<Change>) -> Result<(), NoMemory>
    ensures { OnOk result
        (changes.new.items ≡ changes.old.items ++ deletion_at (M.table meta.now) key.now) }
{
    if meta.get(0, key).is_some() {
        changes.push(Change::Del(*key))?;
    }
    Ok(())
}

/// Deletes the blocks of a file from an index on.
pub fn delete_blocks<M: Meta>(
    meta: &M,
    node: u32,
    first: u32,
    changes: &mut Vec<Change>,
) -> Result<(), NoMemory>
    ensures { OnOk result (changes.new.items
        ≡ changes.old.items ++ deletions (blocks_from (M.table meta.now) node first)) }
{
    let mut here = Some(Key::Block(node, first));
    while let Some(block) = here {
        delete(meta, &block, changes)?;
        here = next_block(meta, node, first, &block);
    }
    Ok(())
}

/// The deletions of a file's name, its node and its blocks.
pub fn delete_file<M: Meta>(
    alloc: Global,
    meta: &M,
    name: &Key,
    node: u32,
) -> Result<Vec<Change>, NoMemory>
    ensures { IfOk result (λ changes. changes.items
        ≡ deletions (file_keys (M.table meta.now) name.now node)) }
{
    let first = [Change::Del(*name), Change::Del(Key::Node(node))];
    let mut changes = Vec::from_slice(alloc, &first)?;
    delete_blocks(meta, node, 0, &mut changes)?;
    Ok(changes)
}
