ghost use Rattle.std.specs.Prelude.{◌≡◌, ℕ, true, false, length, find, IfOk, IfSome, IfNone};
ghost use Rattle.ck_model.specs.Table.{newer};
ghost use Rattle.ck_model.specs.Chain.{is_live, live_ids};
ghost use Rattle.ck_table.specs.Names.{is_named, id_named};

use ck_model::{Meta, NameBytes, NoMemory};
use std::alloc::Global;

fn is_live<M: Meta>(meta: &M, id: u32) -> bool
    ensures { result ≡ is_live (M.table meta.now) id }
{
    meta.fileset(id).is_some_and(|fileset| !fileset.gone)
}

fn is_named<M: Meta>(meta: &M, name: &NameBytes, id: u32) -> bool
    ensures { result ≡ is_named (M.table meta.now) name.now id }
{
    meta.fileset(id)
        .is_some_and(|fileset| !fileset.gone && fileset.name == *name)
}

/// The id of the checkpoint with this name.
pub fn find<M: Meta>(meta: &M, name: &NameBytes) -> Option<u32>
    ensures id { result ≡ id_named (M.table meta.now) name.now }
    ensures found { IfSome result (λ id. is_named (M.table meta.now) name.now id ≡ true) }
    ensures none { IfNone result ((id : ℕ) → is_named (M.table meta.now) name.now id ≡ false) }
{
    let mut at = 0;
    while let Some(id) = meta.next_fileset(at) {
        if is_named(meta, name, id) {
            return Some(id);
        }
        at = id;
    }
    None
}

/// How many checkpoints stand.
pub fn count_live<M: Meta>(meta: &M) -> u32
    ensures { result ≡ length (live_ids (M.table meta.now)) }
{
    let mut count = 0;
    let mut at = 0;
    while let Some(id) = meta.next_fileset(at) {
        if is_live(meta, id) {
            count += 1;
        }
        at = id;
    }
    count
}

/// The ids of the checkpoints that stand, oldest first.
pub fn live<M: Meta>(alloc: Global, meta: &M) -> Result<Vec<u32>, NoMemory>
    ensures { IfOk result (λ ids. ids.items ≡ live_ids (M.table meta.now)) }
{
    let mut ids = Vec::new(alloc);
    let mut at = 0;
    while let Some(id) = meta.next_fileset(at) {
        if is_live(meta, id) {
            ids.push(id)?;
        }
        at = id;
    }
    Ok(ids)
}
