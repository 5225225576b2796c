ghost use Rattle.std.specs.Prelude.{◌≡◌, ◌+◌, IfSome, IsSome, ℕ, None, Some, true};
ghost use Rattle.ck_model.specs.declared.key.Key.{Key};
ghost use Rattle.ck_model.specs.Held.{IsEntry};
ghost use Rattle.ck_model.specs.Table.{column, with_entry};
ghost use Rattle.ck_model.specs.Chain.{is_gone};
ghost use Rattle.ck_model.specs.Rules.{IsSound};
ghost use Rattle.ck_model.specs.TableWorld.{world_on};
ghost use Rattle.ck_model.specs.Values.{Store};
ghost use Rattle.ck_model.specs.World.{Mounts};
ghost use Rattle.ck_chain.specs.Kept.{pushed};
ghost use Rattle.ck_chain.specs.Named.{block_of};
ghost use Rattle.ck_remove.specs.Gone.{left_of, oldest_gone, work_of};
ghost use Rattle.ck_remove.specs.Removal.{
  released,
  stepped,
  taken_of,
  with_taken,
  without,
  IsFreed,
};
ghost use Rattle.ck_remove.specs.Unseen.{IsUnseen};

use crate::gone::GoneEntry;
use crate::older::{next_older, tidy_between};
use ck_chain::keeps;
use ck_model::{Freed, Held, Key, Meta};
use ck_table::unlink;

// What a checkpoint takes over of an entry: no data block where it keeps no data.
fn pushed(keeps: bool, old: Option<Held>) -> Held
    ensures { result ≡ pushed keeps old }
{
    match old {
        None => Held::Absent,
        Some(Held::Extent(stamp, _)) if !keeps => Held::Mark(stamp),
        Some(held) => held,
    }
}

// Which checkpoint takes over the fileset's entry, and as what.
fn taken_of<M: Meta>(meta: &M, fs: u32, key: &Key) -> Option<(u32, Held)>
    ensures { result ≡ taken_of (M.table meta.now) fs key.now }
{
    let older = next_older(meta, fs)?;
    if meta.get(older, key).is_some() {
        return None;
    }
    Some((older, pushed(keeps(meta, older), meta.get(fs, key))))
}

fn block_of(held: Option<Held>) -> Option<u32>
    ensures { result ≡ block_of held }
{
    match held {
        Some(Held::Extent(_, block)) => Some(block),
        _ => None,
    }
}

// The block that nothing names any more, as an entry moves or goes.
fn released(old: Option<Held>, taken: Option<(u32, Held)>) -> Freed
    ensures { result.block ≡ released old taken }
{
    let kept = block_of(taken.map(|(_, held)| held));
    Freed {
        block: if kept.is_some() { None } else { block_of(old) },
    }
}

// Takes the fileset's entry away, which frees a record for what is taken over.
fn move_entry<M: Meta>(meta: &mut M, fs: u32, key: &Key, taken: Option<(u32, Held)>)
    requires held { IsSome (column (M.table meta.old) key.now fs) }
    requires entry { IfSome taken (λ entry. IsEntry key.now entry.1) }
    ensures { M.table meta.new
        ≡ with_taken (with_entry (M.table meta.old) fs key.now None) key.now taken }
{
    meta.del(fs, key);
    if let Some((older, held)) = taken {
        meta.put(older, key, held);
    }
}

// Removes an entry of the oldest checkpoint that is gone.
fn remove_entry<M: Meta>(meta: &mut M, fs: u32, key: &Key) -> Freed
    requires gone { oldest_gone (M.table meta.old) ≡ Some fs }
    requires held { IsSome (column (M.table meta.old) key.now fs) }
    requires sound { IsSound (M.table meta.old) }
    ensures table { M.table meta.new ≡ without (M.table meta.old) fs (Some key.now) }
    ensures unseen { IsUnseen (M.table meta.old) (M.table meta.new) }
    ensures sound { IsSound (M.table meta.new) }
    ensures freed { IsFreed (M.table meta.old) (M.table meta.new) result }
    ensures left { left_of (M.table meta.new) + 1 ≡ left_of (M.table meta.old) }
{
    let old = meta.get(fs, key);
    let taken = taken_of(meta, fs, key);
    move_entry(meta, fs, key, taken);
    tidy_between(meta, 0, fs, key);
    released(old, taken)
}

// Removes a checkpoint that is gone and has no entry any more.
fn remove_empty<M: Meta>(meta: &mut M, fs: u32) -> Freed
    requires gone { is_gone (M.table meta.old) fs ≡ true }
    requires empty { (key : Key) → column (M.table meta.old) key fs ≡ None }
    requires sound { IsSound (M.table meta.old) }
    ensures table { M.table meta.new ≡ without (M.table meta.old) fs None }
    ensures unseen { IsUnseen (M.table meta.old) (M.table meta.new) }
    ensures sound { IsSound (M.table meta.new) }
    ensures freed { IsFreed (M.table meta.old) (M.table meta.new) result }
    ensures left { left_of (M.table meta.new) + 1 ≡ left_of (M.table meta.old) }
{
    unlink(meta, fs);
    Freed { block: None }
}

/// Removes the entry, which `work` gave. The next older checkpoint takes it over where it has none
/// at the key, a data block as a mark where that keeps no data; then the older checkpoints are
/// tidied there. A checkpoint without entries leaves the table.
///
/// Gives the data block that nothing names any more, if there is one. No memory is taken.
pub fn step<M: Meta>(meta: &mut M, item: GoneEntry) -> Freed
    requires work { work_of (M.table meta.old) ≡ Some item }
    requires sound { IsSound (M.table meta.old) }
    ensures table { M.table meta.new ≡ stepped (M.table meta.old) item }
    // The table stands for the same world, whatever its data blocks hold.
    ensures world { (store : Store) (mounts : Mounts) →
        world_on store mounts (M.table meta.new) ≡ world_on store mounts (M.table meta.old) }
    ensures unseen { IsUnseen (M.table meta.old) (M.table meta.new) }
    ensures sound { IsSound (M.table meta.new) }
    ensures freed { IsFreed (M.table meta.old) (M.table meta.new) result }
    // Each step is one of those that were left.
    ensures left { left_of (M.table meta.new) + 1 ≡ left_of (M.table meta.old) }
{
    let GoneEntry { id, key } = item;
    match key {
        Some(key) => remove_entry(meta, id, &key),
        None => remove_empty(meta, id),
    }
}
