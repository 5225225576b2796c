ghost use Rattle.std.specs.Prelude.{◌≡◌, ◌≤◌, ◌<◌, ◌-◌, ◌^◌, true, false, IfErr, IfOk, MatchOption, None, length};
ghost use Rattle.ck_model.specs.FileCalls.{changed_by};
ghost use Rattle.ck_model.specs.Step.{changing};
ghost use Rattle.ck_model.specs.TableWorld.{extent_count, world_on};
ghost use Rattle.ck_model.specs.Values.{Store};
ghost use Rattle.ck_model.specs.World.{Mounts};
ghost use Rattle.ck_model.specs.declared.call.Call.{Call};
ghost use Rattle.ck_nodata.specs.StripItem.{IsStrippedTo};
ghost use Rattle.ck_reclaim.specs.Removable.{pick_of};
ghost use Rattle.ck_tree.specs.Plan.{IsPlan};
ghost use Rattle.ck_files.specs.Allocated.{KeepsBusy, IsAllocated};
ghost use Rattle.ck_files.specs.Files.{AreFiles, IsOurs};
ghost use Rattle.ck_files.specs.Room.{given_before, has_room, lack_of_room, HasRoom, IsLacking};
ghost use Rattle.ck_files.specs.Worlds.{StandAlike, StandsWithout};

use crate::given::Given;
use crate::picks::give_up_next;
use crate::removal::drain;
use ck_alloc::Blocks;
use ck_model::{Change, Cost, Limits, Meta, Reply, SpaceOf};
use ck_nodata::StripItem;
use ck_push::cost;

/// How many data blocks are in use.
pub fn used<M: Meta>(meta: &M, blocks: &Blocks, limits: Limits) -> u32
    requires { AreFiles limits (M.table meta.now) blocks.now }
    ensures count { result ≡ extent_count (M.table meta.now) }
    ensures within { result ≤ limits.blocks }
{
    limits.blocks - (blocks.free() + blocks.pending())
}

/// Whether changes of this cost fit at once, into data blocks and records that are free.
fn fits<M: Meta>(meta: &M, blocks: &Blocks, cost: &Cost) -> bool
    requires ours { IsOurs (M.table meta.now) }
    requires allocated { IsAllocated (M.table meta.now) blocks.now }
    ensures { result ≡ true → has_room (M.table meta.now) cost.now.blocks cost.now.records ≡ true }
{
    cost.blocks <= blocks.free() && cost.records <= meta.spare()
}

/// Why changes of this cost don't fit, where they don't.
pub fn lack<M: Meta>(meta: &M, blocks: &Blocks, limits: Limits, cost: &Cost) -> Option<Reply>
    requires files { AreFiles limits (M.table meta.now) blocks.now }
    requires few_blocks { cost.now.blocks < 2 ^ 31 }
    requires few_records { cost.now.records < 2 ^ 31 }
    ensures { MatchOption result
        (has_room (M.table meta.now) cost.now.blocks cost.now.records ≡ true)
        (λ reply. (has_room (M.table meta.now) cost.now.blocks cost.now.records ≡ false)
        × (reply ≡ lack_of_room (M.table meta.now) cost.now.blocks cost.now.records)) }
{
    let used = used(meta, blocks, limits);
    if used + cost.blocks > limits.blocks {
        return Some(Reply::NoSpace(
            SpaceOf::Blocks,
            u64::from(used),
            u64::from(cost.blocks),
            u64::from(limits.blocks),
        ));
    }
    let records = limits.records - meta.spare();
    if records + cost.records > limits.records {
        return Some(Reply::NoSpace(
            SpaceOf::Records,
            u64::from(records),
            u64::from(cost.records),
            u64::from(limits.records),
        ));
    }
    None
}

/// Whether changes fit once nothing is left to remove or to strip: how many data blocks they write, or why
/// they don't fit. Data blocks that are pending count as free.
fn room_left<M: Meta>(
    meta: &mut M,
    blocks: &mut Blocks,
    stripped: &mut StripItem,
    limits: Limits,
    changes: &[Change],
) -> Result<u32, Reply>
    requires files { AreFiles limits (M.table meta.old) blocks.old }
    requires few { length changes.now ≤ 262146 }
    requires stripped { IsStrippedTo (M.table meta.old) stripped.old }
    ensures alike { StandAlike (M.table meta.old) (M.table meta.new) }
    ensures files { AreFiles limits (M.table meta.new) blocks.new }
    ensures busy { KeepsBusy blocks.old blocks.new }
    ensures fits { IfOk result (HasRoom (M.table meta.new) changes.now) }
    ensures lack { IfErr result (IsLacking (M.table meta.new) changes.now) }
    ensures stripped { IsStrippedTo (M.table meta.new) stripped.new }
{
    drain(meta, blocks, stripped);
    let cost = cost(meta, changes);
    match lack(meta, blocks, limits, &cost) {
        Some(reply) => Err(reply),
        None => Ok(cost.blocks),
    }
}

/// Makes room for changes that don't fit at once: what is left to remove or to strip goes, and then removable
/// checkpoints are given up one by one until they fit. Gives how many data blocks they write, or why they
/// don't fit.
fn free_room<M: Meta>(
    meta: &mut M,
    blocks: &mut Blocks,
    stripped: &mut StripItem,
    limits: Limits,
    changes: &[Change],
) -> Given<Result<u32, Reply>>
    requires files { AreFiles limits (M.table meta.old) blocks.old }
    requires few { length changes.now ≤ 262146 }
    requires stripped { IsStrippedTo (M.table meta.old) stripped.old }
    ensures without { StandsWithout result.count (M.table meta.old) (M.table meta.new) }
    ensures given { (store : Store) (mounts : Mounts) (call : Call) → IsPlan (M.table meta.old) call changes.now →
        let w = world_on store mounts (M.table meta.old) in
        let left = world_on store mounts (M.table meta.new) in
        changing w (changed_by w call) ≡ given_before result.count (changing left (changed_by left call)) }
    ensures files { AreFiles limits (M.table meta.new) blocks.new }
    ensures busy { KeepsBusy blocks.old blocks.new }
    ensures fits { IfOk result.answer (HasRoom (M.table meta.new) changes.now) }
    ensures lack { IfErr result.answer (λ reply. IsLacking (M.table meta.new) changes.now reply × (pick_of (M.table meta.new) ≡ None)) }
    ensures stripped { IsStrippedTo (M.table meta.new) stripped.new }
{
    let mut count = 0;
    let mut answer = room_left(meta, blocks, stripped, limits, changes);
    while answer.is_err() && give_up_next(meta, stripped) {
        count += 1;
        answer = room_left(meta, blocks, stripped, limits, changes);
    }
    Given { count, answer }
}

/// Makes room for changes. Gives how many data blocks they write, or why they don't fit.
pub(crate) fn make_room<M: Meta>(
    meta: &mut M,
    blocks: &mut Blocks,
    stripped: &mut StripItem,
    limits: Limits,
    changes: &[Change],
) -> Given<Result<u32, Reply>>
    requires files { AreFiles limits (M.table meta.old) blocks.old }
    requires few { length changes.now ≤ 262146 }
    requires stripped { IsStrippedTo (M.table meta.old) stripped.old }
    ensures without { StandsWithout result.count (M.table meta.old) (M.table meta.new) }
    ensures given { (store : Store) (mounts : Mounts) (call : Call) → IsPlan (M.table meta.old) call changes.now →
        let w = world_on store mounts (M.table meta.old) in
        let left = world_on store mounts (M.table meta.new) in
        changing w (changed_by w call) ≡ given_before result.count (changing left (changed_by left call)) }
    ensures files { AreFiles limits (M.table meta.new) blocks.new }
    ensures busy { KeepsBusy blocks.old blocks.new }
    ensures fits { IfOk result.answer (HasRoom (M.table meta.new) changes.now) }
    ensures lack { IfErr result.answer (λ reply. IsLacking (M.table meta.new) changes.now reply × (pick_of (M.table meta.new) ≡ None)) }
    ensures stripped { IsStrippedTo (M.table meta.new) stripped.new }
{
    let at_once = cost(meta, changes);
    if fits(meta, blocks, &at_once) {
        return Given::none(Ok(at_once.blocks));
    }
    free_room(meta, blocks, stripped, limits, changes)
}
