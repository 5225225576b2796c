ghost use Rattle.std.specs.Prelude.{◌≡◌, ◌<◌, ℕ, Bool, List, Ok, false, IsSome};
ghost use Rattle.ck_model.specs.CheckpointCalls.{kind_of, new_id as new_id_in};
ghost use Rattle.ck_model.specs.declared.reply.SpaceOf.TheVariants.{Records};
ghost use Rattle.ck_model.specs.declared.reply.Reply.TheVariants.{NoSpace};
ghost use Rattle.ck_model.specs.World.{Mounts};
ghost use Rattle.ck_model.specs.History.{created_id, is_fault};
ghost use Rattle.ck_model.specs.Name.{IsCheckpointName};
ghost use Rattle.ck_model.specs.Step.{created};
ghost use Rattle.ck_model.specs.Values.{Store};
ghost use Rattle.ck_model.specs.TableWorld.{world_on};
ghost use Rattle.ck_table.specs.Added.{new_fileset, new_id, with_added};
ghost use Rattle.ck_files.specs.Freeze.{refusal_of, refused_or};
ghost use Rattle.ck_model.specs.Table.{spare_count};
ghost use Rattle.ck_files.specs.Allocated.{KeepsBusy, IsAllocated};
ghost use Rattle.ck_files.specs.Files.{AreFiles, IsOurs};
ghost use Rattle.ck_files.specs.Picks.{IsFull};
ghost use Rattle.ck_files.specs.Worlds.{StandsWithout};
ghost use Rattle.ck_files.specs.Room.{answered_after, answered_with, given_before};
ghost use Rattle.ck_files.specs.Reports.{limits_of};
ghost use Rattle.ck_nodata.specs.declared.item.StripItem.{StripItem};
ghost use Rattle.ck_nodata.specs.StripItem.{IsStrippedTo};

use crate::given::Given;
use crate::picks::give_up_next;
use crate::removal::drain;
use ck_alloc::Blocks;
use ck_model::{Kind, Limits, Meta, NameBytes, Reply, SpaceOf};
use ck_nodata::StripItem;
use ck_table::{AddFault, add, new_id};

fn kind_of(nodata: bool) -> Kind
    ensures { result ≡ kind_of nodata }
{
    if nodata { Kind::Nodata } else { Kind::Keeping }
}

fn refusal(fault: AddFault, most: u32) -> Reply
    ensures { result ≡ refusal_of most fault }
{
    match fault {
        AddFault::Exists => Reply::Exists,
        AddFault::TooMany => Reply::TooMany(most),
        AddFault::Spent => Reply::Spent,
    }
}

/// Why no checkpoint with this name is added where no record is free.
fn lack<M: Meta>(meta: &M, limits: Limits, name: &NameBytes) -> Reply
    ensures { result ≡ refused_or limits.checkpoints
        (NoSpace Records limits.records 1 limits.records)
        (new_id (M.table meta.now) name.now) }
{
    match new_id(meta, name) {
        Ok(_) => {
            let records = u64::from(limits.records);
            Reply::NoSpace(SpaceOf::Records, records, 1, records)
        }
        Err(fault) => refusal(fault, limits.checkpoints),
    }
}

/// Adds the checkpoint, where a record is free.
fn add_checkpoint<M: Meta>(
    meta: &mut M,
    limits: Limits,
    name: &NameBytes,
    nodata: bool,
    removable: bool,
    at: u64,
) -> Reply
    requires ours { IsOurs (M.table meta.old) }
    requires limits { limits ≡ limits_of (M.table meta.old) }
    requires full { spare_count (M.table meta.old) ≡ 0 → IsFull (M.table meta.old) }
    requires name { IsCheckpointName name.now }
    ensures reply { (store : Store) (mounts : Mounts) →
        created (world_on store mounts (M.table meta.old)) name.now nodata removable at
        ≡ answered_with result (world_on store mounts (M.table meta.new)) }
    ensures ordinary { is_fault result ≡ false }
    ensures added { IsSome (created_id result)
        → M.table meta.new ≡ with_added (M.table meta.old) (new_fileset name.now (kind_of nodata) removable at) }
    ensures ours { IsOurs (M.table meta.new) }
    ensures entries { (M.table meta.new).entries ≡ (M.table meta.old).entries }
    ensures blocks { (M.table meta.new).blocks ≡ (M.table meta.old).blocks }
    ensures records { (M.table meta.new).records ≡ (M.table meta.old).records }
    ensures stripped { (last : StripItem) → IsStrippedTo (M.table meta.old) last → IsStrippedTo (M.table meta.new) last }
{
    if meta.spare() == 0 {
        return lack(meta, limits, name);
    }
    match add(meta, name, kind_of(nodata), removable, at) {
        Ok(id) => Reply::Created(id),
        Err(fault) => refusal(fault, limits.checkpoints),
    }
}

/// Frees a record where none is free: what is left to remove or to strip goes, and then removable checkpoints
/// are given up one by one until one is. Gives how many were.
fn free_record<M: Meta>(meta: &mut M, blocks: &mut Blocks, stripped: &mut StripItem) -> u32
    requires ours { IsOurs (M.table meta.old) }
    requires allocated { IsAllocated (M.table meta.old) blocks.old }
    requires stripped { IsStrippedTo (M.table meta.old) stripped.old }
    ensures without { StandsWithout result (M.table meta.old) (M.table meta.new) }
    ensures given { (store : Store) (mounts : Mounts) (name : List ℕ) (nodata removable : Bool) (at id : ℕ) →
        let w = world_on store mounts (M.table meta.old) in
        let left = world_on store mounts (M.table meta.new) in
        new_id_in w name ≡ Ok id → created w name nodata removable at ≡ given_before result (created left name nodata removable at) }
    ensures ours { IsOurs (M.table meta.new) }
    ensures allocated { IsAllocated (M.table meta.new) blocks.new }
    ensures busy { KeepsBusy blocks.old blocks.new }
    ensures at_once { 0 < spare_count (M.table meta.old) → M.table meta.new ≡ M.table meta.old }
    ensures full { spare_count (M.table meta.new) ≡ 0 → IsFull (M.table meta.new) }
    ensures stripped { IsStrippedTo (M.table meta.new) stripped.new }
{
    if meta.spare() > 0 {
        return 0;
    }
    drain(meta, blocks, stripped);
    let mut count = 0;
    while meta.spare() == 0 && give_up_next(meta, stripped) {
        drain(meta, blocks, stripped);
        count += 1;
    }
    count
}

/// Freezes a checkpoint, which keeps the files or, as `nodata` says, no data, and is removable or not. No
/// data block is copied. Where no record is free, what is left to remove goes first, and then removable
/// checkpoints are given up.
pub fn create<M: Meta>(
    meta: &mut M,
    blocks: &mut Blocks,
    stripped: &mut StripItem,
    limits: Limits,
    name: &NameBytes,
    nodata: bool,
    removable: bool,
    at: u64,
) -> Given<Reply>
    requires files { AreFiles limits (M.table meta.old) blocks.old }
    requires limits { limits ≡ limits_of (M.table meta.old) }
    requires name { IsCheckpointName name.now }
    requires stripped { IsStrippedTo (M.table meta.old) stripped.old }
    ensures reply { (store : Store) (mounts : Mounts) →
        created (world_on store mounts (M.table meta.old)) name.now nodata removable at
        ≡ answered_after result.count result.answer (world_on store mounts (M.table meta.new)) }
    ensures ordinary { is_fault result.answer ≡ false }
    ensures added { IsSome (created_id result.answer) → 0 < spare_count (M.table meta.old)
        → M.table meta.new ≡ with_added (M.table meta.old) (new_fileset name.now (kind_of nodata) removable at) }
    ensures files { AreFiles limits (M.table meta.new) blocks.new }
    ensures busy { KeepsBusy blocks.old blocks.new }
    ensures stripped { IsStrippedTo (M.table meta.new) stripped.new }
{
    if let Err(fault) = new_id(meta, name) {
        return Given::none(refusal(fault, limits.checkpoints));
    }
    let count = free_record(meta, blocks, stripped);
    let answer = add_checkpoint(meta, limits, name, nodata, removable, at);
    Given { count, answer }
}
