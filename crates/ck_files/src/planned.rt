ghost use Rattle.std.specs.Prelude.{◌≡◌, ◌≢◌, IfOk, OnErr};
ghost use Rattle.ck_tree.specs.declared.fault.TreeFault.TheVariants as fault;
ghost use Rattle.ck_tree.specs.Faults.{reply_of};
ghost use Rattle.ck_model.specs.FileCalls.{changed_by, IsChanging};
ghost use Rattle.ck_model.specs.Step.{changing};
ghost use Rattle.ck_model.specs.TableWorld.{world_on};
ghost use Rattle.ck_model.specs.Values.{Store};
ghost use Rattle.ck_model.specs.World.{Mounts};
ghost use Rattle.ck_files.specs.declared.planned.Planned.TheVariants.{Answered};
ghost use Rattle.ck_nodata.specs.StripItem.{IsStrippedTo};
ghost use Rattle.ck_files.specs.Allocated.{KeepsBusy};
ghost use Rattle.ck_files.specs.Files.{AreFiles};
ghost use Rattle.ck_files.specs.Planned.{IsPlanned};
ghost use Rattle.ck_files.specs.Room.{given_before};
ghost use Rattle.ck_files.specs.Worlds.{StandAlike, StandsWithout};

use crate::given::Given;
use crate::room::make_room;
use ck_alloc::Blocks;
use ck_model::{Call, Change, Limits, Meta, NoMemory, Reply};
use ck_nodata::StripItem;
use ck_tree::{TreeFault, plan};
use std::alloc::Global;

/// What a call that changes files comes to.
#[derive(Debug, Drop)]
pub enum Planned {
    /// It is refused, or there is no room for it.
    Answered(Reply),
    /// Its changes, for which there is room, and how many data blocks they write.
    Changes(Vec<Change>, u32),
}

/// What a refusal comes to; want of memory is no refusal.
fn refused(why: TreeFault) -> Result<Given<Planned>, NoMemory>
    ensures { IfOk result (λ planned. (why ≢ fault.NoMemory) × (planned ≡ record { count = 0; answer = Answered (reply_of why) })) }
{
    if why == TreeFault::NoMemory {
        return Err(NoMemory);
    }
    Ok(Given::none(Planned::Answered(Reply::from(why))))
}

/// What a call that changes files comes to. Nothing is written; where it doesn't fit at once, what is left to
/// remove or to strip goes, and then removable checkpoints are given up one by one until it fits.
pub fn plan_changes<M: Meta>(
    alloc: Global,
    meta: &mut M,
    blocks: &mut Blocks,
    stripped: &mut StripItem,
    limits: Limits,
    call: &Call,
) -> Result<Given<Planned>, NoMemory>
    requires files { AreFiles limits (M.table meta.old) blocks.old }
    requires changing { IsChanging call.now }
    requires stripped { IsStrippedTo (M.table meta.old) stripped.old }
    ensures alike { OnErr result (StandAlike (M.table meta.old) (M.table meta.new)) }
    ensures without { IfOk result (λ planned. StandsWithout planned.count (M.table meta.old) (M.table meta.new)) }
    ensures files { AreFiles limits (M.table meta.new) blocks.new }
    ensures busy { KeepsBusy blocks.old blocks.new }
    ensures planned { IfOk result (λ planned. IsPlanned (M.table meta.new) call.now planned.answer) }

    // What it comes to here is what the model says, with as many checkpoints given up.
    ensures given { IfOk result (λ planned. (store : Store) (mounts : Mounts) →
        let w = world_on store mounts (M.table meta.old) in
        let left = world_on store mounts (M.table meta.new) in
        changing w (changed_by w call.now) ≡ given_before planned.count (changing left (changed_by left call.now))) }
    ensures stripped { IsStrippedTo (M.table meta.new) stripped.new }
{
    let changes = match plan(alloc, meta, call) {
        Ok(changes) => changes,
        Err(fault) => return refused(fault),
    };
    let Given { count, answer } = make_room(meta, blocks, stripped, limits, &changes);
    let answer = match answer {
        Ok(writes) => Planned::Changes(changes, writes),
        Err(reply) => Planned::Answered(reply),
    };
    Ok(Given { count, answer })
}
