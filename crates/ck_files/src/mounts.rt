ghost use Rattle.std.specs.Prelude.{◌≡◌, IfOk, IfErr, OnErr, MatchResult, Err, false};
ghost use Rattle.ck_model.specs.CheckpointCalls.{dismounted, mounted, mounted_checkpoint};
ghost use Rattle.ck_model.specs.History.{is_fault};
ghost use Rattle.ck_model.specs.Step.{done};
ghost use Rattle.ck_model.specs.Table.{Table};
ghost use Rattle.ck_model.specs.Values.{Store};
ghost use Rattle.ck_model.specs.TableWorld.{world_on};
ghost use Rattle.ck_files.specs.Mounts.{IsMounted};
ghost use Rattle.ck_files.specs.Files.{IsOurs};
ghost use Rattle.ck_files.specs.Room.{answered_with};

use crate::reports::standing;
use ck_model::{Meta, Mounts, NameBytes, NoMemory, Reply};
use ck_table::find;

/// Lets a letter of the actor's stand for the checkpoint with this name. A refusal for want of
/// memory changes nothing.
pub fn mount<M: Meta>(
    meta: &M,
    mounts: &mut Mounts,
    actor: u32,
    letter: u8,
    name: &NameBytes,
) -> Result<Reply, NoMemory>
    requires { IsOurs (M.table meta.now) }
    ensures ok { IfOk result (λ reply. (store : Store) →
        done (world_on store mounts.old (M.table meta.now))
        (mounted (world_on store mounts.old (M.table meta.now)) actor letter name.now)
        ≡ answered_with reply (world_on store mounts.new (M.table meta.now))) }
    ensures err { OnErr result (mounts.new ≡ mounts.old) }
    ensures ordinary { IfOk result (λ reply. is_fault reply ≡ false) }
{
    let Some(id) = find(meta, name) else {
        return Ok(Reply::NoCkpt);
    };
    if mounts.contains_key(actor, letter) {
        return Ok(Reply::InUse);
    }
    mounts.insert(actor, letter, id)?;
    Ok(Reply::Done)
}

/// Lets a letter of the actor's stand for no checkpoint any more.
pub fn umount(mounts: &mut Mounts, actor: u32, letter: u8) -> Reply
    ensures reply { (store : Store) (t : Table) →
        done (world_on store mounts.old t) (dismounted (world_on store mounts.old t) actor letter)
        ≡ answered_with result (world_on store mounts.new t) }
    ensures ordinary { is_fault result ≡ false }
{
    if mounts.contains_key(actor, letter) {
        mounts.remove(actor, letter);
        Reply::Done
    } else {
        Reply::NotMounted
    }
}

/// The id of the checkpoint that a letter of the actor's stands for.
pub fn mounted_at<M: Meta>(meta: &M, mounts: &Mounts, actor: u32, letter: u8) -> Result<u32, Reply>
    requires { IsOurs (M.table meta.now) }
    ensures value { (store : Store) → MatchResult result
        (IsMounted store mounts.now (M.table meta.now) actor letter)
        (λ reply. mounted_checkpoint (world_on store mounts.now (M.table meta.now)) actor letter
        ≡ Err reply) }
    ensures ordinary { IfErr result (λ reply. is_fault reply ≡ false) }
{
    let Some(id) = mounts.get(actor, letter) else {
        return Err(Reply::NotMounted);
    };
    match standing(meta, id) {
        Some(_) => Ok(id),
        None => Err(Reply::Gone(id)),
    }
}
