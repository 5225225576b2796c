ghost use Rattle.std.specs.Prelude.{◌≡◌, false};
ghost use Rattle.ck_model.specs.CheckpointCalls.{with_flag};
ghost use Rattle.ck_model.specs.History.{is_fault};
ghost use Rattle.ck_model.specs.Step.{done};
ghost use Rattle.ck_model.specs.TableWorld.{world_on};
ghost use Rattle.ck_model.specs.Values.{Store};
ghost use Rattle.ck_model.specs.World.{Mounts};
ghost use Rattle.ck_model.specs.declared.reply.Reply.TheVariants.{Done};
ghost use Rattle.ck_nodata.specs.declared.item.StripItem.{StripItem};
ghost use Rattle.ck_nodata.specs.StripItem.{IsStrippedTo};
ghost use Rattle.ck_files.specs.Files.{IsOurs};
ghost use Rattle.ck_files.specs.Flag.{IsFlagged};
ghost use Rattle.ck_files.specs.Room.{answered_with};

use ck_model::{Meta, NameBytes, Reply};
use ck_table::{find, set_removable};

/// Lets the checkpoint with this name be given up where room is wanted, or not.
pub fn make_removable<M: Meta>(meta: &mut M, name: &NameBytes, on: bool) -> Reply
    requires ours { IsOurs (M.table meta.old) }
    ensures reply { (store : Store) (mounts : Mounts) →
        done (world_on store mounts (M.table meta.old)) (with_flag (world_on store mounts (M.table meta.old)) name.now on)
        ≡ answered_with result (world_on store mounts (M.table meta.new)) }
    ensures ordinary { is_fault result ≡ false }
    ensures flagged { result ≡ Done → IsFlagged name.now on (M.table meta.old) (M.table meta.new) }
    ensures ours { IsOurs (M.table meta.new) }
    ensures entries { (M.table meta.new).entries ≡ (M.table meta.old).entries }
    ensures blocks { (M.table meta.new).blocks ≡ (M.table meta.old).blocks }
    ensures records { (M.table meta.new).records ≡ (M.table meta.old).records }
    ensures stripped { (last : StripItem) → IsStrippedTo (M.table meta.old) last → IsStrippedTo (M.table meta.new) last }
{
    match find(meta, name) {
        Some(id) => {
            set_removable(meta, id, on);
            Reply::Done
        }
        None => Reply::NoCkpt,
    }
}
