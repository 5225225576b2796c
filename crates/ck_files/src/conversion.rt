ghost use Rattle.std.specs.Prelude.{◌≡◌, false};
ghost use Rattle.ck_model.specs.History.{is_fault, reply_number};
ghost use Rattle.ck_model.specs.Step.{converted};
ghost use Rattle.ck_model.specs.TableWorld.{world_on};
ghost use Rattle.ck_model.specs.Values.{Store};
ghost use Rattle.ck_model.specs.World.{Mounts};
ghost use Rattle.ck_nodata.specs.StripItem.{IsStrippedTo};
ghost use Rattle.ck_files.specs.Conversion.{IsConverted};
ghost use Rattle.ck_files.specs.Files.{IsOurs};
ghost use Rattle.ck_files.specs.Room.{answered_with};

use crate::strip::go_back;
use ck_chain::keeps;
use ck_model::{Meta, NameBytes, Reply};
use ck_nodata::StripItem;
use ck_table::{find, set_nodata};

/// Lets the checkpoint with this name keep no data from now on. Its data blocks stay until steps have
/// given them back; they stay as long as an older checkpoint keeps data.
pub fn convert<M: Meta>(meta: &mut M, stripped: &mut StripItem, name: &NameBytes) -> Reply
    requires ours { IsOurs (M.table meta.old) }
    requires stripped { IsStrippedTo (M.table meta.old) stripped.old }
    ensures reply { (store : Store) (mounts : Mounts) →
        converted (world_on store mounts (M.table meta.old)) name.now
        ≡ answered_with result (world_on store mounts (M.table meta.new)) }
    ensures ordinary { is_fault result ≡ false }
    ensures converted { reply_number result ≡ 0
        → IsConverted name.now result (M.table meta.old) (M.table meta.new) }
    ensures ours { IsOurs (M.table meta.new) }
    ensures entries { (M.table meta.new).entries ≡ (M.table meta.old).entries }
    ensures blocks { (M.table meta.new).blocks ≡ (M.table meta.old).blocks }
    ensures records { (M.table meta.new).records ≡ (M.table meta.old).records }
    ensures stripped { IsStrippedTo (M.table meta.new) stripped.new }
{
    let Some(id) = find(meta, name) else {
        return Reply::NoCkpt;
    };
    set_nodata(meta, id);
    go_back(stripped, id - 1);
    if keeps(meta, id) {
        Reply::Delayed
    } else {
        Reply::Done
    }
}
