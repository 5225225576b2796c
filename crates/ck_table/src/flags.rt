ghost use Rattle.std.specs.Prelude.{◌≡◌, ◌≢◌, ℕ, true, false};
ghost use Rattle.ck_model.specs.declared.key.Key.{Key};
ghost use Rattle.ck_model.specs.Table.{record_count};
ghost use Rattle.ck_model.specs.Chain.{
  is_live,
  is_live_data,
  keeps_data,
  live_ids,
  seen,
  value_of,
};
ghost use Rattle.ck_model.specs.Rules.{IsSound};
ghost use Rattle.ck_table.specs.Flags.{with_nodata, with_removable};

use ck_model::{Fileset, Kind, Meta};

/// A checkpoint keeps no data from now on. Its data blocks stay until they are stripped.
pub fn set_nodata<M: Meta>(meta: &mut M, id: u32)
    requires live { is_live (M.table meta.old) id ≡ true }
    requires sound { IsSound (M.table meta.old) }
    ensures table { M.table meta.new ≡ with_nodata (M.table meta.old) id }
    ensures sound { IsSound (M.table meta.new) }

    ensures lives { live_ids (M.table meta.new) ≡ live_ids (M.table meta.old) }
    ensures values { (fs : ℕ) (key : Key)
        → value_of (M.table meta.new) fs key ≡ value_of (M.table meta.old) fs key }
    // In it and in others that keep no data of their own, blocks may read as marks from now on.
    ensures kept { (fs : ℕ) (key : Key) → fs ≢ id → is_live_data (M.table meta.old) fs ≡ true
        → seen (M.table meta.new) fs key ≡ seen (M.table meta.old) fs key }
    // Data that wasn't kept isn't kept now.
    ensures no_data { (fs : ℕ) → keeps_data (M.table meta.old) fs ≡ false
        → keeps_data (M.table meta.new) fs ≡ false }
    ensures count { record_count (M.table meta.new) ≡ record_count (M.table meta.old) }
{
    let fileset = meta.fileset(id).unwrap();
    meta.put_fileset(
        id,
        Fileset {
            kind: Kind::Nodata,
            ..fileset
        },
    );
}

/// Whether a checkpoint may be given up where space runs out.
pub fn set_removable<M: Meta>(meta: &mut M, id: u32, on: bool)
    requires live { is_live (M.table meta.old) id ≡ true }
    requires sound { IsSound (M.table meta.old) }
    ensures table { M.table meta.new ≡ with_removable (M.table meta.old) id on }
    ensures sound { IsSound (M.table meta.new) }

    ensures lives { live_ids (M.table meta.new) ≡ live_ids (M.table meta.old) }
    ensures values { (fs : ℕ) (key : Key)
        → value_of (M.table meta.new) fs key ≡ value_of (M.table meta.old) fs key }
    // Every reader sees what it saw.
    ensures kept { (fs : ℕ) (key : Key)
        → seen (M.table meta.new) fs key ≡ seen (M.table meta.old) fs key }
    ensures keeps { (fs : ℕ)
        → keeps_data (M.table meta.new) fs ≡ keeps_data (M.table meta.old) fs }
    ensures count { record_count (M.table meta.new) ≡ record_count (M.table meta.old) }
{
    let fileset = meta.fileset(id).unwrap();
    meta.put_fileset(
        id,
        Fileset {
            removable: on,
            ..fileset
        },
    );
}
