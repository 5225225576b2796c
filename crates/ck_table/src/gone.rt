ghost use Rattle.std.specs.Prelude.{◌≡◌, ◌≢◌, ◌+◌, ℕ, true, false, not, None, nat_eq, filter};
ghost use Rattle.ck_model.specs.declared.key.Key.{Key};
ghost use Rattle.ck_model.specs.Table.{record_count, column, with_fileset};
ghost use Rattle.ck_model.specs.Chain.{
  is_live,
  is_gone,
  is_live_data,
  keeps_data,
  live_ids,
  value_of,
  seen,
};
ghost use Rattle.ck_model.specs.Rules.{IsSound};
ghost use Rattle.ck_table.specs.Gone.{with_gone};

use ck_model::{Fileset, Meta};

/// A checkpoint leaves the list. Its entries stay for those that read through it.
pub fn mark_gone<M: Meta>(meta: &mut M, id: u32)
    requires live { is_live (M.table meta.old) id ≡ true }
    requires sound { IsSound (M.table meta.old) }
    ensures table { M.table meta.new ≡ with_gone (M.table meta.old) id }
    ensures sound { IsSound (M.table meta.new) }

    ensures lives { live_ids (M.table meta.new)
        ≡ filter (λ other. not (nat_eq other id)) (live_ids (M.table meta.old)) }
    ensures values { (fs : ℕ) (key : Key)
        → value_of (M.table meta.new) fs key ≡ value_of (M.table meta.old) fs key }
    // In a checkpoint that keeps no data of its own, blocks may read as marks from now on.
    ensures kept { (fs : ℕ) (key : Key) → fs ≢ id → is_live_data (M.table meta.old) fs ≡ true
        → seen (M.table meta.new) fs key ≡ seen (M.table meta.old) fs key }
    // Data that wasn't kept isn't kept now.
    ensures no_data { (fs : ℕ) → keeps_data (M.table meta.old) fs ≡ false
        → keeps_data (M.table meta.new) fs ≡ false }
    ensures count { record_count (M.table meta.new) ≡ record_count (M.table meta.old) }
{
    let fileset = meta.fileset(id).unwrap();
    meta.put_fileset(
        id,
        Fileset {
            gone: true,
            ..fileset
        },
    );
}

/// Takes away the record of a checkpoint that is gone and has no entry any more.
pub fn unlink<M: Meta>(meta: &mut M, id: u32)
    requires gone { is_gone (M.table meta.old) id ≡ true }
    requires empty { (key : Key) → column (M.table meta.old) key id ≡ None }
    requires sound { IsSound (M.table meta.old) }
    ensures table { M.table meta.new ≡ with_fileset (M.table meta.old) id None }
    ensures sound { IsSound (M.table meta.new) }

    ensures lives { live_ids (M.table meta.new) ≡ live_ids (M.table meta.old) }
    ensures values { (fs : ℕ) (key : Key)
        → value_of (M.table meta.new) fs key ≡ value_of (M.table meta.old) fs key }
    ensures kept { (fs : ℕ) (key : Key)
        → seen (M.table meta.new) fs key ≡ seen (M.table meta.old) fs key }
    ensures count { record_count (M.table meta.new) + 1 ≡ record_count (M.table meta.old) }
{
    meta.del_fileset(id);
}
