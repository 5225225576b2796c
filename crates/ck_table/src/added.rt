ghost use Rattle.std.specs.Prelude.{◌≡◌, ◌<◌, ◌+◌, ◌++◌, [], ◌∷◌, ℕ, true, IfOk, OnOk, OnErr};
ghost use Rattle.ck_model.specs.declared.checkpoint.Fileset.{Fileset};
ghost use Rattle.ck_model.specs.declared.key.Key.{Key};
ghost use Rattle.ck_model.specs.Held.{IsFileset};
ghost use Rattle.ck_model.specs.Name.{IsCheckpointName};
ghost use Rattle.ck_model.specs.Table.{spare_count, record_count, column};
ghost use Rattle.ck_model.specs.Chain.{is_live, live_ids, seen, value_of, present};
ghost use Rattle.ck_model.specs.Rules.{IsSound};
ghost use Rattle.ck_table.specs.Added.{new_id, new_fileset, with_added};

use crate::lookup::{count_live, find};
use ck_model::{CHECKPOINT_LIMIT, Counters, Fileset, Kind, Meta, NameBytes};

/// The id that no checkpoint has.
const LAST_ID: u32 = 4_294_967_295;

/// Why no checkpoint is added.
#[derive(Clone, Copy, Debug, PartialEq, Eq)]
pub enum AddFault {
    /// One that stands has the name.
    Exists,
    /// So many stand that there is no place for another.
    TooMany,
    /// No id is left.
    Spent,
}

/// The id that a new checkpoint with this name would get, or why there is none.
pub fn new_id<M: Meta>(meta: &M, name: &NameBytes) -> Result<u32, AddFault>
    ensures { result ≡ new_id (M.table meta.now) name.now }
{
    if find(meta, name).is_some() {
        return Err(AddFault::Exists);
    }
    if count_live(meta) >= CHECKPOINT_LIMIT {
        return Err(AddFault::TooMany);
    }
    let id = meta.counters().id;
    if id == LAST_ID {
        return Err(AddFault::Spent);
    }
    Ok(id)
}

/// Sets a record under the next id.
fn enter<M: Meta>(meta: &mut M, fileset: Fileset)
    requires room { 0 < spare_count (M.table meta.old) }
    requires fileset { IsFileset (M.table meta.old).counters.id fileset }
    requires left { (M.table meta.old).counters.id < LAST_ID }
    ensures { M.table meta.new ≡ with_added (M.table meta.old) fileset }
{
    let counters = meta.counters();
    meta.put_fileset(counters.id, fileset);
    meta.set_counters(Counters {
        id: counters.id + 1,
        ..counters
    });
}

/// A new checkpoint, under the next id. It has no entry of its own, so that its contents are the
/// primary's.
pub fn add<M: Meta>(
    meta: &mut M,
    name: &NameBytes,
    kind: Kind,
    removable: bool,
    at: u64,
) -> Result<u32, AddFault>
    requires room { 0 < spare_count (M.table meta.old) }
    requires name { IsCheckpointName name.now }
    requires sound { IsSound (M.table meta.old) }
    ensures result { result ≡ new_id (M.table meta.old) name.now }
    ensures ok { OnOk result (M.table meta.new
        ≡ with_added (M.table meta.old) (new_fileset name.now kind removable at)) }
    ensures err { OnErr result (M.table meta.new ≡ M.table meta.old) }
    ensures sound { IsSound (M.table meta.new) }

    // It is the newest, and stands.
    ensures lives { IfOk result (λ id. live_ids (M.table meta.new)
        ≡ live_ids (M.table meta.old) ++ id ∷ []) }
    // Its contents are the primary's.
    ensures contents { IfOk result (λ id. (key : Key)
        → value_of (M.table meta.new) id key ≡ present (column (M.table meta.old) key 0)) }
    // The others' readers see what they saw.
    ensures kept { (fs : ℕ) (key : Key) → is_live (M.table meta.old) fs ≡ true
        → seen (M.table meta.new) fs key ≡ seen (M.table meta.old) fs key }
    ensures count { OnOk result (record_count (M.table meta.new)
        ≡ record_count (M.table meta.old) + 1) }
{
    let id = new_id(meta, name)?;
    enter(
        meta,
        Fileset {
            name: *name,
            kind,
            removable,
            gone: false,
            ctime: at,
        },
    );
    Ok(id)
}
