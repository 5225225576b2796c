ghost use Rattle.std.specs.Prelude.{◌≡◌, ◌⊎◌, ◌<◌, IsSome, IfSome, MatchOption, Some, None, [], ◌∷◌};
ghost use Rattle.std.specs.Option.{option_copied};
ghost use Rattle.std.specs.FinMap as map;
ghost use Rattle.ck_model.specs.Held.{IsEntry, IsFileset, IsCounters};
ghost use Rattle.ck_model.specs.Table.{
  spare_count,
  column,
  newer,
  keys_after,
  with_entry,
  with_fileset,
  with_counters,
};

use crate::{Counters, Fileset, Held, Key};

/// The table of a volume, however it is kept: what each fileset holds at which keys, the
/// checkpoints' own records, and the counters. Fileset 0 is the primary.
///
/// No call changes how many data blocks and records the volume has, and none takes memory.
pub trait Meta {
    ghost use Rattle.ck_model.specs.Table.{Table, IsTable, IsSized};

    ghost table: { Self → Table };

    /// What the fileset itself holds at the key.
    fn get(&self, fs: u32, key: &Key) -> Option<Held>
        ensures { result ≡ column (table self.now) key.now fs };

    /// The least key after this one at which the fileset holds something, or the least of all.
    fn next(&self, fs: u32, after: Option<&Key>) -> Option<Key>
        ensures { MatchOption result
            (keys_after (table self.now) fs (option_copied after.entry) ≡ [])
            (λ key. keys_after (table self.now) fs (option_copied after.entry)
            ≡ key ∷ keys_after (table self.now) fs (Some key)) };

    /// Sets what the fileset holds at the key.
    fn put(&mut self, fs: u32, key: &Key, held: Held)
        requires room { IsSome (column (table self.old) key.now fs)
            ⊎ (0 < spare_count (table self.old)) }
        requires entry { IsEntry key.now held }
        ensures { table self.new ≡ with_entry (table self.old) fs key.now (Some held) };

    /// Takes away what the fileset holds at the key, if there is anything.
    fn del(&mut self, fs: u32, key: &Key)
        ensures { table self.new ≡ with_entry (table self.old) fs key.now None };

    /// The record of the checkpoint with this id, also of one that is gone.
    fn fileset(&self, id: u32) -> Option<Fileset>
        ensures { result ≡ map.get (table self.now).filesets id };

    /// The least id of a checkpoint above this number, gone ones too.
    fn next_fileset(&self, after: u32) -> Option<u32>
        ensures next { MatchOption result (newer (table self.now) after ≡ [])
            (λ id. newer (table self.now) after ≡ id ∷ newer (table self.now) id) }
        ensures above { IfSome result (λ id. after < id) };

    /// Sets the record of the checkpoint with this id.
    fn put_fileset(&mut self, id: u32, fileset: Fileset)
        requires room { IsSome (map.get (table self.old).filesets id)
            ⊎ (0 < spare_count (table self.old)) }
        requires fileset { IsFileset id fileset }
        ensures { table self.new ≡ with_fileset (table self.old) id (Some fileset) };

    /// Takes away the record of the checkpoint with this id, if there is one. Its entries stay.
    fn del_fileset(&mut self, id: u32)
        ensures { table self.new ≡ with_fileset (table self.old) id None };

    fn counters(&self) -> Counters
        ensures { result ≡ (table self.now).counters };

    fn set_counters(&mut self, counters: Counters)
        requires { IsCounters counters }
        ensures { table self.new ≡ with_counters (table self.old) counters };

    /// How many more entries and checkpoints' records there is room for.
    fn spare(&self) -> u32
        ensures { result ≡ spare_count (table self.now) };

    // Each record is within its limits.
    ghost lawful: { (m : Self) → IsTable (table m) };

    // The records fit.
    ghost sized: { (m : Self) → IsSized (table m) };
}
