ghost use Rattle.std.specs.Prelude.{◌≡◌, ◌≤◌, ◌↔◌, ℕ, IsSome, None, Some, true};
ghost use Rattle.std.specs.Option.{option_map};
ghost use Rattle.ck_model.specs.declared.key.Key.{Key};
ghost use Rattle.ck_model.specs.declared.held.Held.TheVariants.{Absent, Extent};
ghost use Rattle.ck_model.specs.Table.{column, newer, record_count};
ghost use Rattle.ck_model.specs.Chain.{is_gone, is_live, seen};
ghost use Rattle.ck_model.specs.Rules.{first_holder, IsNeeded, IsOrderly};
ghost use Rattle.ck_chain.specs.Needless.{is_needless, says_nothing, tidied, SaysSame};

use ck_model::{Held, Key, Meta};

fn is_gone<M: Meta>(meta: &M, fs: u32) -> bool
    ensures { result ≡ is_gone (M.table meta.now) fs }
{
    meta.fileset(fs).is_some_and(|fileset| fileset.gone)
}

// Whether a fileset with this entry says that there is no cell, and isn't gone.
fn says_nothing<M: Meta>(meta: &M, fs: u32, held: Option<Held>) -> bool
    ensures { result
        ≡ says_nothing (M.table meta.now) (option_map (λ entry. (fs, entry)) held) }
{
    match held {
        None => true,
        Some(Held::Absent) => !is_gone(meta, fs),
        Some(_) => false,
    }
}

// Whether the first of the newer filesets with an entry at the key says nothing.
fn newer_say_nothing<M: Meta>(meta: &M, fs: u32, key: &Key) -> bool
    ensures { let t = M.table meta.now in
        result ≡ says_nothing t (first_holder (column t key.now) (newer t fs)) }
{
    let mut at = fs;
    while let Some(id) = meta.next_fileset(at) {
        let held = meta.get(id, key);
        if held.is_some() {
            return says_nothing(meta, id, held);
        }
        at = id;
    }
    says_nothing(meta, 0, meta.get(0, key))
}

fn is_needless<M: Meta>(meta: &M, fs: u32, key: &Key) -> bool
    ensures { result ≡ is_needless (M.table meta.now) fs key.now }
{
    meta.get(fs, key) == Some(Held::Absent) && newer_say_nothing(meta, fs, key)
}

/// Deletes the entry of a checkpoint that isn't gone, where the newer filesets say the same and the
/// first of them that says it isn't gone either.
pub fn tidy<M: Meta>(meta: &mut M, fs: u32, key: &Key)
    requires live { is_live (M.table meta.old) fs ≡ true }
    requires orderly { IsOrderly (M.table meta.old) }
    ensures tidied { M.table meta.new ≡ tidied (M.table meta.old) fs key.now }
    ensures goes { IsSome (column (M.table meta.old) key.now fs) →
        (column (M.table meta.new) key.now fs ≡ None) ↔ SaysSame (M.table meta.old) fs key.now }
    ensures filesets { (M.table meta.new).filesets ≡ (M.table meta.old).filesets }
    ensures counters { (M.table meta.new).counters ≡ (M.table meta.old).counters }
    ensures blocks { (M.table meta.new).blocks ≡ (M.table meta.old).blocks }
    ensures limit { (M.table meta.new).records ≡ (M.table meta.old).records }
    ensures records { record_count (M.table meta.new) ≤ record_count (M.table meta.old) }
    ensures primary { (q : Key) → column (M.table meta.new) q 0 ≡ column (M.table meta.old) q 0 }
    ensures extents { (at : ℕ) (q : Key) (stamp block : ℕ) →
        (column (M.table meta.new) q at ≡ Some (Extent stamp block))
        ↔ (column (M.table meta.old) q at ≡ Some (Extent stamp block)) }
    // What every reader of a checkpoint that isn't gone sees stays.
    ensures kept { (at : ℕ) (q : Key) → is_live (M.table meta.old) at ≡ true →
        seen (M.table meta.new) at q ≡ seen (M.table meta.old) at q }
    ensures orderly { IsOrderly (M.table meta.new) }
    // The absents that were needed still are, and so is one that is left here.
    ensures needed { (at : ℕ) (q : Key) → IsNeeded (M.table meta.old) q at →
        IsNeeded (M.table meta.new) q at }
    ensures here { column (M.table meta.new) key.now fs ≡ Some Absent →
        IsNeeded (M.table meta.new) key.now fs }
{
    if is_needless(meta, fs, key) {
        meta.del(fs, key);
    }
}
