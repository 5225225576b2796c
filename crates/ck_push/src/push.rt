ghost use Rattle.std.specs.Prelude.{◌≡◌, ◌≢◌, ◌⊎◌, ◌+◌, ◌≤◌, ◌<◌, IfSome, IsSome, MatchOption, is_some, not, true, None};
ghost use Rattle.ck_model.specs.Held.{IsEntry};
ghost use Rattle.ck_model.specs.Table.{column, spare_count};
ghost use Rattle.ck_model.specs.Chain.{is_live};
ghost use Rattle.ck_model.specs.Rules.{IsOrderly};
ghost use Rattle.ck_chain.specs.Kept.{pushed};
ghost use Rattle.ck_chain.specs.Named.{block_of};
ghost use Rattle.ck_chain.specs.Changes.{key_of, value_after};
ghost use Rattle.ck_push.specs.Changed.{push_into, replaced, tidied_in, with_push};
ghost use Rattle.ck_push.specs.Growth.{one_if};
ghost use Rattle.ck_push.specs.Released.{released};

use ck_chain::{is_covered, keeps, tidy};
use ck_model::{Change, Freed, Held, Key, Meta};

pub fn key_of(item: &Change) -> Key
    ensures { result ≡ key_of item.now }
{
    match *item {
        Change::Put(key, _) => key,
        Change::Write(number, index, _) => Key::Block(number, index),
        Change::Del(key) => key,
    }
}

/// What the primary holds at the change's key afterwards.
pub fn value_after(item: &Change, stamp: u64) -> Option<Held>
    ensures { result ≡ value_after item.now stamp }
{
    match *item {
        Change::Put(_, small) => Some(Held::Plain(stamp, small)),
        Change::Write(_, _, block) => Some(Held::Extent(stamp, block)),
        Change::Del(_) => None,
    }
}

// What a checkpoint gets for the primary's entry.
fn pushed(keeps: bool, old: Option<Held>) -> Held
    ensures { result ≡ pushed keeps old }
{
    match old {
        None => Held::Absent,
        Some(Held::Extent(stamp, _)) if !keeps => Held::Mark(stamp),
        Some(held) => held,
    }
}

/// Which checkpoint gets the primary's entry, and as what.
pub fn push_into<M: Meta>(meta: &M, key: &Key, newest: Option<u32>) -> Option<(u32, Held)>
    ensures { result ≡ push_into (M.table meta.now) key.now newest }
{
    let fs = newest?;
    if is_covered(meta, fs, key) {
        return None;
    }
    Some((fs, pushed(keeps(meta, fs), meta.get(0, key))))
}

fn block_of(held: Option<Held>) -> Option<u32>
    ensures { result ≡ block_of held }
{
    match held {
        Some(Held::Extent(_, block)) => Some(block),
        _ => None,
    }
}

/// The block that nothing names any more, as the primary's entry is replaced.
pub fn released(old: Option<Held>, push: Option<(u32, Held)>) -> Freed
    ensures { result.block ≡ released old push }
{
    let kept = block_of(push.map(|(_, held)| held));
    Freed {
        block: if kept.is_some() { None } else { block_of(old) },
    }
}

// Puts what is pushed into its checkpoint.
fn push<M: Meta>(meta: &mut M, key: &Key, push: Option<(u32, Held)>)
    requires room { IfSome push (λ entry. 0 < spare_count (M.table meta.old)) }
    requires entry { IfSome push (λ entry. IsEntry key.now entry.1) }
    ensures { let t = M.table meta.old in
        M.table meta.new ≡ record t { entries = with_push t.entries key.now push } }
{
    if let Some((fs, held)) = push {
        meta.put(fs, key, held);
    }
}

/// Pushes what is pushed, and sets what the primary holds. A deletion takes the primary's entry away
/// first, so that its record is free for what is pushed.
pub fn replace<M: Meta>(meta: &mut M, key: &Key, entry: Option<(u32, Held)>, new: Option<Held>)
    requires checkpoint { IfSome entry (λ entry. entry.0 ≢ 0) }
    requires pushed { IfSome entry (λ entry. IsEntry key.now entry.1) }
    requires new { IfSome new (λ held. IsEntry key.now held) }
    requires room { let t = M.table meta.old in
        MatchOption new (IsSome (column t key.now 0))
        (λ held. one_if (is_some entry) + one_if (not (is_some (column t key.now 0)))
        ≤ spare_count t) }
    ensures { M.table meta.new ≡ replaced (M.table meta.old) key.now entry new }
{
    match new {
        Some(held) => {
            push(meta, key, entry);
            meta.put(0, key, held);
        }
        None => {
            meta.del(0, key);
            push(meta, key, entry);
        }
    }
}

/// Tidies the newest checkpoint at the key.
pub fn tidy_newest<M: Meta>(meta: &mut M, key: &Key, newest: Option<u32>)
    requires live { IfSome newest (λ fs. is_live (M.table meta.old) fs ≡ true) }
    requires orderly { IsOrderly (M.table meta.old) }
    ensures { M.table meta.new ≡ tidied_in (M.table meta.old) key.now newest }
{
    if let Some(fs) = newest {
        tidy(meta, fs, key);
    }
}
