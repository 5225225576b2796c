ghost use Rattle.std.specs.Prelude.{◌≡◌, ◌⊎◌, ◌&&◌, is_some, IfSome, IsSome};
ghost use Rattle.std.specs.Option.{option_copied};
ghost use Rattle.std.specs.Ordering.{is_lt};
ghost use Rattle.ck_model.specs.declared.key.Key.{Key};
ghost use Rattle.ck_model.specs.Key.{key_cmp};
ghost use Rattle.ck_model.specs.Table.{column};
ghost use Rattle.ck_model.specs.Chain.{value_of};
ghost use Rattle.ck_chain.specs.Order.{is_before, IsNext};

use ck_model::{Key, Meta};
use std::cmp::Ordering;

fn order(a: &Key, b: &Key) -> Ordering
    ensures { result ≡ key_cmp a.now b.now }
{
    a.cmp(b)
}

fn is_less(a: &Key, b: &Key) -> bool
    ensures { result ≡ is_lt (key_cmp a.now b.now) }
{
    order(a, b).is_lt()
}

/// The lesser of two keys; no key is behind all.
pub fn lesser(a: Option<Key>, b: Option<Key>) -> Option<Key>
    ensures before { (q : Key) → is_before result q ≡ (is_before a q && is_before b q) }
    ensures one { (result ≡ a) ⊎ (result ≡ b) }
{
    match (a, b) {
        (Some(x), Some(y)) => { if is_less(&x, &y) { a } else { b } }
        (Some(_), None) => a,
        (None, _) => b,
    }
}

/// The next key at which the fileset itself holds something.
pub fn next_entry<M: Meta>(meta: &M, fs: u32, after: Option<&Key>) -> Option<Key>
    ensures next { IsNext (M.table meta.now) (λ q. is_some (column (M.table meta.now) q fs))
        (option_copied after.entry) result }
    ensures entry { IfSome result (λ key. IsSome (column (M.table meta.now) key fs)) }
{
    meta.next(fs, after)
}

/// The next key at which the checkpoint, a newer one or the primary holds something.
pub fn next_in_chain<M: Meta>(meta: &M, fs: u32, after: Option<&Key>) -> Option<Key>
    ensures { IsNext (M.table meta.now) (λ q. is_some (value_of (M.table meta.now) fs q))
        (option_copied after.entry) result }
{
    let mut found = next_entry(meta, fs, after);
    let mut at = fs;
    while let Some(id) = meta.next_fileset(at) {
        found = lesser(next_entry(meta, id, after), found);
        at = id;
    }
    lesser(found, next_entry(meta, 0, after))
}
