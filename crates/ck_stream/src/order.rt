ghost use Rattle.std.specs.Prelude.{◌≡◌, ◌≤◌, length, take};
ghost use Rattle.std.specs.Cmp.Lexicographic.{slice_cmp};
ghost use Rattle.std.specs.Ordering.{nat_cmp};
ghost use Rattle.ck_model.specs.Key.{key_cmp};
ghost use Rattle.ck_stream.specs.SeenKey.{key_seen};

use crate::seen::SeenKey;
use ck_model::Key;
use ck_num::get_u64;
use std::cmp::Ordering;

pub fn compare(a: &Key, b: &Key) -> Ordering
    ensures { result ≡ key_cmp a.now b.now }
{
    a.cmp(b)
}

/// The order of the first eight bytes is that of the numbers that they spell.
fn compare_eight(a: &[u8], b: &[u8]) -> Ordering
    requires a { 8 ≤ length a.now }
    requires b { 8 ≤ length b.now }
    ensures { result ≡ slice_cmp nat_cmp (take 8 a.now) (take 8 b.now) }
{
    get_u64(a, 0).cmp(&get_u64(b, 0))
}

/// Compares eight bytes at a time, where both have so many.
fn compare_bytes(a: &[u8], b: &[u8]) -> Ordering
    ensures { result ≡ slice_cmp nat_cmp a.now b.now }
{
    let mut left = a;
    let mut right = b;
    while left.len() >= 8 && right.len() >= 8 {
        let order = compare_eight(left, right);
        if order.is_ne() {
            return order;
        }
        left = &left[8..];
        right = &right[8..];
    }
    left.cmp(right)
}

/// The same of keys that stand in the bytes.
pub fn compare_seen(a: SeenKey, b: SeenKey) -> Ordering
    ensures { result ≡ key_cmp (key_seen a.entry) (key_seen b.entry) }
{
    match a {
        SeenKey::Name(directory, name) => match b {
            SeenKey::Name(other, other_name) => directory
                .cmp(&other)
                .then_with(|| compare_bytes(name, other_name)),
            SeenKey::Node(_) | SeenKey::Block(_, _) => Ordering::Less,
        },
        SeenKey::Node(node) => match b {
            SeenKey::Name(_, _) => Ordering::Greater,
            SeenKey::Node(other) => node.cmp(&other),
            SeenKey::Block(_, _) => Ordering::Less,
        },
        SeenKey::Block(node, index) => match b {
            SeenKey::Name(_, _) | SeenKey::Node(_) => Ordering::Greater,
            SeenKey::Block(other, other_index) => node.cmp(&other).then(index.cmp(&other_index)),
        },
    }
}
