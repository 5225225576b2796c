ghost use Rattle.std.specs.Prelude.{◌≡◌, true, not};
ghost use Rattle.std.specs.FinMap as map;
ghost use Rattle.std.specs.FinMap.{is_sorted};
ghost use Rattle.ck_model.specs.Key.{key_cmp, is_of, is_past};
ghost use Rattle.ck_model.specs.Ordered.{Edits};

use ck_model::{BLOCK, Cell, Key};

fn is_of(node: u32, key: &Key) -> bool
    ensures { result ≡ is_of node key.now }
{
    match key {
        Key::Name(_, _) => false,
        Key::Node(number) => *number == node,
        Key::Block(number, _) => *number == node,
    }
}

fn is_past(node: u32, size: u64, key: &Key) -> bool
    ensures { result ≡ is_past node size key.now }
{
    match key {
        Key::Block(number, index) => *number == node && size <= u64::from(*index) * BLOCK,
        _ => false,
    }
}

/// Keeps what isn't a node or a block of it.
pub fn retain_not_of(entries: &mut Vec<(Key, Cell)>, node: u32)
    requires { is_sorted key_cmp entries.old.items ≡ true }
    ensures { Edits key_cmp entries.new.items (map.retain_keys (map.from_sorted entries.old.items) (λ key. not (is_of node key))) }
{
    entries.retain(|entry| !is_of(node, &entry.0));
}

/// Keeps what isn't a block of a node at a size or behind it.
pub fn retain_not_past(entries: &mut Vec<(Key, Cell)>, node: u32, size: u64)
    requires { is_sorted key_cmp entries.old.items ≡ true }
    ensures { Edits key_cmp entries.new.items (map.retain_keys (map.from_sorted entries.old.items) (λ key. not (is_past node size key))) }
{
    entries.retain(|entry| !is_past(node, size, &entry.0));
}
