ghost use Rattle.std.specs.Prelude.{◌≡◌};
ghost use Rattle.std.specs.Option.{option_map};
ghost use Rattle.std.specs.FinMap as map;
ghost use Rattle.ck_model.specs.Cells.{
  Cells,
  content_at,
  named_node,
  is_directory,
  size_in,
  is_directory_at,
  size_at,
};
ghost use Rattle.ck_model.specs.Chain.{value_at};
ghost use Rattle.ck_model.specs.Values.{payload_of};
ghost use Rattle.ck_tree.specs.Map.{small_in, StandsFor};

use crate::value::held_at;
use ck_model::{Held, Key, Meta, Small};

fn small_in(held: Option<Held>) -> Option<Small>
    ensures { result ≡ small_in held }
{
    match held {
        Some(Held::Plain(_, value)) => Some(value),
        _ => None,
    }
}

fn small_at<M: Meta>(meta: &M, fs: u32, key: &Key) -> Option<Small>
    ensures { result ≡ small_in (value_at (M.table meta.now) fs key.now) }
{
    small_in(held_at(meta, fs, key))
}

fn named(small: Option<Small>) -> Option<u32>
    ensures { result ≡ named_node (option_map payload_of small) }
{
    match small {
        Some(Small::To(node)) => Some(node),
        _ => None,
    }
}

fn is_directory(small: Option<Small>) -> bool
    ensures { result ≡ is_directory (option_map payload_of small) }
{
    matches!(small, Some(Small::Dir))
}

fn size_in(small: Option<Small>) -> u64
    ensures { result ≡ size_in (option_map payload_of small) }
{
    match small {
        Some(Small::File(size)) => size,
        _ => 0,
    }
}

/// Whether a key has a cell.
pub fn stands_at<M: Meta>(meta: &M, fs: u32, key: &Key) -> bool
    ensures { (cells : Cells) → StandsFor (M.table meta.now) fs cells
        → result ≡ map.contains_key cells key.now }
{
    held_at(meta, fs, key).is_some()
}

/// The node that the key's cell names.
pub fn named_at<M: Meta>(meta: &M, fs: u32, key: &Key) -> Option<u32>
    ensures { (cells : Cells) → StandsFor (M.table meta.now) fs cells
        → result ≡ named_node (content_at cells key.now) }
{
    named(small_at(meta, fs, key))
}

pub fn is_directory_at<M: Meta>(meta: &M, fs: u32, node: u32) -> bool
    ensures { (cells : Cells) → StandsFor (M.table meta.now) fs cells
        → result ≡ is_directory_at cells node }
{
    is_directory(small_at(meta, fs, &Key::Node(node)))
}

/// The size of a file in bytes, and 0 of anything else.
pub fn size_at<M: Meta>(meta: &M, fs: u32, node: u32) -> u64
    ensures { (cells : Cells) → StandsFor (M.table meta.now) fs cells
        → result ≡ size_at cells node }
{
    size_in(small_at(meta, fs, &Key::Node(node)))
}
