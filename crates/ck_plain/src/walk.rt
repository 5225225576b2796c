ghost use Rattle.std.specs.Prelude.{◌≡◌};
ghost use Rattle.std.specs.Option.{option_copied};
ghost use Rattle.ck_model.specs.Cells.{content_at, named_node, is_directory_at};
ghost use Rattle.ck_model.specs.Walk.{entered, walk, node_at, file_at, directory_at, name_at, new_name_at};

use crate::PlainMap;
use ck_model::{Key, NameBytes, Payload, Reply, WalkFault};

/// What a key holds, `None` also where it has no cell.
pub fn content_at<'a>(cells: &'a PlainMap, key: &Key) -> Option<&'a Payload>
    ensures { option_copied result ≡ content_at cells.now key.now }
{
    match cells.get(key) {
        Some(cell) => cell.payload.as_ref(),
        None => None,
    }
}

pub fn is_directory_at(cells: &PlainMap, node: u32) -> bool
    ensures { result ≡ is_directory_at cells.now node }
{
    matches!(content_at(cells, &Key::Node(node)), Some(Payload::Dir))
}

fn named_at(cells: &PlainMap, key: &Key) -> Option<u32>
    ensures { result ≡ named_node (content_at cells.now key.now) }
{
    match content_at(cells, key) {
        Some(Payload::To(node)) => Some(*node),
        _ => None,
    }
}

fn entered(cells: &PlainMap, node: u32, name: &NameBytes) -> Result<u32, WalkFault>
    ensures { result ≡ entered cells.now node name.now }
{
    if !cells.contains_key(&Key::Node(node)) {
        return Err(WalkFault::NotFound);
    }
    if !is_directory_at(cells, node) {
        return Err(WalkFault::NotDir);
    }
    named_at(cells, &Key::Name(node, *name)).ok_or(WalkFault::NotFound)
}

/// The node that names lead to from the root.
pub fn walk(cells: &PlainMap, names: &[NameBytes]) -> Result<u32, WalkFault>
    ensures { result ≡ walk cells.now names.now }
{
    let mut node = 0;
    for name in names {
        node = entered(cells, node, name)?;
    }
    if cells.contains_key(&Key::Node(node)) {
        Ok(node)
    } else {
        Err(WalkFault::NotFound)
    }
}

pub fn node_at(cells: &PlainMap, names: &[NameBytes]) -> Result<u32, Reply>
    ensures { result ≡ node_at cells.now names.now }
{
    match walk(cells, names) {
        Ok(node) => Ok(node),
        Err(WalkFault::NotFound) => Err(Reply::NotFound),
        Err(WalkFault::NotDir) => Err(Reply::NotDir),
    }
}

pub fn file_at(cells: &PlainMap, names: &[NameBytes]) -> Result<u32, Reply>
    ensures { result ≡ file_at cells.now names.now }
{
    let node = node_at(cells, names)?;
    if is_directory_at(cells, node) {
        Err(Reply::IsDir)
    } else {
        Ok(node)
    }
}

pub fn directory_at(cells: &PlainMap, names: &[NameBytes]) -> Result<u32, Reply>
    ensures { result ≡ directory_at cells.now names.now }
{
    let node = node_at(cells, names)?;
    if is_directory_at(cells, node) {
        Ok(node)
    } else {
        Err(Reply::NotDir)
    }
}

/// The key of the last name. The root has none, and is answered with `of_slash`.
pub fn name_at(cells: &PlainMap, of_slash: Reply, names: &[NameBytes]) -> Result<Key, Reply>
    ensures { result ≡ name_at cells.now of_slash names.now }
{
    if names.is_empty() {
        return Err(of_slash);
    }
    let last = names.len() - 1;
    let directory = directory_at(cells, &names[..last])?;
    Ok(Key::Name(directory, names[last]))
}

/// The key of a last name that doesn't stand yet.
pub fn new_name_at(cells: &PlainMap, names: &[NameBytes]) -> Result<Key, Reply>
    ensures { result ≡ new_name_at cells.now names.now }
{
    let key = name_at(cells, Reply::Exists, names)?;
    if cells.contains_key(&key) {
        Err(Reply::Exists)
    } else {
        Ok(key)
    }
}
