ghost use Rattle.std.specs.Prelude.{◌≡◌, ◌≤◌, ◌<◌, ◌^◌, IfOk, min, ◌-◌};
ghost use Rattle.ck_model.specs.Contents.{file_byte, file_range, child_in, children};
ghost use Rattle.ck_model.specs.ReadCalls.{range_read, names_listed, stat_reply, status_of};
ghost use Rattle.ck_model.specs.Limits.{file_limit};
ghost use Rattle.ck_plain.specs.Answered.{reply_of};
ghost use Rattle.ck_plain.specs.Ranges.{IsCountable};

use crate::PlainMap;
use crate::blocks::{byte_at, bytes_of};
use crate::walk::{directory_at, file_at, is_directory_at, node_at};
use crate::writes::size_at;
use ck_model::{BLOCK, Cell, Child, Children, Key, NoMemory, Octets, Path, Payload, Reply};
use std::alloc::Global;

fn file_byte(cells: &PlainMap, node: u32, at: u64) -> u8
    requires { at < 2 ^ 44 }
    ensures { result ≡ file_byte cells.now node at }
{
    byte_at(
        bytes_of(cells, node, (at / BLOCK) as u32),
        (at % BLOCK) as usize,
    )
}

/// The bytes of a file from a place on, so many of them as stand below its size.
fn file_range(
    alloc: Global,
    cells: &PlainMap,
    node: u32,
    at: u64,
    len: u32,
) -> Result<Vec<u8>, NoMemory>
    requires { at ≤ file_limit }
    ensures { IfOk result (λ bytes. bytes.items ≡ file_range cells.now node at len) }
{
    let below = size_at(cells, node).saturating_sub(at).min(u64::from(len));
    let mut bytes = Vec::new(alloc);
    for place in at..at + below {
        bytes.push(file_byte(cells, node, place))?;
    }
    Ok(bytes)
}

/// Reads a file, or says why not.
pub fn range_read(
    alloc: Global,
    cells: &PlainMap,
    path: &Path,
    at: u64,
    len: u32,
) -> Result<Reply, NoMemory>
    requires { at ≤ file_limit }
    ensures { IfOk result (λ reply. reply_of (range_read cells.now path.now at len) ≡ reply) }
{
    match file_at(cells, path.items()) {
        Ok(node) => Ok(Reply::Bytes(Octets::of(file_range(alloc, cells, node, at, len)?))),
        Err(reply) => Ok(reply),
    }
}

/// A name in a directory, and the node that it names.
fn child_in(cells: &PlainMap, directory: u32, entry: &(Key, Cell)) -> Option<Child>
    ensures { result ≡ child_in cells.now directory entry.now }
{
    match (&entry.0, &entry.1.payload) {
        (Key::Name(other, name), Some(Payload::To(node))) if *other == directory => Some(Child {
            name: *name,
            node: *node,
            dir: is_directory_at(cells, *node),
        }),
        _ => None,
    }
}

/// The names in a directory, in the order of their bytes.
fn children(alloc: Global, cells: &PlainMap, directory: u32) -> Result<Vec<Child>, NoMemory>
    ensures { IfOk result (λ names. names.items ≡ children cells.now directory) }
{
    let names = cells
        .entries()
        .iter()
        .filter_map(|entry| child_in(cells, directory, entry))
        .collect(alloc)?;
    Ok(names)
}

/// The names of a directory, or says why not.
pub fn names_listed(alloc: Global, cells: &PlainMap, path: &Path) -> Result<Reply, NoMemory>
    ensures { IfOk result (λ reply. reply_of (names_listed cells.now path.now) ≡ reply) }
{
    match directory_at(cells, path.items()) {
        Ok(node) => Ok(Reply::Names(Children::of(children(alloc, cells, node)?))),
        Err(reply) => Ok(reply),
    }
}

fn stat_reply(alloc: Global, cells: &PlainMap, node: u32) -> Result<Reply, NoMemory>
    requires { IsCountable cells.now }
    ensures { IfOk result (λ reply. reply ≡ stat_reply cells.now node) }
{
    if is_directory_at(cells, node) {
        let names = children(alloc, cells, node)?;
        Ok(Reply::StatDir(node, names.len() as u32))
    } else {
        Ok(Reply::StatFile(node, size_at(cells, node)))
    }
}

/// What a path leads to, or says why it leads nowhere.
pub fn status_of(alloc: Global, cells: &PlainMap, path: &Path) -> Result<Reply, NoMemory>
    requires { IsCountable cells.now }
    ensures { IfOk result (λ reply. reply_of (status_of cells.now path.now) ≡ reply) }
{
    match node_at(cells, path.items()) {
        Ok(node) => stat_reply(alloc, cells, node),
        Err(reply) => Ok(reply),
    }
}
