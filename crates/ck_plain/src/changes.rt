ghost use Rattle.std.specs.Prelude.{◌≡◌, ◌≤◌, ◌<◌, ◌^◌, IfOk, replicate};
ghost use Rattle.std.specs.List.{list_any};
ghost use Rattle.ck_model.specs.Key.{is_name_in};
ghost use Rattle.ck_model.specs.FileCalls.{is_spent, has_names, with_primary, made, removed, removed_directory, moved, overwritten, truncated, IsChanging, changed_by};
ghost use Rattle.ck_model.specs.Limits.{file_limit};
ghost use Rattle.ck_plain.specs.Plain.{world_of};
ghost use Rattle.ck_plain.specs.Ranges.{HasStamps};
ghost use Rattle.ck_plain.specs.Changed.{Answers, with_next};

use crate::names::{renamed, with_node, without_directory, without_file};
use crate::sizes::resized;
use crate::walk::{directory_at, file_at, name_at, new_name_at};
use crate::writes::written;
use crate::{Plain, PlainMap};
use ck_model::{Call, Cell, Counters, FILE_LIMIT, Key, NoMemory, Path, Payload, Reply};

/// The primary map and the numbers after a call that changes files, where there is room.
#[derive(Drop)]
pub struct Next {
    pub primary: PlainMap,
    pub next: Counters,
}

/// What comes next, or the first refusal.
type Changed = Result<Result<Next, Reply>, NoMemory>;

fn is_spent(plain: &Plain) -> bool
    ensures { result ≡ is_spent (world_of plain.now) }
{
    plain.next.stamp == 1 << 63
}

fn has_names(cells: &PlainMap, node: u32) -> bool
    ensures { result ≡ has_names cells.now node }
{
    any_name_in(cells.entries(), node)
}

fn any_name_in(entries: &[(Key, Cell)], node: u32) -> bool
    ensures { result ≡ list_any (λ e. is_name_in node e.0) entries.now }
{
    entries.iter().any(|entry| is_name_in(node, &entry.0))
}

fn is_name_in(node: u32, key: &Key) -> bool
    ensures { result ≡ is_name_in node key.now }
{
    match key {
        Key::Name(directory, _) => *directory == node,
        _ => false,
    }
}

/// These files, and another stamp for the next call.
fn with_primary(plain: &Plain, primary: PlainMap) -> Next
    requires { plain.now.next.stamp < 2 ^ 63 }
    ensures { with_next (world_of plain.now) result ≡ with_primary (world_of plain.now) primary }
{
    let next = Counters {
        stamp: plain.next.stamp + 1,
        ..plain.next
    };
    Next { primary, next }
}

fn made(plain: &Plain, path: &Path, payload: Payload) -> Changed
    requires { HasStamps plain.now.next }
    ensures { IfOk result (Answers (world_of plain.now) (made (world_of plain.now) path.now payload)) }
{
    let name = match new_name_at(&plain.primary, path.items()) {
        Ok(name) => name,
        Err(reply) => return Ok(Err(reply)),
    };
    let Counters { stamp, id, number } = plain.next;
    if is_spent(plain) || number == u32::MAX {
        return Ok(Err(Reply::Spent));
    }
    let primary = with_node(plain.alloc, &plain.primary, stamp, name, number, payload)?;
    let next = Counters {
        stamp: stamp + 1,
        id,
        number: number + 1,
    };
    Ok(Ok(Next { primary, next }))
}

fn removed(plain: &Plain, path: &Path) -> Changed
    requires { HasStamps plain.now.next }
    ensures { IfOk result (Answers (world_of plain.now) (removed (world_of plain.now) path.now)) }
{
    let node = match file_at(&plain.primary, path.items()) {
        Ok(node) => node,
        Err(reply) => return Ok(Err(reply)),
    };
    let name = match name_at(&plain.primary, Reply::IsDir, path.items()) {
        Ok(name) => name,
        Err(reply) => return Ok(Err(reply)),
    };
    if is_spent(plain) {
        return Ok(Err(Reply::Spent));
    }
    let primary = without_file(plain.alloc, &plain.primary, &name, node)?;
    Ok(Ok(with_primary(plain, primary)))
}

fn removed_directory(plain: &Plain, path: &Path) -> Changed
    requires { HasStamps plain.now.next }
    ensures { IfOk result (Answers (world_of plain.now) (removed_directory (world_of plain.now) path.now)) }
{
    let name = match name_at(&plain.primary, Reply::Root, path.items()) {
        Ok(name) => name,
        Err(reply) => return Ok(Err(reply)),
    };
    let node = match directory_at(&plain.primary, path.items()) {
        Ok(node) => node,
        Err(reply) => return Ok(Err(reply)),
    };
    if has_names(&plain.primary, node) {
        return Ok(Err(Reply::NotEmpty));
    }
    if is_spent(plain) {
        return Ok(Err(Reply::Spent));
    }
    let primary = without_directory(plain.alloc, &plain.primary, &name, node)?;
    Ok(Ok(with_primary(plain, primary)))
}

fn moved(plain: &Plain, path: &Path, new_path: &Path) -> Changed
    requires { HasStamps plain.now.next }
    ensures { IfOk result (Answers (world_of plain.now) (moved (world_of plain.now) path.now new_path.now)) }
{
    let node = match file_at(&plain.primary, path.items()) {
        Ok(node) => node,
        Err(reply) => return Ok(Err(reply)),
    };
    let to = match new_name_at(&plain.primary, new_path.items()) {
        Ok(name) => name,
        Err(reply) => return Ok(Err(reply)),
    };
    if is_spent(plain) {
        return Ok(Err(Reply::Spent));
    }
    let from = match name_at(&plain.primary, Reply::IsDir, path.items()) {
        Ok(name) => name,
        Err(reply) => return Ok(Err(reply)),
    };
    let primary = renamed(
        plain.alloc,
        &plain.primary,
        plain.next.stamp,
        &from,
        to,
        node,
    )?;
    Ok(Ok(with_primary(plain, primary)))
}

fn overwritten(plain: &Plain, path: &Path, at: u64, bytes: &[u8]) -> Changed
    requires stamps { HasStamps plain.now.next }
    requires at { at ≤ file_limit }
    ensures { IfOk result (Answers (world_of plain.now) (overwritten (world_of plain.now) path.now at bytes.now)) }
{
    let node = match file_at(&plain.primary, path.items()) {
        Ok(node) => node,
        Err(reply) => return Ok(Err(reply)),
    };
    let end = at + bytes.len() as u64;
    if !bytes.is_empty() && end > FILE_LIMIT {
        return Ok(Err(Reply::TooBig(end, FILE_LIMIT)));
    }
    if is_spent(plain) {
        return Ok(Err(Reply::Spent));
    }
    let primary = written(
        plain.alloc,
        &plain.primary,
        plain.next.stamp,
        node,
        at,
        bytes,
    )?;
    Ok(Ok(with_primary(plain, primary)))
}

fn filled(plain: &Plain, path: &Path, at: u64, len: u32, byte: u8) -> Changed
    requires stamps { HasStamps plain.now.next }
    requires at { at ≤ file_limit }
    ensures { IfOk result (Answers (world_of plain.now) (overwritten (world_of plain.now) path.now at (replicate len byte))) }
{
    let bytes = vec![in plain.alloc; byte; len as usize]?;
    overwritten(plain, path, at, &bytes)
}

fn truncated(plain: &Plain, path: &Path, size: u64) -> Changed
    requires stamps { HasStamps plain.now.next }
    requires size { size ≤ file_limit }
    ensures { IfOk result (Answers (world_of plain.now) (truncated (world_of plain.now) path.now size)) }
{
    let node = match file_at(&plain.primary, path.items()) {
        Ok(node) => node,
        Err(reply) => return Ok(Err(reply)),
    };
    if is_spent(plain) {
        return Ok(Err(Reply::Spent));
    }
    let primary = resized(plain.alloc, &plain.primary, plain.next.stamp, node, size)?;
    Ok(Ok(with_primary(plain, primary)))
}

/// What a call that changes files makes of a world where there is room, or the first refusal.
pub fn changed(plain: &Plain, call: &Call) -> Changed
    requires stamps { HasStamps plain.now.next }
    requires call { IsChanging call.now }
    ensures { IfOk result (Answers (world_of plain.now) (changed_by (world_of plain.now) call.now)) }
{
    match call {
        Call::Make(path) => made(plain, path, Payload::File(0)),
        Call::Mkdir(path) => made(plain, path, Payload::Dir),
        Call::Rm(path) => removed(plain, path),
        Call::Rmdir(path) => removed_directory(plain, path),
        Call::Mv(path, new_path) => moved(plain, path, new_path),
        Call::Write(path, at, bytes) => overwritten(plain, path, *at, bytes.items()),
        Call::Fill(path, at, len, byte) => filled(plain, path, *at, *len, *byte),
        Call::Trunc(path, size) => truncated(plain, path, *size),
        _ => unreachable!(),
    }
}
