ghost use Rattle.std.specs.Prelude.{◌≡◌, false, IfOk};
ghost use Rattle.ck_model.specs.Cells.{Cells};
ghost use Rattle.ck_model.specs.History.{is_fault};
ghost use Rattle.ck_model.specs.ReadCalls.{checkpoint_names, names_listed, stat_reply, status_of};
ghost use Rattle.ck_model.specs.TableWorld.{values_of, world_on};
ghost use Rattle.ck_model.specs.Step.{answered};
ghost use Rattle.ck_model.specs.Values.{Store, cells_on};
ghost use Rattle.ck_model.specs.World.{Mounts, World};
ghost use Rattle.ck_tree.specs.Map.{StandsFor};
ghost use Rattle.ck_files.specs.Files.{IsOurs};
ghost use Rattle.ck_files.specs.Room.{answered_with};

use crate::mounts::mounted_at;
use ck_model::{Children, Meta, Mounts, NoMemory, Path, Reply};
use ck_tree::{children, directory_at, is_directory_at, node_at, size_at};
use std::alloc::Global;

fn names_in<M: Meta>(alloc: Global, meta: &M, fs: u32, path: &Path) -> Result<Reply, NoMemory>
    ensures reply { IfOk result (λ reply. (cells : Cells) (w : World) → StandsFor (M.table meta.now) fs cells →
        answered w (names_listed cells path.now) ≡ answered_with reply w) }
    ensures ordinary { IfOk result (λ reply. is_fault reply ≡ false) }
{
    match directory_at(meta, fs, path.items()) {
        Ok(node) => {
            let found = children(alloc, meta, fs, node)?;
            Ok(Reply::Names(Children::of(found)))
        }
        Err(reply) => Ok(reply),
    }
}

/// The names in a directory, or why not.
pub fn ls<M: Meta>(alloc: Global, meta: &M, path: &Path) -> Result<Reply, NoMemory>
    requires { IsOurs (M.table meta.now) }
    ensures reply { IfOk result (λ reply. (store : Store) (mounts : Mounts) →
        let w = world_on store mounts (M.table meta.now) in
        answered w (names_listed w.primary path.now) ≡ answered_with reply w) }
    ensures ordinary { IfOk result (λ reply. is_fault reply ≡ false) }
{
    names_in(alloc, meta, 0, path)
}

/// The names in a directory of a mounted checkpoint, or why not.
pub fn cls<M: Meta>(
    alloc: Global,
    meta: &M,
    mounts: &Mounts,
    actor: u32,
    letter: u8,
    path: &Path,
) -> Result<Reply, NoMemory>
    requires { IsOurs (M.table meta.now) }
    ensures reply { IfOk result (λ reply. (store : Store) →
        let w = world_on store mounts.now (M.table meta.now) in
        answered w (checkpoint_names w actor letter path.now) ≡ answered_with reply w) }
    ensures ordinary { IfOk result (λ reply. is_fault reply ≡ false) }
{
    match mounted_at(meta, mounts, actor, letter) {
        Ok(id) => names_in(alloc, meta, id, path),
        Err(reply) => Ok(reply),
    }
}

/// A file and its size, or a directory and how many names it has.
fn status<M: Meta>(alloc: Global, meta: &M, node: u32) -> Result<Reply, NoMemory>
    requires { IsOurs (M.table meta.now) }
    ensures reply { IfOk result (λ reply. (store : Store) →
        reply ≡ stat_reply (cells_on store (values_of (M.table meta.now) 0)) node) }
    ensures ordinary { IfOk result (λ reply. is_fault reply ≡ false) }
{
    if is_directory_at(meta, 0, node) {
        let found = children(alloc, meta, 0, node)?;
        Ok(Reply::StatDir(node, found.len() as u32))
    } else {
        Ok(Reply::StatFile(node, size_at(meta, 0, node)))
    }
}

/// What a path leads to: a file and its size, or a directory and how many names it has.
pub fn stat<M: Meta>(alloc: Global, meta: &M, path: &Path) -> Result<Reply, NoMemory>
    requires { IsOurs (M.table meta.now) }
    ensures reply { IfOk result (λ reply. (store : Store) (mounts : Mounts) →
        let w = world_on store mounts (M.table meta.now) in
        answered w (status_of w.primary path.now) ≡ answered_with reply w) }
    ensures ordinary { IfOk result (λ reply. is_fault reply ≡ false) }
{
    match node_at(meta, 0, path.items()) {
        Ok(node) => status(alloc, meta, node),
        Err(reply) => Ok(reply),
    }
}
