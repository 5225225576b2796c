ghost use Rattle.std.specs.Prelude.{◌≡◌, ◌<◌, false, IfErr, length};
ghost use Rattle.ck_model.specs.declared.reply.Reply.{Reply};
ghost use Rattle.ck_model.specs.Cells.{Cells};
ghost use Rattle.ck_model.specs.History.{is_fault};
ghost use Rattle.ck_model.specs.Walk.{node_at, file_at, directory_at, name_at, new_name_at};
ghost use Rattle.ck_tree.specs.Faults.{reply_of, replied};
ghost use Rattle.ck_tree.specs.Map.{StandsFor};

use crate::fault::TreeFault;
use crate::nodes::{is_directory_at, stands_at};
use crate::walks::walk_names;
use ck_model::{Key, Meta, NameBytes};

/// The node that a path leads to.
pub fn find_node<M: Meta>(meta: &M, fs: u32, names: &[NameBytes]) -> Result<u32, TreeFault>
    ensures value { (cells : Cells) → StandsFor (M.table meta.now) fs cells
        → replied result ≡ node_at cells names.now }
    ensures ordinary { IfErr result (λ fault. is_fault (reply_of fault) ≡ false) }
{
    Ok(walk_names(meta, fs, names)?)
}

/// The file that a path leads to.
pub fn find_file<M: Meta>(meta: &M, fs: u32, names: &[NameBytes]) -> Result<u32, TreeFault>
    ensures value { (cells : Cells) → StandsFor (M.table meta.now) fs cells
        → replied result ≡ file_at cells names.now }
    ensures ordinary { IfErr result (λ fault. is_fault (reply_of fault) ≡ false) }
{
    let node = find_node(meta, fs, names)?;
    if is_directory_at(meta, fs, node) {
        Err(TreeFault::IsDir)
    } else {
        Ok(node)
    }
}

/// The directory that a path leads to.
pub fn find_directory<M: Meta>(meta: &M, fs: u32, names: &[NameBytes]) -> Result<u32, TreeFault>
    ensures value { (cells : Cells) → StandsFor (M.table meta.now) fs cells
        → replied result ≡ directory_at cells names.now }
    ensures ordinary { IfErr result (λ fault. is_fault (reply_of fault) ≡ false) }
{
    let node = find_node(meta, fs, names)?;
    if is_directory_at(meta, fs, node) {
        Ok(node)
    } else {
        Err(TreeFault::NotDir)
    }
}

/// The key of the last name, of a path that isn't the root.
pub fn find_last<M: Meta>(meta: &M, fs: u32, names: &[NameBytes]) -> Result<Key, TreeFault>
    requires { 0 < length names.now }
    ensures value { (cells : Cells) (of_slash : Reply) → StandsFor (M.table meta.now) fs cells
        → replied result ≡ name_at cells of_slash names.now }
    ensures ordinary { IfErr result (λ fault. is_fault (reply_of fault) ≡ false) }
{
    let last = names.len() - 1;
    let directory = find_directory(meta, fs, &names[..last])?;
    Ok(Key::Name(directory, names[last]))
}

/// The key of the last name. The root has none, and is answered with `of_slash`.
pub fn find_name<M: Meta>(
    meta: &M,
    fs: u32,
    of_slash: TreeFault,
    names: &[NameBytes],
) -> Result<Key, TreeFault>
    ensures { (cells : Cells) → StandsFor (M.table meta.now) fs cells
        → replied result ≡ name_at cells (reply_of of_slash) names.now }
{
    if names.is_empty() {
        Err(of_slash)
    } else {
        find_last(meta, fs, names)
    }
}

/// The key of a last name that doesn't stand yet.
pub fn find_new_name<M: Meta>(meta: &M, fs: u32, names: &[NameBytes]) -> Result<Key, TreeFault>
    ensures value { (cells : Cells) → StandsFor (M.table meta.now) fs cells
        → replied result ≡ new_name_at cells names.now }
    ensures ordinary { IfErr result (λ fault. is_fault (reply_of fault) ≡ false) }
{
    if names.is_empty() {
        return Err(TreeFault::Exists);
    }
    let key = find_last(meta, fs, names)?;
    if stands_at(meta, fs, &key) {
        Err(TreeFault::Exists)
    } else {
        Ok(key)
    }
}
