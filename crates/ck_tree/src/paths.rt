ghost use Rattle.std.specs.Prelude.{◌≡◌, false, IfErr};
ghost use Rattle.ck_model.specs.Cells.{Cells};
ghost use Rattle.ck_model.specs.History.{is_fault};
ghost use Rattle.ck_model.specs.Walk.{node_at, file_at, directory_at, name_at, new_name_at};
ghost use Rattle.ck_tree.specs.Map.{StandsFor};

use crate::lookup::{find_directory, find_file, find_last, find_new_name, find_node};
use ck_model::{Key, Meta, NameBytes, Reply};

/// The node that a path leads to, or the reply that refuses it.
pub fn node_at<M: Meta>(meta: &M, fs: u32, names: &[NameBytes]) -> Result<u32, Reply>
    ensures value { (cells : Cells) → StandsFor (M.table meta.now) fs cells
        → result ≡ node_at cells names.now }
    ensures ordinary { IfErr result (λ reply. is_fault reply ≡ false) }
{
    Ok(find_node(meta, fs, names)?)
}

/// The file that a path leads to.
pub fn file_at<M: Meta>(meta: &M, fs: u32, names: &[NameBytes]) -> Result<u32, Reply>
    ensures value { (cells : Cells) → StandsFor (M.table meta.now) fs cells
        → result ≡ file_at cells names.now }
    ensures ordinary { IfErr result (λ reply. is_fault reply ≡ false) }
{
    Ok(find_file(meta, fs, names)?)
}

/// The directory that a path leads to.
pub fn directory_at<M: Meta>(meta: &M, fs: u32, names: &[NameBytes]) -> Result<u32, Reply>
    ensures value { (cells : Cells) → StandsFor (M.table meta.now) fs cells
        → result ≡ directory_at cells names.now }
    ensures ordinary { IfErr result (λ reply. is_fault reply ≡ false) }
{
    Ok(find_directory(meta, fs, names)?)
}

/// The key of the last name. The root has none, and is answered with `of_slash`.
pub fn name_at<M: Meta>(
    meta: &M,
    fs: u32,
    of_slash: Reply,
    names: &[NameBytes],
) -> Result<Key, Reply>
    ensures value { (cells : Cells) → StandsFor (M.table meta.now) fs cells
        → result ≡ name_at cells of_slash names.now }
    ensures ordinary { is_fault of_slash ≡ false → IfErr result (λ reply. is_fault reply ≡ false) }
{
    if names.is_empty() {
        return Err(of_slash);
    }
    Ok(find_last(meta, fs, names)?)
}

/// The key of a last name that doesn't stand yet.
pub fn new_name_at<M: Meta>(meta: &M, fs: u32, names: &[NameBytes]) -> Result<Key, Reply>
    ensures value { (cells : Cells) → StandsFor (M.table meta.now) fs cells
        → result ≡ new_name_at cells names.now }
    ensures ordinary { IfErr result (λ reply. is_fault reply ≡ false) }
{
    Ok(find_new_name(meta, fs, names)?)
}
