ghost use Rattle.std.specs.Prelude.{◌≡◌};
ghost use Rattle.ck_model.specs.Cells.{Cells};
ghost use Rattle.ck_model.specs.Walk.{entered, walk};
ghost use Rattle.ck_tree.specs.Map.{StandsFor};

use crate::nodes::{is_directory_at, named_at, stands_at};
use ck_model::{Key, Meta, NameBytes, Path, WalkFault};

/// From a node to the one that a name in it names.
fn entered<M: Meta>(meta: &M, fs: u32, node: u32, name: &NameBytes) -> Result<u32, WalkFault>
    ensures { (cells : Cells) → StandsFor (M.table meta.now) fs cells
        → result ≡ entered cells node name.now }
{
    if !stands_at(meta, fs, &Key::Node(node)) {
        return Err(WalkFault::NotFound);
    }
    if !is_directory_at(meta, fs, node) {
        return Err(WalkFault::NotDir);
    }
    named_at(meta, fs, &Key::Name(node, *name)).ok_or(WalkFault::NotFound)
}

/// The node that names lead to from the root.
pub fn walk_names<M: Meta>(meta: &M, fs: u32, names: &[NameBytes]) -> Result<u32, WalkFault>
    ensures { (cells : Cells) → StandsFor (M.table meta.now) fs cells
        → result ≡ walk cells names.now }
{
    let mut node = 0;
    for name in names {
        node = entered(meta, fs, node, name)?;
    }
    if stands_at(meta, fs, &Key::Node(node)) {
        Ok(node)
    } else {
        Err(WalkFault::NotFound)
    }
}

/// The node that a path leads to in a fileset; fileset 0 is the primary.
pub fn walk<M: Meta>(meta: &M, fs: u32, path: &Path) -> Result<u32, WalkFault>
    ensures { (cells : Cells) → StandsFor (M.table meta.now) fs cells
        → result ≡ walk cells path.now }
{
    walk_names(meta, fs, path.items())
}
