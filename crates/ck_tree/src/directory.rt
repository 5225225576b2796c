ghost use Rattle.std.specs.Prelude.{◌≡◌, ◌++◌, ◌&&◌, true, is_some, IfSome, OnOk, IfOk, Some};
ghost use Rattle.std.specs.Option.{option_to_list};
ghost use Rattle.ck_model.specs.declared.key.Key.TheVariants.{Name};
ghost use Rattle.ck_model.specs.Cells.{Cells};
ghost use Rattle.ck_model.specs.Chain.{value_at};
ghost use Rattle.ck_model.specs.FileCalls.{has_names};
ghost use Rattle.ck_model.specs.Key.{is_name_in};
ghost use Rattle.ck_model.specs.Contents.{children};
ghost use Rattle.ck_chain.specs.Order.{IsNext};
ghost use Rattle.ck_tree.specs.Directory.{child_at, least_name};
ghost use Rattle.ck_tree.specs.Map.{StandsFor};

use crate::keys::next_key;
use crate::nodes::{is_directory_at, named_at, stands_at};
use ck_model::{Child, Key, Meta, NameBytes, NoMemory};
use std::alloc::Global;

/// No name in the directory is before this one.
fn least_name(node: u32) -> Key
    ensures { result ≡ Name node least_name }
{
    Key::Name(node, NameBytes::read(b"!").unwrap())
}

fn is_name_in(node: u32, key: &Key) -> bool
    ensures { result ≡ is_name_in node key.now }
{
    match key {
        Key::Name(directory, _) => *directory == node,
        _ => false,
    }
}

/// The next name behind this one in a directory at which the fileset may have a value.
fn next_name<M: Meta>(meta: &M, fs: u32, node: u32, name: &Key) -> Option<Key>
    requires { is_name_in node name.now ≡ true }
    ensures next { let t = M.table meta.now in
        IsNext t (λ q. is_name_in node q && is_some (value_at t fs q)) (Some name.now) result }
    ensures name { IfSome result (λ next. is_name_in node next ≡ true) }
{
    let next = next_key(meta, fs, name)?;
    if is_name_in(node, &next) {
        Some(next)
    } else {
        None
    }
}

/// What a name stands for.
fn child_at<M: Meta>(meta: &M, fs: u32, key: &Key) -> Option<Child>
    ensures { (cells : Cells) → StandsFor (M.table meta.now) fs cells
        → result ≡ child_at cells key.now }
{
    match key {
        Key::Name(_, name) => {
            let node = named_at(meta, fs, key)?;
            Some(Child {
                name: *name,
                node,
                dir: is_directory_at(meta, fs, node),
            })
        }
        _ => None,
    }
}

fn add(found: &mut Vec<Child>, child: Option<Child>) -> Result<(), NoMemory>
    ensures { OnOk result (found.new.items ≡ found.old.items ++ option_to_list child) }
{
    if let Some(child) = child {
        found.push(child)?;
    }
    Ok(())
}

/// The names in a directory, in the order of their bytes.
pub fn children<M: Meta>(
    alloc: Global,
    meta: &M,
    fs: u32,
    node: u32,
) -> Result<Vec<Child>, NoMemory>
    ensures { IfOk result (λ found. (cells : Cells) → StandsFor (M.table meta.now) fs cells
        → found.items ≡ children cells node) }
{
    let mut found = Vec::new(alloc);
    let mut here = Some(least_name(node));
    while let Some(name) = here {
        add(&mut found, child_at(meta, fs, &name))?;
        here = next_name(meta, fs, node, &name);
    }
    Ok(found)
}

/// Whether a name stands in a directory, whatever it names.
pub fn has_names<M: Meta>(meta: &M, fs: u32, node: u32) -> bool
    ensures { (cells : Cells) → StandsFor (M.table meta.now) fs cells
        → result ≡ has_names cells node }
{
    let mut here = Some(least_name(node));
    while let Some(name) = here {
        if stands_at(meta, fs, &name) {
            return true;
        }
        here = next_name(meta, fs, node, &name);
    }
    false
}
