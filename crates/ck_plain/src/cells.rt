ghost use Rattle.std.specs.Prelude.{◌≡◌, true, not, OnOk, OnErr, IfOk, IsTrue};
ghost use Rattle.std.specs.Option.{option_copied};
ghost use Rattle.std.specs.FinMap as map;
ghost use Rattle.std.specs.FinMap.{is_sorted};
ghost use Rattle.ck_model.specs.Key.{key_cmp, is_of, is_past};
ghost use Rattle.ck_model.specs.Cells.{marked};
ghost use Rattle.ck_model.specs.Ordered.{Edits};

use crate::marks::mark_blocks;
use crate::ordered::search;
use crate::retain::{retain_not_of, retain_not_past};
use ck_model::{Cell, Key, NoMemory};
use std::alloc::Global;
use std::marker::Model;

/// A map from keys to cells, as a list in the order of the keys.
#[derive(Drop)]
pub struct PlainMap {
    entries: Vec<(Key, Cell)>,
}

impl Model for PlainMap {
    ghost use Rattle.std.specs.Prelude.{◌≡◌, true};
    ghost use Rattle.std.specs.FinMap as map;
    ghost use Rattle.std.specs.FinMap.{is_sorted};
    ghost use Rattle.ck_model.specs.Key.{key_cmp};
    ghost use Rattle.ck_model.specs.Cells.{Cells};
    ghost use Rattle.ck_model.specs.contracts.key.Key as key_row;
    ghost use Rattle.ck_model.specs.contracts.cell.Cell as cell_row;

    ghost Value = { Cells };

    ghost coded = { map.code key_row.the_row.coded cell_row.the_row.coded };

    ghost view = { λ plain. map.from_sorted plain.entries.items };

    ghost invariant = { λ plain. is_sorted key_cmp plain.entries.items ≡ true };
}

fn look<'a>(entries: &'a [(Key, Cell)], key: &Key) -> Option<&'a Cell>
    requires { is_sorted key_cmp entries.now ≡ true }
    ensures { option_copied result ≡ map.get (map.from_sorted {R = key_cmp} entries.now) key.now }
{
    match search(entries, key) {
        Ok(at) => Some(&entries[at].1),
        Err(_) => None,
    }
}

fn put_entry(entries: &mut Vec<(Key, Cell)>, key: Key, cell: Cell) -> Result<(), NoMemory>
    requires { is_sorted key_cmp entries.old.items ≡ true }
    ensures ok { OnOk result (Edits key_cmp entries.new.items (map.insert (map.from_sorted entries.old.items) key cell)) }
    ensures err { OnErr result (entries.new.items ≡ entries.old.items) }
{
    match search(entries, &key) {
        Ok(at) => {
            entries[at].1 = cell;
            Ok(())
        }
        Err(at) => {
            entries.insert(at, (key, cell))?;
            Ok(())
        }
    }
}

fn remove_entry(entries: &mut Vec<(Key, Cell)>, key: &Key)
    requires { is_sorted key_cmp entries.old.items ≡ true }
    ensures { Edits key_cmp entries.new.items (map.remove (map.from_sorted entries.old.items) key.now) }
{
    if let Ok(at) = search(entries, key) {
        entries.remove(at);
    }
}

fn copied(alloc: Global, entries: &[(Key, Cell)]) -> Result<Vec<(Key, Cell)>, NoMemory>
    ensures { IfOk result (λ copy. copy.items ≡ entries.now) }
{
    let mut copy = Vec::with_capacity(alloc, entries.len())?;
    for (key, cell) in entries {
        copy.push((*key, cell.clone()?))?;
    }
    Ok(copy)
}

impl PlainMap {
    pub fn new(alloc: Global) -> PlainMap
        ensures { result ≡ map.empty }
    {
        PlainMap {
            entries: Vec::new(alloc),
        }
    }

    pub fn len(&self) -> usize
        ensures { result ≡ map.len self.now }
    {
        self.entries().len()
    }

    /// In the order of the keys.
    pub fn entries(&self) -> &[(Key, Cell)]
        ensures { result.now ≡ map.entries self.now }
    {
        &self.entries
    }

    pub fn get(&self, key: &Key) -> Option<&Cell>
        ensures { option_copied result ≡ map.get self.now key.now }
    {
        look(&self.entries, key)
    }

    pub fn contains_key(&self, key: &Key) -> bool
        ensures { result ≡ map.contains_key self.now key.now }
    {
        self.get(key).is_some()
    }

    /// Sets what a key holds. A refusal changes nothing.
    pub fn put(&mut self, key: Key, cell: Cell) -> Result<(), NoMemory>
        ensures ok { OnOk result (self.new ≡ map.insert self.old key cell) }
        ensures err { OnErr result (self.new ≡ self.old) }
    {
        put_entry(&mut self.entries, key, cell)
    }

    pub fn remove(&mut self, key: &Key)
        ensures { self.new ≡ map.remove self.old key.now }
    {
        remove_entry(&mut self.entries, key);
    }

    /// Makes each block a mark.
    pub fn mark(&mut self)
        ensures { self.new ≡ marked self.old }
    {
        mark_blocks(&mut self.entries);
    }

    /// Keeps what isn't a node or a block of it.
    pub fn retain_not_of(&mut self, node: u32)
        ensures { self.new ≡ map.retain_keys self.old (λ key. not (is_of node key)) }
    {
        retain_not_of(&mut self.entries, node);
    }

    /// Keeps what isn't a block of a node at a size or behind it.
    pub fn retain_not_past(&mut self, node: u32, size: u64)
        ensures { self.new ≡ map.retain_keys self.old (λ key. not (is_past node size key)) }
    {
        retain_not_past(&mut self.entries, node, size);
    }

    pub fn copy(&self, alloc: Global) -> Result<PlainMap, NoMemory>
        ensures { IfOk result (λ copy. copy ≡ self.now) }
    {
        Ok(PlainMap {
            entries: copied(alloc, &self.entries)?,
        })
    }
}
