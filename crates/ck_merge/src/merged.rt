ghost use Rattle.std.specs.Prelude.{◌≡◌, ◌≢◌, ◌++◌, ◌<◌, ◌^◌, IfOk, IfErr, OnOk, Err, Some, cond};
ghost use Rattle.std.specs.List.{AllByRecursion};
ghost use Rattle.std.specs.Ordering.{eq_by_cmp};
ghost use Rattle.std.specs.BTreeMap.{btree_map_len};
ghost use Rattle.ck_model.specs.declared.key.Key.{Key};
ghost use Rattle.ck_model.specs.Key.{key_cmp};
ghost use Rattle.ck_stream.specs.Right.{IsItem, AreItems, IsChanged, change_of, changes};
ghost use Rattle.ck_merge.specs.declared.fault.MergeFault.TheVariants as faults;
ghost use Rattle.ck_merge.specs.Merged.{merged, record_of, records, change_at};

use crate::MergeFault;
use ck_model::{Key, NoMemory, Payload};
use ck_stream::{Changed, Item, Items};
use std::alloc::Global;
use std::collections::BTreeMap;
use std::marker::Model;

/// A changed stream whose records stand by their keys, so that many streams are merged in little time
/// however many records they have.
#[derive(Drop)]
pub struct Merged {
    from: u32,
    to: u32,
    /// What each key has from then on. `None` stands for nothing any more.
    items: BTreeMap<Key, Option<Payload>>,
}

impl Model for Merged {
    ghost use Rattle.ck_stream.specs.declared.stream.Changed.{Changed};

    ghost Value = { Changed };

    ghost use Rattle.ck_merge.specs.Merged.{records};

    ghost view = { λ merged. record { from = merged.from; to = merged.to; items = records merged.items.entries } };
}

impl Merged {
    pub fn of(alloc: Global, changed: Changed) -> Result<Merged, NoMemory>
        requires { IsChanged changed }
        ensures { IfOk result (λ merged. merged ≡ changed) }
    {
        let mut items = BTreeMap::new(alloc);
        set_all(&mut items, changed.items.into_vec())?;
        Ok(Merged {
            from: changed.from,
            to: changed.to,
            items,
        })
    }

    /// What it is with these changes, which begin where it ends.
    fn later(self, next: Changed) -> Result<Merged, NoMemory>
        requires first { IsChanged self }
        requires next { IsChanged next }
        requires adjacent { self.to ≡ next.from }
        ensures right { IfOk result IsChanged }
        ensures from { IfOk result (λ both. both.from ≡ self.from) }
        ensures to { IfOk result (λ both. both.to ≡ next.to) }
        ensures items { IfOk result (λ both. changes both.items
            ≡ merged (changes self.items) (changes next.items)) }
    {
        let mut items = self.items;
        set_all(&mut items, next.items.into_vec())?;
        Ok(Merged {
            from: self.from,
            to: next.to,
            items,
        })
    }

    /// The changes of both, of which the second ones begin where the first ones end. The first ones are
    /// dropped where this isn't possible.
    pub fn merge(self, next: Changed) -> Result<Merged, MergeFault>
        requires first { IsChanged self }
        requires next { IsChanged next }
        ensures right { IfOk result IsChanged }
        ensures from { IfOk result (λ both. both.from ≡ self.from) }
        ensures to { IfOk result (λ both. both.to ≡ next.to) }
        ensures items { IfOk result (λ both. changes both.items
            ≡ merged (changes self.items) (changes next.items)) }
        // Where the second ones don't begin there, both ids are told.
        ensures not_adjacent { self.to ≢ next.from
            → result ≡ Err (faults.NotAdjacent self.to next.from) }
        // Where they do, only memory may be wanting.
        ensures adjacent { self.to ≡ next.from → IfErr result (λ fault. fault ≡ faults.NoMemory) }
    {
        adjacent(self.to, &next)?;
        Ok(self.later(next)?)
    }

    pub fn into_changed(self, alloc: Global) -> Result<Changed, NoMemory>
        ensures { IfOk result (λ changed. changed ≡ self) }
    {
        let Merged { from, to, items } = self;
        let mut records = Vec::with_capacity(alloc, items.len())?;
        put_all(&mut records, items)?;
        Ok(Changed {
            from,
            to,
            items: Items::of(records),
        })
    }
}

/// The changes of two streams, of which the second one begins where the first one ends.
pub fn merge(alloc: Global, x: Changed, y: Changed) -> Result<Changed, MergeFault>
    requires x { IsChanged x }
    requires y { IsChanged y }
    ensures right { IfOk result IsChanged }
    ensures from { IfOk result (λ both. both.from ≡ x.from) }
    ensures to { IfOk result (λ both. both.to ≡ y.to) }
    ensures items { IfOk result (λ both. changes both.items
        ≡ merged (changes x.items) (changes y.items)) }
    // Where the second one doesn't begin there, both ids are told.
    ensures not_adjacent { x.to ≢ y.from → result ≡ Err (faults.NotAdjacent x.to y.from) }
    // Where it does, only memory may be wanting.
    ensures adjacent { x.to ≡ y.from → IfErr result (λ fault. fault ≡ faults.NoMemory) }
{
    adjacent(x.to, &y)?;
    let both = Merged::of(alloc, x)?.later(y)?;
    Ok(both.into_changed(alloc)?)
}

/// Whether the changes begin where others end.
fn adjacent(ends: u32, next: &Changed) -> Result<(), MergeFault>
    ensures adjacent { IfOk result (λ _. ends ≡ next.now.from) }
    ensures not_adjacent { IfErr result (λ fault. (ends ≢ next.now.from)
        × (fault ≡ faults.NotAdjacent ends next.now.from)) }
{
    if ends != next.from {
        return Err(MergeFault::NotAdjacent {
            ends,
            begins: next.from,
        });
    }
    Ok(())
}

/// Puts the record of one change in place of the key's earlier one.
fn set(items: &mut BTreeMap<Key, Option<Payload>>, change: Item) -> Result<(), NoMemory>
    ensures held { OnOk result ((key : Key) → change_at items.new key
        ≡ cond (eq_by_cmp key_cmp key (change_of change).0) (Some (change_of change).1) (change_at items.old key)) }
    ensures each { OnOk result (IsItem change → AllByRecursion IsItem (records items.old.entries)
        → AllByRecursion IsItem (records items.new.entries)) }
{
    match change {
        Item::Put(key, payload) => {
            items.insert(key, Some(payload))?;
        }
        Item::Removed(key) => {
            items.insert(key, None)?;
        }
    }
    Ok(())
}

/// Puts the records of all changes.
fn set_all(items: &mut BTreeMap<Key, Option<Payload>>, list: Vec<Item>) -> Result<(), NoMemory>
    requires { AreItems list.items }
    ensures made { OnOk result (changes (records items.new.entries)
        ≡ merged (changes (records items.old.entries)) (changes list.items)) }
    ensures right { OnOk result (AllByRecursion IsItem (records items.old.entries)
        → AreItems (records items.new.entries)) }
    ensures few { OnOk result (btree_map_len items.new < 2 ^ 63) }
{
    for change in list {
        set(items, change)?;
    }
    // The keys ascend, and there are not too many.
    let _ = items.len();
    Ok(())
}

fn item_of(key: Key, payload: Option<Payload>) -> Item
    ensures { result ≡ record_of key payload }
{
    match payload {
        Some(payload) => Item::Put(key, payload),
        None => Item::Removed(key),
    }
}

fn put_all(out: &mut Vec<Item>, items: BTreeMap<Key, Option<Payload>>) -> Result<(), NoMemory>
    ensures { OnOk result (out.new.items ≡ out.old.items ++ records items.entries) }
{
    for (key, payload) in items {
        out.push(item_of(key, payload))?;
    }
    Ok(())
}
