ghost use Rattle.std.specs.Prelude.{◌≡◌, ◌≢◌, ◌++◌, ◌<◌, ◌^◌, IfOk, IfErr, OnOk, Err, cond};
ghost use Rattle.std.specs.List.{AllByRecursion};
ghost use Rattle.std.specs.Ordering.{eq_by_cmp};
ghost use Rattle.std.specs.BTreeMap.{btree_map_len};
ghost use Rattle.ck_model.specs.declared.key.Key.{Key};
ghost use Rattle.ck_model.specs.Key.{key_cmp};
ghost use Rattle.ck_model.specs.Streams.{applied};
ghost use Rattle.ck_stream.specs.declared.fault.ApplyFault.TheVariants as faults;
ghost use Rattle.ck_stream.specs.Right.{IsItem, AreItems, IsFull, IsChanged, change_of, contents, changes};
ghost use Rattle.ck_stream.specs.ByKey.{records, held_at};

use crate::{ApplyFault, Changed, Full, Item, Items};
use ck_model::{Key, NoMemory, Payload};
use std::alloc::Global;
use std::collections::BTreeMap;
use std::marker::Model;

/// A full stream whose records stand by their keys, so that a few changes take little time however
/// many records it has.
#[derive(Drop)]
pub struct Base {
    id: u32,
    items: BTreeMap<Key, Payload>,
}

impl Model for Base {
    ghost use Rattle.ck_stream.specs.declared.stream.Full.{Full};

    ghost Value = { Full };

    ghost use Rattle.ck_stream.specs.ByKey.{records};

    ghost view = { λ base. record { id = base.id; items = records base.items.entries } };
}

/// Whether the changes are from the checkpoint with this id on.
pub fn fits(id: u32, changed: &Changed) -> Result<(), ApplyFault>
    ensures fit { IfOk result (λ _. id ≡ changed.now.from) }
    ensures wrong_base { IfErr result (λ fault. (id ≢ changed.now.from)
        × (fault ≡ faults.WrongBase id changed.now.from)) }
{
    if id != changed.from {
        return Err(ApplyFault::WrongBase {
            has: id,
            wants: changed.from,
        });
    }
    Ok(())
}

/// Makes one change.
fn set(items: &mut BTreeMap<Key, Payload>, change: Item) -> Result<(), NoMemory>
    ensures held { OnOk result ((key : Key) → held_at items.new key
        ≡ cond (eq_by_cmp key_cmp key (change_of change).0) (change_of change).1 (held_at items.old key)) }
    ensures each { OnOk result (IsItem change → AllByRecursion IsItem (records items.old.entries)
        → AllByRecursion IsItem (records items.new.entries)) }
{
    match change {
        Item::Put(key, payload) => {
            items.insert(key, payload)?;
        }
        Item::Removed(key) => {
            items.remove(&key);
        }
    }
    Ok(())
}

/// Makes all changes.
fn set_all(items: &mut BTreeMap<Key, Payload>, list: Vec<Item>) -> Result<(), NoMemory>
    requires { AreItems list.items }
    ensures made { OnOk result (contents (records items.new.entries)
        ≡ applied (contents (records items.old.entries)) (changes list.items)) }
    ensures right { OnOk result (AllByRecursion IsItem (records items.old.entries)
        → AreItems (records items.new.entries)) }
    ensures few { OnOk result (btree_map_len items.new < 2 ^ 63) }
{
    for change in list {
        set(items, change)?;
    }
    // The keys ascend, and there are not too many.
    let _ = items.len();
    Ok(())
}

fn put_all(out: &mut Vec<Item>, items: BTreeMap<Key, Payload>) -> Result<(), NoMemory>
    ensures { OnOk result (out.new.items ≡ out.old.items ++ records items.entries) }
{
    for (key, payload) in items {
        out.push(Item::Put(key, payload))?;
    }
    Ok(())
}

impl Base {
    pub fn of(alloc: Global, full: Full) -> Result<Base, NoMemory>
        requires { IsFull full }
        ensures { IfOk result (λ base. base ≡ full) }
    {
        let mut items = BTreeMap::new(alloc);
        set_all(&mut items, full.items.into_vec())?;
        Ok(Base { id: full.id, items })
    }

    /// What it is after all these changes, which are from this very checkpoint on.
    pub(crate) fn later(self, changed: Changed) -> Result<Base, NoMemory>
        requires full { IsFull self }
        requires changed { IsChanged changed }
        ensures right { IfOk result IsFull }
        ensures id { IfOk result (λ later. later.id ≡ changed.to) }
        ensures items { IfOk result (λ later. contents later.items
            ≡ applied (contents self.items) (changes changed.items)) }
    {
        let mut items = self.items;
        set_all(&mut items, changed.items.into_vec())?;
        Ok(Base {
            id: changed.to,
            items,
        })
    }

    /// The later checkpoint, from the earlier one and what changed between them. The earlier one is
    /// dropped where this isn't possible.
    pub fn apply(self, changed: Changed) -> Result<Base, ApplyFault>
        requires full { IsFull self }
        requires changed { IsChanged changed }
        ensures right { IfOk result IsFull }
        ensures id { IfOk result (λ later. later.id ≡ changed.to) }
        ensures items { IfOk result (λ later. contents later.items
            ≡ applied (contents self.items) (changes changed.items)) }
        // Where the ids differ, both are told.
        ensures wrong_base { self.id ≢ changed.from
            → result ≡ Err (faults.WrongBase self.id changed.from) }
        // Where they don't, only memory may be wanting.
        ensures fits { self.id ≡ changed.from → IfErr result (λ fault. fault ≡ faults.NoMemory) }
    {
        fits(self.id, &changed)?;
        Ok(self.later(changed)?)
    }

    pub fn into_full(self, alloc: Global) -> Result<Full, NoMemory>
        ensures { IfOk result (λ full. full ≡ self) }
    {
        let Base { id, items } = self;
        let mut records = Vec::with_capacity(alloc, items.len())?;
        put_all(&mut records, items)?;
        Ok(Full {
            id,
            items: Items::of(records),
        })
    }
}
