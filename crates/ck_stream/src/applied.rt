ghost use Rattle.std.specs.Prelude.{◌≡◌, ◌≢◌, IfOk, IfErr, Err};
ghost use Rattle.ck_model.specs.Streams.{applied};
ghost use Rattle.ck_stream.specs.declared.fault.ApplyFault.TheVariants as faults;
ghost use Rattle.ck_stream.specs.Right.{IsFull, IsChanged, contents, changes};

use crate::base::{Base, fits};
use crate::{ApplyFault, Changed, Full, Item, Items};
use ck_model::NoMemory;
use std::alloc::Global;

fn copy_of(item: &Item) -> Result<Item, NoMemory>
    ensures { IfOk result (λ copy. copy ≡ item.now) }
{
    match item {
        Item::Put(key, payload) => Ok(Item::Put(*key, payload.clone()?)),
        Item::Removed(key) => Ok(Item::Removed(*key)),
    }
}

fn copies(alloc: Global, items: &[Item]) -> Result<Vec<Item>, NoMemory>
    ensures { IfOk result (λ copies. copies.items ≡ items.now) }
{
    let mut copies = Vec::new(alloc);
    for item in items {
        copies.push(copy_of(item)?)?;
    }
    Ok(copies)
}

fn copy_of_changed(alloc: Global, changed: &Changed) -> Result<Changed, NoMemory>
    ensures { IfOk result (λ copy. copy ≡ changed.now) }
{
    Ok(Changed {
        from: changed.from,
        to: changed.to,
        items: Items::of(copies(alloc, changed.items.items())?),
    })
}

/// The full stream of the later checkpoint, from that of the earlier one and what changed between
/// them. The full stream is dropped where this isn't possible.
pub fn apply(alloc: Global, full: Full, changed: &Changed) -> Result<Full, ApplyFault>
    requires full { IsFull full }
    requires changed { IsChanged changed.now }
    ensures right { IfOk result IsFull }
    ensures id { IfOk result (λ later. later.id ≡ changed.now.to) }
    ensures items { IfOk result (λ later. contents later.items
        ≡ applied (contents full.items) (changes changed.now.items)) }
    // Where the ids differ, both are told.
    ensures wrong_base { full.id ≢ changed.now.from
        → result ≡ Err (faults.WrongBase full.id changed.now.from) }
    // Where they don't, only memory may be wanting.
    ensures fits { full.id ≡ changed.now.from → IfErr result (λ fault. fault ≡ faults.NoMemory) }
{
    fits(full.id, changed)?;
    let base = Base::of(alloc, full)?;
    let later = base.later(copy_of_changed(alloc, changed)?)?;
    Ok(later.into_full(alloc)?)
}
