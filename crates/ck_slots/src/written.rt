// A table as it is written into the slots of blocks.
ghost use Rattle.std.specs.Prelude.{◌≡◌, ◌<◌, ◌≤◌, ◌+◌, ◌++◌, IfOk, vec_len, vec_capacity};
ghost use Rattle.ck_model.specs.TableWorld.{blocks_in};
ghost use Rattle.ck_record.specs.Record.{IsRecord};
ghost use Rattle.ck_slots.specs.Order.{numbers_in};
ghost use Rattle.ck_slots.specs.Slots.{table_in};
ghost use Rattle.ck_slots.specs.Written.{record_in, IsSpelled, AreSpelled};

use crate::table::Slots;
use ck_area::spell_block;
use ck_disk::Block;
use ck_model::{Held, Meta, NoMemory};
use ck_record::Record;
use std::alloc::Global;

/// How many slots a block has.
const SLOTS: u32 = 32;

/// The record in the slot of this number. The list has the slots of the entries in their order.
fn record_at(table: &Slots, listed: &[u32], slot: u32) -> Record
    requires { listed.now ≡ numbers_in table.now.entries.order }
    ensures value { result ≡ record_in (table_in table.now) slot }
    ensures fits { IsRecord result }
{
    if slot == 0 {
        return Record::Counters(table.counters());
    }
    let at = slot - 1;
    let count = table.fileset_count();
    if at < count {
        let (id, fileset) = table.fileset_at(at);
        return Record::Fileset(id, fileset);
    }
    if at - count < table.entry_count() {
        let (fileset, key, held) = table.listed_at(listed, at - count);
        return Record::Entry(fileset, key, held);
    }
    Record::Free
}

/// Writes the records of 32 slots from that one on into a block.
fn spell_slots(table: &Slots, listed: &[u32], first: u32, into: &mut Block)
    requires listed { listed.now ≡ numbers_in table.now.entries.order }
    requires first { first < 262176 }
    ensures { IsSpelled (table_in table.now) first into.new }
{
    let mut records = [Record::Free; 32];
    for place in 0..SLOTS {
        records[place as usize] = record_at(table, listed, first + place);
    }
    spell_block(&records, into);
}

/// The table in so many blocks.
pub fn spell_blocks(alloc: Global, table: &Slots, count: u32) -> Result<Vec<Block>, NoMemory>
    requires { count < 8194 }
    ensures blocks { IfOk result (λ blocks. AreSpelled (table_in table.now) blocks.items) }
    ensures count { IfOk result (λ blocks. vec_len blocks ≡ count) }
{
    let listed = table.listed(alloc)?;
    let mut blocks = Vec::with_capacity(alloc, count as usize)?;
    for at in 0..count {
        let mut block = [0; 4096];
        spell_slots(table, &listed, SLOTS * at, &mut block);
        blocks.push_reserved(block);
    }
    Ok(blocks)
}

/// Appends the data block that an entry names, if it names one.
pub fn push_named(into: &mut Vec<u32>, held: &Held)
    requires { vec_len into.old < vec_capacity into.old }
    ensures items { into.new.items ≡ into.old.items ++ blocks_in held.now }
    ensures few { vec_len into.new ≤ vec_len into.old + 1 }
    ensures capacity { vec_capacity into.new ≡ vec_capacity into.old }
{
    if let Held::Extent(_, block) = held {
        into.push_reserved(*block);
    }
}
