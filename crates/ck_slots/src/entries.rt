ghost use Rattle.std.specs.Prelude.{◌≡◌, ◌∷◌, [], ◌+◌, ◌≤◌, ◌<◌, ◌^◌, ◌⊎◌, ℕ, true, Some, length};
ghost use Rattle.std.specs.Prelude.{IsSome, IfOk, IfErr, MatchOption, EachIndex};
ghost use Rattle.std.specs.Prelude.{slice_index, slice_get, slice_set, vec_len, vec_capacity};
ghost use Rattle.std.specs.Option.{option_copied};
ghost use Rattle.std.specs.FinMap.{is_sorted};
ghost use Rattle.std.specs.FinMap as map;
ghost use Rattle.ck_model.specs.Key.{entry_cmp};
ghost use Rattle.ck_model.specs.Ordered.{IsFoundAt, IsGapAt};
ghost use Rattle.ck_slots.specs.Arranged.{arranged, StandOnce, IsStored};
ghost use Rattle.ck_slots.specs.Order.{numbers_in, index_in};
ghost use Rattle.ck_slots.specs.Pieces.{IsPlace, IsTaken};

use crate::order::{Order, Place};
use crate::search::{next_key, search};
use crate::slot::Slot;
use ck_model::{Held, Key, NoMemory};
use std::alloc::Global;

/// The entries of a table in slots, with the numbers of the slots in the order of their keys and
/// the numbers of those that are free again. So a change moves numbers and no entries.
#[derive(Drop)]
pub struct Entries {
    pub slots: Vec<Slot>,
    pub order: Order,
    pub free: Vec<u32>,
    pub limit: u32,
    ghost sorted: { is_sorted entry_cmp (arranged slots.items (numbers_in order)) ≡ true },
    ghost once: { StandOnce (length slots.items) (numbers_in order) free.items },
    ghost whole: { length (numbers_in order) + vec_len free ≡ vec_len slots },
    ghost fits: { vec_len slots ≤ limit },
    ghost small: { limit ≤ 262144 },
    ghost order_limit: { order.limit ≡ limit },
    ghost slots_room: { limit ≤ vec_capacity slots },
    ghost free_room: { limit ≤ vec_capacity free },
}

fn overwrite(slots: &mut [Slot], number: u32, slot: Slot)
    requires { number < length slots.old }
    ensures { slots.new ≡ slice_set slots.old number slot }
{
    slots[number as usize] = slot;
}

// Into the slot that was freed last, or else into a new one.
fn store(slots: &mut Vec<Slot>, free: &mut Vec<u32>, slot: Slot) -> u32
    requires within { EachIndex free.old.items
        (λ k. slice_index free.old.items k < length slots.old.items) }
    requires room { (free.old.items ≡ []) → vec_len slots.old < vec_capacity slots.old }
    requires few { vec_len slots.old < 2 ^ 32 }
    ensures stored { IsStored slots.old.items free.old.items slots.new.items free.new.items
        result slot }
    ensures slots_capacity { vec_capacity slots.new ≡ vec_capacity slots.old }
    ensures free_capacity { vec_capacity free.new ≡ vec_capacity free.old }
{
    match free.pop() {
        Some(number) => {
            overwrite(slots, number, slot);
            number
        }
        None => {
            let number = slots.len() as u32;
            slots.push_reserved(slot);
            number
        }
    }
}

impl Entries {
    ghost use Rattle.ck_slots.specs.Entries.{listed_in, entries_in, next_keys};

    pub fn new(alloc: Global, limit: u32) -> Result<Entries, NoMemory>
        requires { limit ≤ 262144 }
        ensures entries { IfOk result (λ s. entries_in s ≡ map.empty) }
        ensures limit { IfOk result (λ s. s.limit ≡ limit) }
    {
        Ok(Entries {
            slots: Vec::with_capacity(alloc, limit as usize)?,
            order: Order::new(alloc, limit)?,
            free: Vec::with_capacity(alloc, limit as usize)?,
            limit,
        })
    }

    pub fn len(&self) -> usize
        ensures { result ≡ map.len (entries_in self.now) }
    {
        self.slots.len() - self.free.len()
    }

    /// The entry at this place in the order of filesets and keys.
    pub fn at(&self, at: usize) -> (u32, Key, Held)
        requires { at < map.len (entries_in self.now) }
        ensures { slice_get (map.entries (entries_in self.now)) at
            ≡ Some ((result.0, result.1), result.2) }
    {
        let place = self.order.locate(at);
        let slot = &self.slots[self.order.number(place) as usize];
        (slot.fileset, slot.key, slot.held)
    }

    /// The numbers of the slots in one list, in the order of filesets and keys.
    pub fn listed(&self, alloc: Global) -> Result<Vec<u32>, NoMemory>
        ensures { IfOk result (λ listed. listed.items ≡ numbers_in self.now.order) }
    {
        self.order.flat(alloc)
    }

    /// The entry at this place in that list.
    pub fn listed_at(&self, listed: &[u32], at: usize) -> (u32, Key, Held)
        requires listed { listed.now ≡ numbers_in self.now.order }
        requires within { at < map.len (entries_in self.now) }
        ensures { slice_get (map.entries (entries_in self.now)) at
            ≡ Some ((result.0, result.1), result.2) }
    {
        let slot = &self.slots[listed[at] as usize];
        (slot.fileset, slot.key, slot.held)
    }

    fn find(&self, fileset: u32, key: &Key) -> Result<Place, Place>
        ensures taken { IfOk result (λ place. IsTaken self.now.order.pieces.items place) }
        ensures found { IfOk result
            (λ place. IsFoundAt entry_cmp (fileset, key.now) (listed_in self.now)
            (index_in self.now.order place)) }
        ensures place { IfErr result (λ place. IsPlace self.now.order.pieces.items place) }
        ensures absent { IfErr result
            (λ place. IsGapAt entry_cmp (fileset, key.now) (listed_in self.now)
            (index_in self.now.order place)) }
    {
        search(&self.slots, &self.order, fileset, key)
    }

    pub fn get(&self, fileset: u32, key: &Key) -> Option<Held>
        ensures { result ≡ map.get (entries_in self.now) (fileset, key.now) }
    {
        match self.find(fileset, key) {
            Ok(place) => Some(self.slots[self.order.number(place) as usize].held),
            Err(_) => None,
        }
    }

    /// The least key after this one at which a fileset holds something.
    pub fn next(&self, fileset: u32, after: Option<&Key>) -> Option<Key>
        ensures { MatchOption result
            (next_keys self.now fileset (option_copied after.entry) ≡ [])
            (λ key. next_keys self.now fileset (option_copied after.entry)
            ≡ key ∷ next_keys self.now fileset (Some key)) }
    {
        next_key(&self.slots, &self.order, fileset, after)
    }

    fn add(&mut self, place: Place, slot: Slot)
        requires place { IsPlace self.old.order.pieces.items place }
        requires spare { 0 < vec_len self.old.order.spare }
        requires gap { IsGapAt entry_cmp (slot.fileset, slot.key) (listed_in self.old)
            (index_in self.old.order place) }
        requires room { length (numbers_in self.old.order) < self.old.limit }
        ensures entries { entries_in self.new
            ≡ map.insert (entries_in self.old) (slot.fileset, slot.key) slot.held }
        ensures limit { self.new.limit ≡ self.old.limit }
    {
        let number = store(&mut self.slots, &mut self.free, slot);
        self.order.insert(place, number);
    }

    // Sees to it that a number can be inserted. It comes before the search, since it moves places.
    fn reserve(&mut self)
        ensures spare { 0 < vec_len self.new.order.spare }
        ensures entries { entries_in self.new ≡ entries_in self.old }
        ensures limit { self.new.limit ≡ self.old.limit }
    {
        self.order.reserve();
    }

    fn put_reserved(&mut self, fileset: u32, key: &Key, held: Held)
        requires spare { 0 < vec_len self.old.order.spare }
        requires room { IsSome (map.get (entries_in self.old) (fileset, key.now))
            ⊎ (map.len (entries_in self.old) < self.old.limit) }
        ensures entries { entries_in self.new
            ≡ map.insert (entries_in self.old) (fileset, key.now) held }
        ensures limit { self.new.limit ≡ self.old.limit }
    {
        match self.find(fileset, key) {
            Ok(place) => self.slots[self.order.number(place) as usize].held = held,
            Err(place) => self.add(
                place,
                Slot {
                    fileset,
                    key: *key,
                    held,
                },
            ),
        }
    }

    /// Sets what a fileset holds at a key.
    pub fn put(&mut self, fileset: u32, key: &Key, held: Held)
        requires { IsSome (map.get (entries_in self.old) (fileset, key.now))
            ⊎ (map.len (entries_in self.old) < self.old.limit) }
        ensures entries { entries_in self.new
            ≡ map.insert (entries_in self.old) (fileset, key.now) held }
        ensures limit { self.new.limit ≡ self.old.limit }
    {
        self.reserve();
        self.put_reserved(fileset, key, held);
    }

    /// Takes away what a fileset holds at a key.
    pub fn remove(&mut self, fileset: u32, key: &Key)
        ensures entries { entries_in self.new
            ≡ map.remove (entries_in self.old) (fileset, key.now) }
        ensures limit { self.new.limit ≡ self.old.limit }
    {
        if let Ok(place) = self.find(fileset, key) {
            let number = self.order.remove(place);
            self.free.push_reserved(number);
        }
    }
}
