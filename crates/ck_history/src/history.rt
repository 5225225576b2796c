ghost use Rattle.std.specs.Prelude.{◌≡◌, ◌+◌, ◌^◌, ◌<◌, ◌≤◌, ◌++◌, [], ◌∷◌, length, vec_len, vec_capacity, slice_get, IsOk, OnOk, OnErr};

use ck_model::{Entry, NoMemory};
use std::alloc::Global;

/// The answered calls, in the order of their answers. Memory for an entry is taken before its call
/// begins, so that no call is lost once it is answered.
#[derive(Drop)]
pub struct History {
    entries: Vec<Entry>,
    room: u32,
    pub ghost fits: { length entries.items + room < 2 ^ 32 },
    ghost reserved: { vec_len entries + room ≤ vec_capacity entries },
}

impl History {
    ghost use Rattle.ck_history.specs.History.{entries_of, room_of};

    pub fn new(alloc: Global) -> History
        ensures entries { entries_of result ≡ [] }
        ensures room { room_of result ≡ 0 }
    {
        History {
            entries: Vec::new(alloc),
            room: 0,
        }
    }

    /// Takes memory for so many entries more than there are, unless there is room for them already.
    pub fn reserve(&mut self, calls: u32) -> Result<(), NoMemory>
        requires { length (entries_of self.old) + calls < 2 ^ 32 }
        ensures entries { entries_of self.new ≡ entries_of self.old }
        ensures room { OnOk result (calls ≤ room_of self.new) }
        ensures no_less { room_of self.old ≤ room_of self.new }
        ensures succeeds { calls ≤ room_of self.old → IsOk result }
        ensures err { OnErr result (room_of self.new ≡ room_of self.old) }
    {
        if self.room < calls {
            self.entries.reserve(calls as usize)?;
            self.room = calls;
        }
        Ok(())
    }

    /// Appends an entry. It takes no memory.
    pub fn put(&mut self, entry: Entry)
        requires { 0 < room_of self.old }
        ensures entries { entries_of self.new ≡ entries_of self.old ++ entry ∷ [] }
        ensures room { room_of self.new + 1 ≡ room_of self.old }
    {
        self.room -= 1;
        self.entries.push_reserved(entry);
    }

    pub fn length(&self) -> u32
        ensures { result ≡ length (entries_of self.now) }
    {
        self.entries.len() as u32
    }

    /// An entry by its number, counted from 0.
    pub fn entry(&self, at: u32) -> &Entry
        requires { at < length (entries_of self.now) }
        ensures { slice_get (entries_of self.now) at ≡ Some result.now }
    {
        &self.entries[at as usize]
    }

    pub fn into_entries(self) -> Vec<Entry>
        ensures { result.items ≡ entries_of self }
    {
        self.entries
    }
}
