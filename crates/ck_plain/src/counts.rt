ghost use Rattle.std.specs.Prelude.{◌≡◌, ◌+◌, ◌<◌, ◌^◌};
ghost use Rattle.std.specs.Option.{option_copied};
ghost use Rattle.std.specs.FinMap as map;
ghost use Rattle.ck_model.specs.Key.{is_block};
ghost use Rattle.ck_model.specs.Cells.{differs, differences, is_new_in, is_gone_in};
ghost use Rattle.ck_model.specs.Space.{block_count, own_block_count, new_block_count, is_new_block};

use crate::PlainMap;
use ck_model::{Cell, Key};

pub fn is_block(key: &Key) -> bool
    ensures { result ≡ is_block key.now }
{
    matches!(key, Key::Block(_, _))
}

fn differs(a: Option<&Cell>, b: Option<&Cell>) -> bool
    ensures { result ≡ differs (option_copied a.entry) (option_copied b.entry) }
{
    match (a, b) {
        (None, None) => false,
        (Some(one), Some(other)) => one.stamp != other.stamp,
        _ => true,
    }
}

fn is_new_block(stamp: u64, key: &Key, cell: Option<&Cell>) -> bool
    ensures { result ≡ is_new_block stamp key.now (option_copied cell.entry) }
{
    match cell {
        None => false,
        Some(found) => is_block(key) && found.stamp == stamp,
    }
}

impl PlainMap {
    /// How many blocks it has.
    pub fn block_count(&self) -> usize
        ensures { result ≡ block_count self.now }
    {
        self.entries()
            .iter()
            .filter(|entry| is_block(&entry.0))
            .count()
    }

    /// How many blocks it has that the next newer map lacks or has in another version.
    pub fn own_block_count(&self, next: &PlainMap) -> usize
        ensures { result ≡ own_block_count self.now next.now }
    {
        self.entries()
            .iter()
            .filter(|entry| {
                is_block(&entry.0) && differs(self.get(&entry.0), next.get(&entry.0))
            })
            .count()
    }

    /// How many blocks it has with this stamp.
    pub fn new_block_count(&self, stamp: u64) -> usize
        ensures { result ≡ new_block_count stamp self.now }
    {
        self.entries()
            .iter()
            .filter(|entry| is_new_block(stamp, &entry.0, self.get(&entry.0)))
            .count()
    }

    /// How many keys it has that an older map lacks or has in another version.
    fn changed_count(&self, older: &PlainMap) -> usize
        ensures { result ≡ map.len (map.retain_keys self.now (is_new_in older.now self.now)) }
    {
        self.entries()
            .iter()
            .filter(|entry| differs(older.get(&entry.0), self.get(&entry.0)))
            .count()
    }

    /// How many keys it has that a newer map lacks.
    fn lost_count(&self, newer: &PlainMap) -> usize
        ensures { result ≡ map.len (map.retain_keys self.now (is_gone_in newer.now)) }
    {
        self.entries()
            .iter()
            .filter(|entry| !newer.contains_key(&entry.0))
            .count()
    }

    /// How many keys there are at which it and the next newer map differ.
    pub fn difference_count(&self, next: &PlainMap) -> usize
        requires { map.len self.now + map.len next.now < 2 ^ 64 }
        ensures { result ≡ map.len (differences self.now next.now) }
    {
        next.changed_count(self) + self.lost_count(next)
    }
}
