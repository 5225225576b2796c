ghost use Rattle.std.specs.Prelude.{◌≡◌, ℕ, ◌+◌, ◌/◌, ◌<◌, ◌≤◌, ◌==◌, ◌||◌, ◌&&◌, true, false, not, slice_index, nat_lt, All, IfOk, IfSome, IfNone};
ghost use Rattle.std.specs.List.{list_any};
ghost use Rattle.ck_alloc.specs.Bits.{has, count_below, IsIndexed};

use crate::words::{clear, clear_bit, first_nonzero, has_bit, merge, set_bit, zeros};
use ck_model::NoMemory;
use std::alloc::Global;

/// A set of numbers below a limit: a bit for each number, and a bit for each word that has one.
#[derive(Drop)]
pub struct BitSet {
    pub limit: u32,
    pub words: Vec<u64>,
    groups: Vec<u64>,
    count: u32,
    ghost indexed: { IsIndexed limit count words.items groups.items },
}

impl BitSet {
    pub fn new(alloc: Global, limit: u32) -> Result<BitSet, NoMemory>
        ensures limit { IfOk result (λ s. s.limit ≡ limit) }
        ensures empty { IfOk result (λ s. (k : ℕ) → has s.words.items k ≡ false) }
    {
        let count = limit as usize / 64 + 1;
        Ok(BitSet {
            limit,
            words: zeros(alloc, count)?,
            groups: zeros(alloc, count / 64 + 1)?,
            count: 0,
        })
    }

    /// All numbers below the limit.
    pub fn all_below(alloc: Global, limit: u32) -> Result<BitSet, NoMemory>
        ensures limit { IfOk result (λ s. s.limit ≡ limit) }
        ensures members { IfOk result (λ s. (k : ℕ) → has s.words.items k ≡ nat_lt k limit) }
    {
        let mut all = BitSet::new(alloc, limit)?;
        for at in 0..limit {
            all.insert(at);
        }
        Ok(all)
    }

    pub fn count(&self) -> u32
        ensures { result ≡ count_below (has self.now.words.items) self.now.limit }
    {
        self.count
    }

    pub fn contains(&self, at: u32) -> bool
        requires { at < self.now.limit }
        ensures { result ≡ has self.now.words.items at }
    {
        has_bit(&self.words, at as usize)
    }

    pub fn insert(&mut self, at: u32)
        requires within { at < self.old.limit }
        requires absent { has self.old.words.items at ≡ false }
        ensures limit { self.new.limit ≡ self.old.limit }
        ensures members { (k : ℕ) → has self.new.words.items k ≡ ((k == at) || has self.old.words.items k) }
    {
        let at = at as usize;
        self.count += 1;
        set_bit(&mut self.words, at);
        set_bit(&mut self.groups, at / 64);
    }

    pub fn remove(&mut self, at: u32)
        requires { has self.old.words.items at ≡ true }
        ensures limit { self.new.limit ≡ self.old.limit }
        ensures members { (k : ℕ) → has self.new.words.items k ≡ (not (k == at) && has self.old.words.items k) }
    {
        let at = at as usize;
        self.count -= 1;
        clear_bit(&mut self.words, at);
        if self.words[at / 64] == 0 {
            clear_bit(&mut self.groups, at / 64);
        }
    }

    fn discard(&mut self, at: u32)
        requires { at < self.old.limit }
        ensures limit { self.new.limit ≡ self.old.limit }
        ensures members { (k : ℕ) → has self.new.words.items k ≡ (not (k == at) && has self.old.words.items k) }
    {
        if self.contains(at) {
            self.remove(at);
        }
    }

    /// Takes numbers out that may be there, or more than once in the list.
    pub fn remove_all(&mut self, numbers: &[u32])
        requires { All (λ at. at < self.old.limit) numbers.now }
        ensures limit { self.new.limit ≡ self.old.limit }
        ensures members { (k : ℕ) → has self.new.words.items k ≡ (has self.old.words.items k && not (list_any (λ at. at == k) numbers.now)) }
    {
        for at in numbers {
            self.discard(*at);
        }
    }

    /// The first word that has a number.
    fn lowest_word(&self) -> Option<usize>
        ensures found { IfSome result (λ word. 0 < slice_index self.now.words.items word) }
        ensures first { IfSome result (λ word. (k : ℕ) → k < word → slice_index self.now.words.items k ≡ 0) }
        ensures none { IfNone result ((k : ℕ) → slice_index self.now.words.items k ≡ 0) }
    {
        let group = first_nonzero(&self.groups)?;
        Some(64 * group + self.groups[group].trailing_zeros() as usize)
    }

    /// The least number.
    pub fn lowest(&self) -> Option<u32>
        ensures found { IfSome result (λ at. has self.now.words.items at ≡ true) }
        ensures lowest { IfSome result (λ at. (k : ℕ) → has self.now.words.items k ≡ true → at ≤ k) }
        ensures none { IfNone result ((k : ℕ) → has self.now.words.items k ≡ false) }
    {
        let word = self.lowest_word()?;
        Some((64 * word + self.words[word].trailing_zeros() as usize) as u32)
    }

    /// Takes over all numbers of another set.
    pub fn absorb(&mut self, other: &mut BitSet)
        requires limits { self.old.limit ≡ other.old.limit }
        requires apart { (k : ℕ) → has self.old.words.items k ≡ true → has other.old.words.items k ≡ false }
        ensures limit { self.new.limit ≡ self.old.limit }
        ensures other_limit { other.new.limit ≡ other.old.limit }
        ensures members { (k : ℕ) → has self.new.words.items k ≡ (has self.old.words.items k || has other.old.words.items k) }
        ensures emptied { (k : ℕ) → has other.new.words.items k ≡ false }
    {
        merge(&mut self.words, &other.words);
        merge(&mut self.groups, &other.groups);
        self.count += other.count;
        clear(&mut other.words);
        clear(&mut other.groups);
        other.count = 0;
    }
}
