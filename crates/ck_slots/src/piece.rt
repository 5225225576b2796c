ghost use Rattle.std.specs.Prelude.{◌≡◌, ℕ, ◌+◌, ◌-◌, ◌<◌, ◌≤◌, ◌++◌, List, [], length, take, drop, vec_capacity};
ghost use Rattle.std.specs.Prelude.{IsTrue, IsFalse, IfOk, slice_index, slice_index_or};
ghost use Rattle.std.specs.List.{insert, remove};

use ck_model::NoMemory;
use std::alloc::Global;
use std::marker::Model;

/// How many numbers a piece has room for.
const ROOM: usize = 512;

/// A few numbers in a row. All its memory is taken when it is made.
#[derive(Drop)]
pub struct Piece {
    numbers: Vec<u32>,
}

impl Model for Piece {
    ghost use Rattle.std.specs.Prelude.{ℕ, ◌≤◌, List, length, vec_capacity};

    ghost Value = { List ℕ };

    ghost view = { λ p. p.numbers.items };

    ghost invariant = { λ p. (512 ≤ vec_capacity p.numbers) × (length p.numbers.items ≤ 512) };
}

impl Piece {
    pub fn new(alloc: Global) -> Result<Piece, NoMemory>
        ensures { IfOk result (λ piece. piece ≡ []) }
    {
        let numbers = Vec::with_capacity(alloc, ROOM)?;
        Ok(Piece { numbers })
    }

    pub fn len(&self) -> usize
        ensures len { result ≡ length self.now }
        ensures few { result ≤ 512 }
    {
        self.numbers.len()
    }

    pub fn as_slice(&self) -> &[u32]
        ensures { result.now ≡ self.now }
    {
        self.numbers.as_slice()
    }

    pub fn is_full(&self) -> bool
        ensures full { IsTrue result → length self.now ≡ 512 }
        ensures room { IsFalse result → length self.now < 512 }
    {
        self.numbers.len() == ROOM
    }

    /// The number at the end.
    pub fn last(&self) -> u32
        requires { 0 < length self.now }
        ensures { result ≡ slice_index self.now (length self.now - 1) }
    {
        self.numbers[self.numbers.len() - 1]
    }

    pub fn insert(&mut self, at: usize, number: u32)
        requires within { at ≤ length self.old }
        requires room { length self.old < 512 }
        ensures { self.new ≡ insert self.old at number }
    {
        self.numbers.insert(at, number).unwrap();
    }

    pub fn remove(&mut self, at: usize) -> u32
        requires { at < length self.old }
        ensures number { result ≡ slice_index self.old at }
        ensures rest { self.new ≡ remove self.old at }
    {
        self.numbers.remove(at)
    }

    /// Moves the upper half of a full piece into another one, whatever that had.
    pub fn halve(&mut self, upper: &mut Piece)
        requires { length self.old ≡ 512 }
        ensures parts { self.old ≡ self.new ++ upper.new }
        ensures half { length self.new ≡ 256 }
    {
        let half = self.numbers.len() / 2;
        upper.numbers.clear();
        upper
            .numbers
            .extend_from_slice(&self.numbers[half..])
            .unwrap();
        self.numbers.truncate(half);
    }

    /// Appends the numbers of another piece.
    pub fn append(&mut self, other: &Piece)
        requires { length self.old + length other.now ≤ 512 }
        ensures { self.new ≡ self.old ++ other.now }
    {
        self.numbers.extend_from_slice(other.as_slice()).unwrap();
    }
}
