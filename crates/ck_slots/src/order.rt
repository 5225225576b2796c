ghost use Rattle.std.specs.Prelude.{◌≡◌, ℕ, suc, ◌+◌, ◌*◌, ◌<◌, ◌≤◌, ◌∷◌, ◌++◌, [], length, take, drop, vec_len, vec_capacity, slice_set};
ghost use Rattle.std.specs.Prelude.{IsTrue, IsFalse, IfOk, slice_index};
ghost use Rattle.std.specs.List.{insert, remove};
ghost use Rattle.ck_slots.specs.Pieces.{offset, piece_at, IsPlace, IsTaken, AreFilled};

use crate::piece::Piece;
use ck_model::NoMemory;
use std::alloc::Global;

/// A place in an order: before the number that stands there, or at the end of a piece.
#[derive(Clone, Copy)]
pub struct Place {
    pub piece: usize,
    pub within: usize,
}

/// Numbers in a row, up to a limit, in pieces. A change moves the numbers of one piece, and what
/// is changed takes no memory.
#[derive(Drop)]
pub struct Order {
    pub pieces: Vec<Piece>,
    pub spare: Vec<Piece>,
    pub limit: u32,
    ghost some: { 0 < vec_len pieces },
    ghost filled: { AreFilled pieces.items },
    ghost enough: { 4 * limit + 1024 ≤ 512 * (vec_len pieces + vec_len spare) },
    ghost pieces_room: { vec_len pieces + vec_len spare ≤ vec_capacity pieces },
    ghost spare_room: { vec_len pieces + vec_len spare ≤ vec_capacity spare },
}

/// So many pieces, and room for one more.
fn new_pieces(alloc: Global, count: usize) -> Result<Vec<Piece>, NoMemory>
    requires { count < 4096 }
    ensures count { IfOk result (λ pieces. vec_len pieces ≡ count) }
    ensures room { IfOk result (λ pieces. count + 1 ≤ vec_capacity pieces) }
{
    let mut pieces = Vec::with_capacity(alloc, count + 1)?;
    for _ in 0..count {
        pieces.push_reserved(Piece::new(alloc)?);
    }
    Ok(pieces)
}

fn first_piece(alloc: Global, room: usize) -> Result<Vec<Piece>, NoMemory>
    requires { 0 < room }
    ensures items { IfOk result (λ pieces. pieces.items ≡ [] ∷ []) }
    ensures room { IfOk result (λ pieces. room ≤ vec_capacity pieces) }
{
    let mut pieces = Vec::with_capacity(alloc, room)?;
    pieces.push_reserved(Piece::new(alloc)?);
    Ok(pieces)
}

impl Order {
    ghost use Rattle.ck_slots.specs.Order.{numbers_in, index_in};

    pub fn new(alloc: Global, limit: u32) -> Result<Order, NoMemory>
        requires { limit ≤ 262144 }
        ensures numbers { IfOk result (λ order. numbers_in order ≡ []) }
        ensures limit { IfOk result (λ order. order.limit ≡ limit) }
    {
        // Twice as many as half-filled pieces need.
        let count = limit as usize / 128 + 3;
        Ok(Order {
            pieces: first_piece(alloc, count + 1)?,
            spare: new_pieces(alloc, count)?,
            limit,
        })
    }

    /// Whether a number stands at a place, and not the end of its piece.
    pub fn has(&self, place: Place) -> bool
        requires { IsPlace self.now.pieces.items place }
        ensures taken { IsTrue result → IsTaken self.now.pieces.items place }
        ensures end { IsFalse result → place.within ≡ length (piece_at self.now.pieces.items place.piece) }
    {
        place.within < self.pieces[place.piece].len()
    }

    /// The number at a place.
    pub fn number(&self, place: Place) -> u32
        requires { IsTaken self.now.pieces.items place }
        ensures { result ≡ slice_index (numbers_in self.now) (index_in self.now place) }
    {
        let piece = &self.pieces[place.piece];
        piece.as_slice()[place.within]
    }

    // A full piece becomes two.
    fn split(&mut self, at: usize)
        requires within { at < length self.old.pieces.items }
        requires full { length (piece_at self.old.pieces.items at) ≡ 512 }
        requires spare { 0 < vec_len self.old.spare }
        ensures parts { piece_at self.old.pieces.items at
            ≡ piece_at self.new.pieces.items at ++ piece_at self.new.pieces.items (suc at) }
        ensures half { length (piece_at self.new.pieces.items at) ≡ 256 }
        ensures before { offset self.new.pieces.items at ≡ offset self.old.pieces.items at }
        ensures len { suc at < length self.new.pieces.items }
        ensures numbers { numbers_in self.new ≡ numbers_in self.old }
        ensures limit { self.new.limit ≡ self.old.limit }
    {
        let mut upper = self.spare.take_last();
        self.pieces[at].halve(&mut upper);
        self.pieces.insert(at + 1, upper).unwrap();
    }

    // The same place, where there is room in its piece.
    fn with_room(&mut self, place: Place) -> Place
        requires place { IsPlace self.old.pieces.items place }
        requires spare { 0 < vec_len self.old.spare }
        ensures place { IsPlace self.new.pieces.items result }
        ensures index { index_in self.new result ≡ index_in self.old place }
        ensures room { length (piece_at self.new.pieces.items result.piece) < 512 }
        ensures numbers { numbers_in self.new ≡ numbers_in self.old }
        ensures limit { self.new.limit ≡ self.old.limit }
    {
        if !self.pieces[place.piece].is_full() {
            return place;
        }
        self.split(place.piece);
        if place.within <= 256 {
            return place;
        }
        Place {
            piece: place.piece + 1,
            within: place.within - 256,
        }
    }

    /// Inserts a number at a place.
    pub fn insert(&mut self, place: Place, number: u32)
        requires place { IsPlace self.old.pieces.items place }
        requires spare { 0 < vec_len self.old.spare }
        ensures numbers { numbers_in self.new ≡ insert (numbers_in self.old) (index_in self.old place) number }
        ensures limit { self.new.limit ≡ self.old.limit }
    {
        let place = self.with_room(place);
        self.pieces[place.piece].insert(place.within, number);
    }

    // Takes a piece out that has one number.
    fn remove_piece(&mut self, at: usize) -> u32
        requires within { suc at < length self.old.pieces.items }
        requires one { length (piece_at self.old.pieces.items at) ≡ 1 }
        ensures number { result ≡ slice_index (numbers_in self.old) (offset self.old.pieces.items at) }
        ensures numbers { numbers_in self.new ≡ remove (numbers_in self.old) (offset self.old.pieces.items at) }
        ensures limit { self.new.limit ≡ self.old.limit }
    {
        let mut piece = self.pieces.remove(at);
        let number = piece.remove(0);
        self.spare.push_reserved(piece);
        number
    }

    /// Takes the number at a place out.
    pub fn remove(&mut self, place: Place) -> u32
        requires { IsTaken self.old.pieces.items place }
        ensures number { result ≡ slice_index (numbers_in self.old) (index_in self.old place) }
        ensures numbers { numbers_in self.new ≡ remove (numbers_in self.old) (index_in self.old place) }
        ensures limit { self.new.limit ≡ self.old.limit }
    {
        if self.pieces[place.piece].len() == 1 && place.piece + 1 < self.pieces.len() {
            return self.remove_piece(place.piece);
        }
        self.pieces[place.piece].remove(place.within)
    }

    // Two neighbours become one piece.
    fn join(&mut self, at: usize)
        requires within { suc at < length self.old.pieces.items }
        requires room { length (piece_at self.old.pieces.items at) + length (piece_at self.old.pieces.items (suc at)) ≤ 512 }
        ensures before { (k : ℕ) → k < at → piece_at self.new.pieces.items k ≡ piece_at self.old.pieces.items k }
        ensures joined { piece_at self.new.pieces.items at
            ≡ piece_at self.old.pieces.items at ++ piece_at self.old.pieces.items (suc at) }
        ensures len { vec_len self.new.pieces + 1 ≡ vec_len self.old.pieces }
        ensures numbers { numbers_in self.new ≡ numbers_in self.old }
        ensures limit { self.new.limit ≡ self.old.limit }
    {
        let next = self.pieces.remove(at + 1);
        self.pieces[at].append(&next);
        self.spare.push_reserved(next);
    }

    // Neighbours that fit into one piece become one, so that pieces are spare.
    fn join_all(&mut self)
        requires { length (numbers_in self.old) ≤ self.old.limit }
        ensures spare { 0 < vec_len self.new.spare }
        ensures numbers { numbers_in self.new ≡ numbers_in self.old }
        ensures limit { self.new.limit ≡ self.old.limit }
    {
        let mut at = 0;
        while at + 1 < self.pieces.len() {
            if self.pieces[at].len() + self.pieces[at + 1].len() <= 512 {
                self.join(at);
            } else {
                at += 1;
            }
        }
    }

    /// Sees to it that a number can be inserted.
    pub fn reserve(&mut self)
        requires { length (numbers_in self.old) ≤ self.old.limit }
        ensures spare { 0 < vec_len self.new.spare }
        ensures numbers { numbers_in self.new ≡ numbers_in self.old }
        ensures limit { self.new.limit ≡ self.old.limit }
    {
        if self.spare.is_empty() {
            self.join_all();
        }
    }

    /// The numbers in one list.
    pub fn flat(&self, alloc: Global) -> Result<Vec<u32>, NoMemory>
        ensures { IfOk result (λ flat. flat.items ≡ numbers_in self.now) }
    {
        let mut flat = Vec::with_capacity(alloc, self.limit as usize)?;
        for at in 0..self.pieces.len() {
            flat.extend_from_slice(self.pieces[at].as_slice())?;
        }
        Ok(flat)
    }

    /// The place of the number with this index. It looks at the pieces one by one.
    pub fn locate(&self, index: usize) -> Place
        requires { index < length (numbers_in self.now) }
        ensures taken { IsTaken self.now.pieces.items result }
        ensures index { index_in self.now result ≡ index }
    {
        let mut piece = 0;
        let mut within = index;
        while within >= self.pieces[piece].len() {
            within -= self.pieces[piece].len();
            piece += 1;
        }
        Place { piece, within }
    }
}
