ghost use Rattle.std.specs.Prelude.{◌≡◌, suc, ◌<◌, ◌≤◌, ◌∷◌, [], ◌↔◌, true, Some, length, slice_index};
ghost use Rattle.std.specs.Prelude.{IsTrue, IfOk, IfErr, EachIndex, MatchOption};
ghost use Rattle.std.specs.Option.{option_copied};
ghost use Rattle.std.specs.FinMap.{is_sorted};
ghost use Rattle.ck_model.specs.Key.{entry_cmp};
ghost use Rattle.ck_model.specs.Ordered.{IsFoundAt, IsGapAt};
ghost use Rattle.ck_slots.specs.Arranged.{arranged};
ghost use Rattle.ck_slots.specs.Cut.{front, stands_before, cut_behind};
ghost use Rattle.ck_slots.specs.NextKey.{keys_behind};
ghost use Rattle.ck_slots.specs.Order.{numbers_in, index_in};
ghost use Rattle.ck_slots.specs.Pieces.{offset, piece_at, IsPlace, IsTaken};

use crate::order::{Order, Place};
use crate::slot::Slot;
use ck_model::Key;
use std::cmp::Ordering;

/// A place between two neighbours in the order of entries: before all entries of a fileset, or
/// before or behind the entry of a fileset at a key.
#[derive(Clone, Copy)]
pub enum Cut {
    Fileset(u32),
    Before(u32, Key),
    Behind(u32, Key),
}

fn order(fileset: u32, key: &Key, slot: &Slot) -> Ordering
    ensures { result ≡ entry_cmp (fileset, key.now) (slot.now.fileset, slot.now.key) }
{
    fileset.cmp(&slot.fileset).then(key.cmp(&slot.key))
}

fn is_before(slot: &Slot, cut: &Cut) -> bool
    ensures { result ≡ stands_before cut.now (slot.now.fileset, slot.now.key) }
{
    match cut {
        Cut::Fileset(fileset) => slot.fileset < *fileset,
        Cut::Before(fileset, key) => order(*fileset, key, slot).is_gt(),
        Cut::Behind(fileset, key) => !order(*fileset, key, slot).is_lt(),
    }
}

// How many of these entries stand before the cut.
fn count_before(slots: &[Slot], order: &[u32], cut: &Cut) -> usize
    requires sorted { is_sorted entry_cmp (arranged slots.now order.now) ≡ true }
    requires within { EachIndex order.now (λ k. slice_index order.now k < length slots.now) }
    ensures front { result ≡ front (stands_before cut.now) (arranged slots.now order.now) }
    ensures bound { result ≤ length order.now }
{
    let mut low = 0;
    let mut high = order.len();
    while low < high {
        let middle = low + (high - low) / 2;
        let slot = &slots[order[middle] as usize];
        if is_before(slot, cut) {
            low = middle + 1;
        } else {
            high = middle;
        }
    }
    low
}

// The piece that the cut is in or at the end of.
fn piece_of(slots: &[Slot], order: &Order, cut: &Cut) -> usize
    requires sorted { is_sorted entry_cmp (arranged slots.now (numbers_in order.now)) ≡ true }
    requires within { EachIndex (numbers_in order.now)
        (λ k. slice_index (numbers_in order.now) k < length slots.now) }
    ensures there { result < length order.now.pieces.items }
    ensures behind { offset order.now.pieces.items result
        ≤ front (stands_before cut.now) (arranged slots.now (numbers_in order.now)) }
    ensures before { suc result < length order.now.pieces.items
        → front (stands_before cut.now) (arranged slots.now (numbers_in order.now))
        < offset order.now.pieces.items (suc result) }
{
    let mut low = 0;
    let mut high = order.pieces.len() - 1;
    while low < high {
        let middle = low + (high - low) / 2;
        let slot = &slots[order.pieces[middle].last() as usize];
        if is_before(slot, cut) {
            low = middle + 1;
        } else {
            high = middle;
        }
    }
    low
}

/// The place before which the entries before the cut stand.
fn place(slots: &[Slot], order: &Order, cut: &Cut) -> Place
    requires sorted { is_sorted entry_cmp (arranged slots.now (numbers_in order.now)) ≡ true }
    requires within { EachIndex (numbers_in order.now)
        (λ k. slice_index (numbers_in order.now) k < length slots.now) }
    ensures place { IsPlace order.now.pieces.items result }
    ensures front { index_in order.now result
        ≡ front (stands_before cut.now) (arranged slots.now (numbers_in order.now)) }
    ensures end { result.within ≡ length (piece_at order.now.pieces.items result.piece)
        → index_in order.now result ≡ length (numbers_in order.now) }
{
    let piece = piece_of(slots, order, cut);
    let within = count_before(slots, order.pieces[piece].as_slice(), cut);
    Place { piece, within }
}

fn is_entry(slot: &Slot, fileset: u32, key: &Key) -> bool
    ensures { IsTrue result ↔ ((slot.now.fileset ≡ fileset) × (slot.now.key ≡ key.now)) }
{
    slot.fileset == fileset && slot.key == *key
}

/// The place of a fileset's entry at a key, or the place where it would go.
pub fn search(slots: &[Slot], order: &Order, fileset: u32, key: &Key) -> Result<Place, Place>
    requires sorted { is_sorted entry_cmp (arranged slots.now (numbers_in order.now)) ≡ true }
    requires within { EachIndex (numbers_in order.now)
        (λ k. slice_index (numbers_in order.now) k < length slots.now) }
    ensures taken { IfOk result (λ place. IsTaken order.now.pieces.items place) }
    ensures found { IfOk result
        (λ place. IsFoundAt entry_cmp (fileset, key.now)
        (arranged slots.now (numbers_in order.now)) (index_in order.now place)) }
    ensures place { IfErr result (λ place. IsPlace order.now.pieces.items place) }
    ensures absent { IfErr result
        (λ place. IsGapAt entry_cmp (fileset, key.now)
        (arranged slots.now (numbers_in order.now)) (index_in order.now place)) }
{
    let at = place(slots, order, &Cut::Before(fileset, *key));
    if order.has(at) && is_entry(&slots[order.number(at) as usize], fileset, key) {
        Ok(at)
    } else {
        Err(at)
    }
}

fn behind(fileset: u32, after: Option<&Key>) -> Cut
    ensures { result ≡ cut_behind fileset (option_copied after.entry) }
{
    match after {
        None => Cut::Fileset(fileset),
        Some(key) => Cut::Behind(fileset, *key),
    }
}

/// The least key of a fileset after this one.
pub fn next_key(slots: &[Slot], order: &Order, fileset: u32, after: Option<&Key>) -> Option<Key>
    requires sorted { is_sorted entry_cmp (arranged slots.now (numbers_in order.now)) ≡ true }
    requires within { EachIndex (numbers_in order.now)
        (λ k. slice_index (numbers_in order.now) k < length slots.now) }
    ensures { MatchOption result
        (keys_behind (arranged slots.now (numbers_in order.now)) fileset (option_copied after.entry) ≡ [])
        (λ key. keys_behind (arranged slots.now (numbers_in order.now)) fileset (option_copied after.entry)
        ≡ key ∷ keys_behind (arranged slots.now (numbers_in order.now)) fileset (Some key)) }
{
    let at = place(slots, order, &behind(fileset, after));
    if !order.has(at) {
        return None;
    }
    let slot = &slots[order.number(at) as usize];
    if slot.fileset == fileset {
        Some(slot.key)
    } else {
        None
    }
}
