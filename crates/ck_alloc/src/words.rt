//! Words of 64 bits as a set of numbers.

ghost use Rattle.std.specs.Prelude.{◌≡◌, ℕ, ◌+◌, ◌*◌, ◌/◌, ◌<◌, ◌≤◌, ◌≢◌, ◌==◌, ◌||◌, ◌&&◌, not, length, slice_index, replicate, bit_or, IfOk, IfSome, IfNone};
ghost use Rattle.ck_alloc.specs.Bits.{has};

use ck_model::NoMemory;
use std::alloc::Global;

/// Words for no number.
pub fn zeros(alloc: Global, count: usize) -> Result<Vec<u64>, NoMemory>
    ensures { IfOk result (λ words. words.items ≡ replicate count 0) }
{
    Ok(vec![in alloc; 0; count]?)
}

/// Takes every number out.
pub fn clear(words: &mut [u64])
    ensures { words.new ≡ replicate (length words.old) 0 }
{
    words.fill(0);
}

/// Adds a number.
pub fn set_bit(words: &mut [u64], at: usize)
    requires { at < 64 * length words.old }
    ensures members { (k : ℕ) → has words.new k ≡ ((k == at) || has words.old k) }
    ensures others { (word : ℕ) → word ≢ at / 64 → slice_index words.new word ≡ slice_index words.old word }
{
    words[at / 64] |= 1 << (at % 64);
}

/// Takes a number out.
pub fn clear_bit(words: &mut [u64], at: usize)
    requires { at < 64 * length words.old }
    ensures members { (k : ℕ) → has words.new k ≡ (not (k == at) && has words.old k) }
    ensures others { (word : ℕ) → word ≢ at / 64 → slice_index words.new word ≡ slice_index words.old word }
{
    words[at / 64] &= !(1 << (at % 64));
}

/// Whether the number is in.
pub fn has_bit(words: &[u64], at: usize) -> bool
    requires { at < 64 * length words.now }
    ensures { result ≡ has words.now at }
{
    words[at / 64] >> (at % 64) & 1 == 1
}

/// The first word that has a number.
pub fn first_nonzero(words: &[u64]) -> Option<usize>
    ensures found { IfSome result (λ word. (word < length words.now) × (0 < slice_index words.now word)) }
    ensures first { IfSome result (λ word. (k : ℕ) → k < word → slice_index words.now k ≡ 0) }
    ensures none { IfNone result ((k : ℕ) → slice_index words.now k ≡ 0) }
{
    words.iter().position(|word| *word != 0)
}

/// Adds all numbers of other words.
pub fn merge(words: &mut [u64], others: &[u64])
    requires { length words.old ≡ length others.now }
    ensures { (word : ℕ) → slice_index words.new word ≡ bit_or (slice_index words.old word) (slice_index others.now word) }
{
    for i in 0..words.len() {
        words[i] |= others[i];
    }
}
