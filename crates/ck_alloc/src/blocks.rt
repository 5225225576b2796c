ghost use Rattle.std.specs.Prelude.{◌≡◌, ℕ, ◌≤◌, ◌<◌, ◌↔◌, IsTrue, IfOk, IfSome, IfNone, IsSome, All};
ghost use Rattle.std.specs.FinSet as set;
ghost use Rattle.ck_alloc.specs.Blocks.{used_alone, free_count, IsFree, IsPartition};

use crate::bit_set::BitSet;
use ck_model::NoMemory;
use std::alloc::Global;
use std::marker::Model;

/// The data blocks of a device. A block is used, free, or pending: given up, but not to be given
/// out before the next commit, since what was committed last may name it.
#[derive(Drop)]
pub struct Blocks {
    free: BitSet,
    pending: BitSet,
}

impl Model for Blocks {
    ghost use Rattle.std.specs.Prelude.{◌≡◌, ℕ, true, false};
    ghost use Rattle.ck_alloc.specs.Blocks.{Allocation, allocation_code};
    ghost use Rattle.ck_alloc.specs.Bits.{has};
    ghost use Rattle.ck_alloc.specs.Members.{allocation_of};

    ghost Value = { Allocation };

    ghost coded = { allocation_code };

    ghost view = { λ b. allocation_of b.free.limit (has b.free.words.items) (has b.pending.words.items) };

    ghost invariant = { λ b. (b.pending.limit ≡ b.free.limit) × ((at : ℕ) → has b.free.words.items at ≡ true → has b.pending.words.items at ≡ false) };
}

impl Blocks {
    /// All blocks below the total are free, but for the used ones.
    pub fn rebuild(alloc: Global, total: u32, used: &[u32]) -> Result<Blocks, NoMemory>
        requires { All (λ at. at < total) used.now }
        ensures value { IfOk result (λ blocks. blocks ≡ used_alone total used.now) }
        ensures partition { IfOk result IsPartition }
    {
        let mut free = BitSet::all_below(alloc, total)?;
        free.remove_all(used);
        Ok(Blocks {
            free,
            pending: BitSet::new(alloc, total)?,
        })
    }

    /// Gives out the lowest free block, which is used then.
    pub fn take(&mut self) -> Option<u32>
        ensures free { IfSome result (IsFree self.old) }
        ensures lowest { IfSome result (λ at. (other : ℕ) → IsFree self.old other → at ≤ other) }
        ensures used { IfSome result (λ at. self.new ≡ record self.old { used = set.insert self.old.used at }) }

        ensures some { IsSome result ↔ (0 < free_count self.old) }
        ensures none_free { IfNone result ((at : ℕ) → ¬ (IsFree self.old at)) }
        ensures same { IfNone result (self.new ≡ self.old) }

        ensures partition { IsPartition self.new }
    {
        let at = self.free.lowest()?;
        self.free.remove(at);
        Some(at)
    }

    /// Gives a used block up: it is pending until the blocks are settled.
    pub fn release(&mut self, at: u32)
        requires { IsTrue (set.contains self.old.used at) }
        ensures pending { self.new ≡ record self.old { used = set.remove self.old.used at; pending = set.insert self.old.pending at } }
        ensures partition { IsPartition self.new }
    {
        self.pending.insert(at);
    }

    /// Gives a used block up at once. Nothing that was committed may name it.
    pub fn give_back(&mut self, at: u32)
        requires { IsTrue (set.contains self.old.used at) }
        ensures free { self.new ≡ record self.old { used = set.remove self.old.used at } }
        ensures partition { IsPartition self.new }
    {
        self.free.insert(at);
    }

    /// Frees all pending blocks, as after a commit.
    pub fn settle(&mut self)
        ensures free { self.new ≡ record self.old { pending = set.empty } }
        ensures partition { IsPartition self.new }
    {
        self.free.absorb(&mut self.pending);
    }

    /// How many blocks are free.
    pub fn free(&self) -> u32
        ensures count { result ≡ free_count self.now }
        ensures partition { IsPartition self.now }
    {
        self.free.count()
    }

    /// How many blocks are pending.
    pub fn pending(&self) -> u32
        ensures count { result ≡ set.len self.now.pending }
        ensures partition { IsPartition self.now }
    {
        self.pending.count()
    }
}
