ghost use Rattle.std.specs.Prelude.{◌≡◌, ◌≢◌, ◌+◌, ◌≤◌, ◌<◌, ◌++◌, [], Ok, Err, IfOk, IfErr, IsTrue, OnErr, OnOk, length, min, true};
ghost use Rattle.ck_disk.specs.Disk.{Rose};
ghost use Rattle.ck_disk.specs.Runs.{OnlyReads};
ghost use Rattle.ck_model.specs.Cells.{size_at};
ghost use Rattle.ck_model.specs.Chain.{is_live_data};
ghost use Rattle.ck_model.specs.Limits.{file_limit};
ghost use Rattle.ck_model.specs.Rules.{IsOrderly};
ghost use Rattle.ck_model.specs.Values.{Store};
ghost use Rattle.ck_read.specs.declared.fault.BlockFault.TheVariants.{ReadFault};
ghost use Rattle.ck_read.specs.declared.fault.StartFault.TheVariants.{NoMemory};
ghost use Rattle.ck_read.specs.Block.{map_on, store_on};
ghost use Rattle.ck_read.specs.Progress.{is_through, next_part, next_place, part_len, turns_had, IsUnderWay, ReadFits};
ghost use Rattle.ck_read.specs.StartFault.{content_on, file_in, file_read, file_size};

use crate::block::{append_part, block_of};
use crate::checkpoint::keeps_files;
use crate::fault::{BlockFault, StartFault};
use ck_chain::{is_live, value};
use ck_disk::Disk;
use ck_model::{BLOCK, Held, Key, Meta, Octets, Small, WalkFault};
use std::alloc::Global;

/// A read of a checkpoint's file under way.
#[derive(Debug, Drop)]
pub struct ReadProgress {
    pub ckpt: u32,
    pub node: u32,
    /// The range's first place in the file.
    pub from: u64,
    /// The place behind the range's last one.
    pub to: u64,
    /// What was read of the range, from its beginning on.
    pub bytes: Octets,
}

fn size_in(held: Option<Held>) -> Result<u64, StartFault>
    ensures { (store : Store) → result ≡ file_size (content_on store held) }
{
    match held {
        Some(Held::Plain(_, Small::File(size))) => Ok(size),
        Some(Held::Plain(_, Small::Dir)) => Err(StartFault::IsDir),
        _ => Ok(0),
    }
}

// The size of a checkpoint's file.
fn size_of<M: Meta>(meta: &M, ckpt: u32, node: u32) -> Result<u64, StartFault>
    requires live { is_live_data (M.table meta.now) ckpt ≡ true }
    ensures file { (store : Store) → IfOk result (λ size. file_in (map_on store (M.table meta.now) ckpt) (Ok node) ≡ Ok node) }
    ensures size { (store : Store) → IfOk result (λ size. size ≡ size_at (map_on store (M.table meta.now) ckpt) node) }
    ensures limit { IfOk result (λ size. size ≤ file_limit) }
    ensures refused { (store : Store) → IfErr result (λ why. file_in (map_on store (M.table meta.now) ckpt) (Ok node) ≡ Err why) }
{
    size_in(value(meta, ckpt, &Key::Node(node)))
}

/// Begins to read at most so many bytes of a checkpoint's file from a place on, as far as they
/// stand below its size. The walk is what the path of the file comes to in the checkpoint.
pub fn start<M: Meta>(
    alloc: Global,
    meta: &M,
    ckpt: u32,
    walk: Result<u32, WalkFault>,
    at: u64,
    len: u32,
) -> Result<ReadProgress, StartFault>
    ensures refused { IfErr result (λ why. why ≢ NoMemory → (store : Store) →
        file_read (M.table meta.now) (map_on store (M.table meta.now) ckpt) ckpt walk ≡ Err why) }
    ensures node { IfOk result (λ progress. (store : Store) →
        file_read (M.table meta.now) (map_on store (M.table meta.now) ckpt) ckpt walk ≡ Ok progress.node) }
    ensures ckpt { IfOk result (λ progress. progress.ckpt ≡ ckpt) }
    ensures from { IfOk result (λ progress. progress.from ≡ at) }
    ensures to { IfOk result (λ progress. (store : Store) →
        progress.to ≡ min (at + len) (size_at (map_on store (M.table meta.now) ckpt) progress.node)) }
    ensures none { IfOk result (λ progress. progress.bytes ≡ []) }
    ensures fits { IfOk result (λ progress. (store : Store) →
        ReadFits (map_on store (M.table meta.now) ckpt) progress) }
    ensures had { IfOk result (λ progress. turns_had progress ≡ 0) }
{
    if !is_live(meta, ckpt) {
        return Err(StartFault::Gone);
    }
    if !keeps_files(meta, ckpt) {
        return Err(StartFault::NoData);
    }
    let node = walk?;
    let size = size_of(meta, ckpt, node)?;
    let to = at.saturating_add(u64::from(len)).min(size);
    let bytes = Vec::with_capacity(alloc, to.saturating_sub(at) as usize)?;
    Ok(ReadProgress {
        ckpt,
        node,
        from: at,
        to,
        bytes: Octets::of(bytes),
    })
}

impl ReadProgress {
    // Where the next byte stands in the file.
    fn next_place(&self) -> u64
        requires { IsUnderWay self.now }
        ensures { result ≡ next_place self.now }
    {
        self.from + self.bytes.items().len() as u64
    }

    pub(crate) fn is_through(&self) -> bool
        requires { IsUnderWay self.now }
        ensures { result ≡ is_through self.now }
    {
        self.to <= self.next_place()
    }

    /// Appends what stands of the range in the block of the next byte, if there is one.
    pub(crate) fn read_block<M: Meta, D: Disk>(
        &mut self,
        meta: &M,
        disk: &mut D,
        base: u32,
    ) -> Result<(), BlockFault>
        requires area { base + (M.table meta.now).blocks ≤ (D.means disk.old).size }
        requires orderly { IsOrderly (M.table meta.now) }
        requires live { is_live_data (M.table meta.now) self.old.ckpt ≡ true }
        requires under_way { IsUnderWay self.old }
        ensures others { self.new ≡ record self.old { bytes = self.new.bytes } }
        ensures count { OnOk result (length self.new.bytes ≡ length self.old.bytes + part_len self.old) }
        ensures bytes { OnOk result (IsTrue (D.means disk.old).tells → self.new.bytes ≡ self.old.bytes
            ++ next_part (map_on (store_on (D.means disk.old).shows base) (M.table meta.now) self.old.ckpt) self.old) }
        ensures unchanged { OnErr result (self.new ≡ self.old) }
        ensures device { OnlyReads (D.means disk.old) (D.means disk.new) }
        ensures fault { IfErr result (λ fault. fault ≡ ReadFault
            → Rose (D.means disk.old).read_faults (D.means disk.new).read_faults) }
    {
        let place = self.next_place();
        if self.to <= place {
            return Ok(());
        }
        let from = place % BLOCK;
        let count = (BLOCK - from).min(self.to - place);
        let index = (place / BLOCK) as u32;
        let named = block_of(value(meta, self.ckpt, &Key::Block(self.node, index)));
        append_part(
            disk,
            base,
            named,
            from as usize,
            count as usize,
            &mut self.bytes,
        )
    }
}
