ghost use Rattle.std.specs.Prelude.{◌≡◌, ◌<◌, ◌≤◌, ◌+◌, None, Some, IfSome, IfOk, IfErr, IsTrue};
ghost use Rattle.std.specs.Option.{option_copied};
ghost use Rattle.ck_disk.specs.Disk.{Rose};
ghost use Rattle.ck_model.specs.Chain.{is_live, is_live_data};
ghost use Rattle.ck_model.specs.Rules.{block_in, IsOrderly, IsOwn};
ghost use Rattle.ck_model.specs.TableWorld.{values_of};
ghost use Rattle.ck_model.specs.Streams.{changed};
ghost use Rattle.ck_model.specs.Values.{cell_on, cells_on, payload_of, Store};
ghost use Rattle.ck_changed.specs.declared.compare.LoadFault.TheVariants as load;
ghost use Rattle.ck_changed.specs.Compare.{after_of, cells_from, IsAnswer, IsNextOf, refusal_of, store_on};
ghost use Rattle.ck_disk.specs.Runs.{OnlyReads};

use crate::difference::next_difference;
use ck_disk::Disk;
use ck_model::{Held, Key, Kind, Meta, Octets, Payload, Small};
use std::alloc::Global;

/// What a turn of a comparison gives.
#[derive(Debug, Drop)]
pub enum Next {
    /// The key's new contents.
    Put(Key, Payload),
    /// A key that isn't there any more.
    Removed(Key),
    /// No key is left.
    End,
    /// The checkpoint left the list.
    Gone(u32),
    /// The checkpoint keeps no data.
    NoData(u32),
    ReadFault,
    NoMemory,
}

#[derive(Clone, Copy, Debug, PartialEq, Eq)]
enum LoadFault {
    ReadFault,
    NoMemory,
}

/// A comparison of two checkpoints under way: the last key that was given.
#[derive(Clone, Copy, Debug, PartialEq, Eq)]
pub struct Compare {
    /// The older checkpoint, 0 for an empty map.
    pub from: u32,
    pub to: u32,
    pub after: Option<Key>,
}

fn is_live<M: Meta>(meta: &M, fs: u32) -> bool
    ensures { result ≡ is_live (M.table meta.now) fs }
{
    meta.fileset(fs).is_some_and(|fileset| !fileset.gone)
}

fn is_live_data<M: Meta>(meta: &M, fs: u32) -> bool
    ensures { result ≡ is_live_data (M.table meta.now) fs }
{
    meta.fileset(fs)
        .is_some_and(|fileset| !fileset.gone && fileset.kind == Kind::Keeping)
}

// Which checkpoint is gone or keeps no data.
fn refusal<M: Meta>(meta: &M, from: u32, to: u32) -> Option<Next>
    ensures { result ≡ refusal_of (M.table meta.now) from to }
{
    if from != 0 && !is_live(meta, from) {
        return Some(Next::Gone(from));
    }
    if !is_live(meta, to) {
        return Some(Next::Gone(to));
    }
    if !is_live_data(meta, to) {
        return Some(Next::NoData(to));
    }
    None
}

fn payload_of(small: Small) -> Payload
    ensures { result ≡ payload_of small }
{
    match small {
        Small::To(node) => Payload::To(node),
        Small::File(size) => Payload::File(size),
        Small::Dir => Payload::Dir,
    }
}

// The contents of a value that isn't a mark.
fn load<D: Disk>(alloc: Global, disk: &mut D, base: u32, held: Held) -> Result<Payload, LoadFault>
    requires own { IsOwn held }
    requires block { IfSome (block_in held) (λ block. base + block < (D.means disk.old).size) }
    ensures payload { IfOk result (λ payload. IsTrue (D.means disk.old).tells
        → (cell_on (store_on (D.means disk.old).shows base) held).payload ≡ Some payload) }
    ensures device { OnlyReads (D.means disk.old) (D.means disk.new) }
    ensures fault { IfErr result (λ fault. fault ≡ load.ReadFault
        → Rose (D.means disk.old).read_faults (D.means disk.new).read_faults) }
{
    match held {
        Held::Plain(_, small) => Ok(payload_of(small)),
        Held::Extent(_, at) => {
            let mut block = [0; 4096];
            if disk.read(base + at, &mut block).is_err() {
                return Err(LoadFault::ReadFault);
            }
            match Vec::from_slice(alloc, &block) {
                Ok(bytes) => Ok(Payload::Bytes(Octets::of(bytes))),
                Err(_) => Err(LoadFault::NoMemory),
            }
        }
        Held::Absent => unreachable!(),
        Held::Mark(_) => unreachable!(),
    }
}

// The next difference behind a key, or why there is none.
fn answer<M: Meta, D: Disk>(
    alloc: Global,
    meta: &M,
    disk: &mut D,
    base: u32,
    from: u32,
    to: u32,
    after: Option<&Key>,
) -> Next
    requires area { base + (M.table meta.now).blocks ≤ (D.means disk.old).size }
    requires orderly { IsOrderly (M.table meta.now) }
    ensures refused { IfSome (refusal_of (M.table meta.now) from to) (λ answer. result ≡ answer) }
    ensures answer { refusal_of (M.table meta.now) from to ≡ None
        → IsAnswer (D.means disk.old) (D.means disk.new) result }
    ensures next { let t = M.table meta.now in
        refusal_of t from to ≡ None → IsTrue (D.means disk.old).tells
        → (s : Store) → IsNextOf (changed (cells_from s t from)
        (cells_on (store_on (D.means disk.old).shows base) (values_of t to)))
        (option_copied after.entry) result }
    ensures device { OnlyReads (D.means disk.old) (D.means disk.new) }
{
    if let Some(answer) = refusal(meta, from, to) {
        return answer;
    }
    let Some((key, new)) = next_difference(meta, from, to, after) else {
        return Next::End;
    };
    let Some(held) = new else {
        return Next::Removed(key);
    };
    match load(alloc, disk, base, held) {
        Ok(payload) => Next::Put(key, payload),
        Err(LoadFault::ReadFault) => Next::ReadFault,
        Err(LoadFault::NoMemory) => Next::NoMemory,
    }
}

fn after_of(after: Option<Key>, next: &Next) -> Option<Key>
    ensures { result ≡ after_of after next.now }
{
    match next {
        Next::Put(key, _) => Some(*key),
        Next::Removed(key) => Some(*key),
        _ => after,
    }
}

impl Compare {
    /// A comparison from the first key on; `from` 0 compares with an empty map.
    pub fn start(from: u32, to: u32) -> Compare
        ensures from { result.from ≡ from }
        ensures to { result.to ≡ to }
        ensures after { result.after ≡ None }
    {
        Compare {
            from,
            to,
            after: None,
        }
    }

    /// The next key at which presence or stamp differ. It looks first whether a checkpoint is gone
    /// or keeps no data.
    pub fn turn<M: Meta, D: Disk>(
        &mut self,
        alloc: Global,
        meta: &M,
        disk: &mut D,
        base: u32,
    ) -> Next
        requires area { base + (M.table meta.now).blocks ≤ (D.means disk.old).size }
        requires orderly { IsOrderly (M.table meta.now) }
        ensures refused { IfSome (refusal_of (M.table meta.now) self.old.from self.old.to)
            (λ answer. result ≡ answer) }
        ensures answer { refusal_of (M.table meta.now) self.old.from self.old.to ≡ None
            → IsAnswer (D.means disk.old) (D.means disk.new) result }
        ensures next { let t = M.table meta.now in
            refusal_of t self.old.from self.old.to ≡ None → IsTrue (D.means disk.old).tells
            → (s : Store) → IsNextOf (changed (cells_from s t self.old.from)
            (cells_on (store_on (D.means disk.old).shows base) (values_of t self.old.to)))
            self.old.after result }
        ensures device { OnlyReads (D.means disk.old) (D.means disk.new) }
        ensures place { self.new ≡ record self.old { after = after_of self.old.after result } }
    {
        let next = answer(
            alloc,
            meta,
            disk,
            base,
            self.from,
            self.to,
            self.after.as_ref(),
        );
        self.after = after_of(self.after, &next);
        next
    }
}
