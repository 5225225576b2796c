ghost use Rattle.std.specs.Prelude.{◌≡◌, ◌≤◌, ◌<◌, true, Some, None, IsTrue, IfOk, IfErr, OnOk, OnErr, slice_get, vec_capacity};
ghost use Rattle.std.specs.Ordering.{nat_cmp};
ghost use Rattle.std.specs.FinMap.{is_sorted};
ghost use Rattle.std.specs.FinMap as map;
ghost use Rattle.ck_disk.specs.Disk.{Agrees, IsSynced};
ghost use Rattle.ck_log.specs.Layout.{OutsideGateAndAreas, size_of, table_blocks};
ghost use Rattle.ck_log.specs.FirstTable.{first_table};
ghost use Rattle.ck_log.specs.Images.{table_on, Settled};
ghost use Rattle.ck_disk.specs.Runs.{OnlyReads};
ghost use Rattle.ck_model.specs.Rules.{IsSound};
ghost use Rattle.ck_model.specs.TableWorld.{extents_of};
ghost use Rattle.ck_model.specs.Table.{IsTable, IsSized};
ghost use Rattle.ck_area.specs.Area.{AreSlots, new_table, table_of as area_table};
ghost use Rattle.ck_area.specs.Damage.{damage};
ghost use Rattle.ck_slots.specs.Maps.{AreRecords};
ghost use Rattle.ck_slots.specs.Committed.{Commits, IsCommitFault};
ghost use Rattle.ck_slots.specs.Formatted.{StandsForEmpty};
ghost use Rattle.ck_slots.specs.Opened.{IsOpened, IsOpenFault};
ghost use Rattle.ck_slots.specs.Order.{numbers_in};
ghost use Rattle.ck_slots.specs.Lawful.{table_of, IsTable-prop};
ghost use Rattle.ck_slots.specs.Written.{slots_of};

use crate::entries::Entries;
use crate::filesets::{look, next_id, set, unset};
use crate::maps::{counters_from, entries_from, filesets_from};
use crate::opened::{OpenSlots, check_slots, read_slots};
use crate::written::{push_named, spell_blocks};
use ck_disk::Disk;
use ck_log::Region;
use ck_model::{Counters, Fileset, Held, Key, Meta, NoMemory, Small};
use ck_record::Record;
use std::alloc::Global;

/// Why a table wasn't committed.
#[derive(Clone, Copy, Debug, PartialEq, Eq)]
pub enum CommitFault {
    /// A write or a sync failed.
    WriteFault,
    /// Nothing was written.
    NoMemory,
}

/// The table of a volume in memory. What changes it takes no memory.
#[derive(Drop)]
pub struct Slots {
    entries: Entries,
    filesets: Vec<(u32, Fileset)>,
    counters: Counters,
    blocks: u32,
    ghost sorted: { is_sorted nat_cmp filesets.items ≡ true },
    ghost room: { entries.limit ≤ vec_capacity filesets },
    ghost within_limits: { IsTable (table_of entries filesets.items counters blocks) } by { IsTable-prop _ },
    ghost fits: { IsSized (table_of entries filesets.items counters blocks) },
}

impl Slots {
    ghost use Rattle.ck_slots.specs.Slots.{table_in};

    /// The table of a new volume, as `Region::format` writes it into its region.
    pub fn format(alloc: Global, region: &Region) -> Result<Slots, NoMemory>
        ensures table { IfOk result
            (λ slots. table_in slots ≡ new_table region.now.blocks region.now.records) }
        ensures sound { IfOk result (λ slots. IsSound (table_in slots)) }
        ensures world { IfOk result (λ slots. StandsForEmpty (table_in slots)) }

        // It is what `Region::format` has written.
        ensures written { IfOk result
            (λ slots. AreSlots (first_table (table_blocks region.now.records))
            (slots_of region.now (table_in slots))) }
    {
        let blocks = region.blocks();
        let records = region.records();
        let mut entries = Entries::new(alloc, records)?;
        entries.put(0, &Key::Node(0), Held::Plain(0, Small::Dir));
        Ok(Slots {
            entries,
            filesets: Vec::with_capacity(alloc, records as usize)?,
            counters: Counters {
                stamp: 1,
                id: 1,
                number: 1,
            },
            blocks,
        })
    }

    /// The table that was committed last to its region.
    pub fn open<D: Disk>(alloc: Global, region: &Region, disk: &mut D) -> Result<Slots, OpenSlots>
        requires size { size_of region.now.blocks region.now.records ≤ (D.means disk.old).size }
        ensures sound { IfOk result (λ slots. IsSound (table_in slots)) }
        ensures table { IfOk result
            (λ slots. IsTrue (D.means disk.old).tells
            → IsOpened region.now (D.means disk.old) (table_in slots)) }
        ensures sizes { IfOk result
            (λ slots. ((table_in slots).blocks ≡ region.now.blocks)
            × ((table_in slots).records ≡ region.now.records)) }
        ensures refused { IfErr result
            (IsOpenFault region.now (D.means disk.old) (D.means disk.new)) }
        ensures device { OnlyReads (D.means disk.old) (D.means disk.new) }
    {
        let area = read_slots(alloc, region, disk)?;
        check_slots(alloc, region, &area)?;
        let slots = Slots::build(alloc, region, &area)?;
        Ok(slots)
    }

    /// The table of slots without damage.
    fn build(alloc: Global, region: &Region, area: &[Option<Record>]) -> Result<Slots, NoMemory>
        requires undamaged { damage region.now.blocks region.now.records area.now ≡ None }
        requires within_limits { AreRecords area.now }
        ensures table { IfOk result
            (λ slots. table_in slots ≡ area_table region.now.blocks region.now.records area.now) }
    {
        let blocks = region.blocks();
        let records = region.records();
        let entries = entries_from(alloc, records, area)?;
        let filesets = filesets_from(alloc, records, area)?;
        Ok(Slots {
            entries,
            filesets,
            counters: counters_from(area),
            blocks,
        })
    }

    /// Writes the table into its region. A stop at any moment leaves the table from before or this
    /// one. After a write fault the region may have either, until it is opened again.
    pub fn commit<D: Disk>(
        &self,
        alloc: Global,
        region: &mut Region,
        disk: &mut D,
    ) -> Result<(), CommitFault>
        requires blocks { (table_in self.now).blocks ≡ region.old.blocks }
        requires records { (table_in self.now).records ≡ region.old.records }
        requires size { size_of region.old.blocks region.old.records
            ≤ (D.means disk.old).size }

        // As a format, an opening or a commit that answered Ok left it.
        requires settled { Settled region.old (D.means disk.old) }

        ensures commits { Commits region.old (table_in self.now) (D.means disk.old)
            (D.means disk.new)
            (λ after. OnOk result
            (IsTrue (D.means disk.old).tells
            → table_on region.new (D.means disk.new).shows ≡ after)) }
        ensures settled { OnOk result (Settled region.new (D.means disk.new)) }
        ensures synced { OnOk result (IsSynced (D.means disk.new)) }
        ensures others { IsTrue (D.means disk.old).tells
            → Agrees (OutsideGateAndAreas region.old.records) (D.means disk.old).shows
            (D.means disk.new).shows }
        ensures region { region.new
            ≡ record region.old { second = region.new.second } }
        ensures kept { OnErr result (region.new ≡ region.old) }
        ensures same_disk { IfErr result
            (λ fault. fault ≡ CommitFault.NoMemory → disk.new ≡ disk.old) }
        ensures fault { IfErr result
            (IsCommitFault (D.means disk.old) (D.means disk.new)) }
    {
        let count = region.table_blocks();
        let blocks = match spell_blocks(alloc, self, count) {
            Ok(blocks) => blocks,
            Err(_) => return Err(CommitFault::NoMemory),
        };
        match region.commit(disk, &blocks) {
            Ok(()) => Ok(()),
            Err(_) => Err(CommitFault::WriteFault),
        }
    }

    /// The data blocks that the entries name, in the order of the entries.
    pub fn extents(&self, alloc: Global) -> Result<Vec<u32>, NoMemory>
        ensures { IfOk result (λ found. found.items ≡ extents_of (table_in self.now)) }
    {
        let count = self.entries.len();
        let listed = self.entries.listed(alloc)?;
        let mut found = Vec::with_capacity(alloc, count)?;
        for at in 0..count {
            let entry = self.entries.listed_at(&listed, at);
            push_named(&mut found, &entry.2);
        }
        Ok(found)
    }

    pub fn blocks(&self) -> u32
        ensures { result ≡ (table_in self.now).blocks }
    {
        self.blocks
    }

    pub fn records(&self) -> u32
        ensures { result ≡ (table_in self.now).records }
    {
        self.entries.limit
    }

    pub fn entry_count(&self) -> u32
        ensures { result ≡ map.len (table_in self.now).entries }
    {
        self.entries.len() as u32
    }

    /// The entry at this place in the order of filesets and keys.
    pub fn entry_at(&self, at: u32) -> (u32, Key, Held)
        requires { at < map.len (table_in self.now).entries }
        ensures { slice_get (map.entries (table_in self.now).entries) at
            ≡ Some ((result.0, result.1), result.2) }
    {
        self.entries.at(at as usize)
    }

    /// The numbers of the slots of the entries in one list.
    pub(crate) fn listed(&self, alloc: Global) -> Result<Vec<u32>, NoMemory>
        ensures { IfOk result (λ listed. listed.items ≡ numbers_in self.now.entries.order) }
    {
        self.entries.listed(alloc)
    }

    /// The entry at this place in that list.
    pub(crate) fn listed_at(&self, listed: &[u32], at: u32) -> (u32, Key, Held)
        requires listed { listed.now ≡ numbers_in self.now.entries.order }
        requires within { at < map.len (table_in self.now).entries }
        ensures { slice_get (map.entries (table_in self.now).entries) at
            ≡ Some ((result.0, result.1), result.2) }
    {
        self.entries.listed_at(listed, at as usize)
    }

    pub fn fileset_count(&self) -> u32
        ensures { result ≡ map.len (table_in self.now).filesets }
    {
        self.filesets.len() as u32
    }

    /// The record at this place in the order of ids.
    pub fn fileset_at(&self, at: u32) -> (u32, Fileset)
        requires { at < map.len (table_in self.now).filesets }
        ensures { slice_get (map.entries (table_in self.now).filesets) at ≡ Some result }
    {
        self.filesets[at as usize]
    }
}

impl Meta for Slots {
    ghost use Rattle.ck_slots.specs.Slots.{table_in};

    ghost table = { table_in };

    fn get(&self, fs: u32, key: &Key) -> Option<Held> {
        self.entries.get(fs, key)
    }

    fn next(&self, fs: u32, after: Option<&Key>) -> Option<Key> {
        self.entries.next(fs, after)
    }

    fn put(&mut self, fs: u32, key: &Key, held: Held) {
        self.entries.put(fs, key, held);
    }

    fn del(&mut self, fs: u32, key: &Key) {
        self.entries.remove(fs, key);
    }

    fn fileset(&self, id: u32) -> Option<Fileset> {
        look(&self.filesets, id)
    }

    fn next_fileset(&self, after: u32) -> Option<u32> {
        next_id(&self.filesets, after)
    }

    fn put_fileset(&mut self, id: u32, fileset: Fileset) {
        set(&mut self.filesets, id, fileset);
    }

    fn del_fileset(&mut self, id: u32) {
        unset(&mut self.filesets, id);
    }

    fn counters(&self) -> Counters {
        self.counters
    }

    fn set_counters(&mut self, counters: Counters) {
        self.counters = counters;
    }

    fn spare(&self) -> u32 {
        self.entries.limit - (self.entries.len() + self.filesets.len()) as u32
    }

    ghost lawful = { λ s. s.within_limits };

    ghost sized = { λ s. s.fits };
}
