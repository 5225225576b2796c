ghost use Rattle.std.specs.Prelude.{◌≡◌, ◌≤◌, ◌<◌, ◌==◌, not, Err, [], length, get_or, slice_index, IsTrue, IfOk, IfErr, OnOk, OnErr};
ghost use Rattle.ck_disk.specs.Disk.{LeavesOnly, Agrees, Outside, IsSynced, KeepsClean, Rose};
ghost use Rattle.ck_log.specs.Layout.{OutsideGateAndAreas, table_blocks, area_at, base_of, size_of};
ghost use Rattle.ck_log.specs.Images.{recovered_region, table_on, area_of, Settled, CommitLeaves};
ghost use Rattle.ck_disk.specs.Runs.{OnlyReads};
ghost use Rattle.ck_log.specs.FirstTable.{first_table, new_layout, FormatLeaves};
ghost use Rattle.ck_log.specs.Header.{Opens, header_of};
ghost use Rattle.ck_log.specs.Faults.{IsFormatFault, IsOpenFault};
ghost use Rattle.ck_log.specs.Group.{IsWhole, table_after};

use crate::faults::{FormatLog, OpenLog};
use crate::gate::{GATE, gate_block, read_gate};
use crate::header::read_sizes;
use crate::layout::{area_at, base, device_blocks, table_blocks};
use crate::setup::make_volume;
use crate::writes::{put_block, put_run};
use ck_disk::{Block, Disk, Failed};
use std::marker::Model;

/// A volume's place on a device. Its table stands in one of two areas, which the gate names; a
/// commit writes the other area, and then the gate.
#[derive(Drop)]
pub struct Region {
    blocks: u32,
    records: u32,
    second: bool,
}

impl Model for Region {
    ghost use Rattle.ck_log.specs.Layout.{Layout, layout_code, IsSized};

    ghost Value = { Layout };

    ghost coded = { layout_code };

    ghost view = { λ r. record { blocks = r.blocks; records = r.records; second = r.second } };

    ghost invariant = { λ r. IsSized r.blocks r.records };
}

impl Region {
    ghost use Rattle.ck_log.specs.Layout.{IsSized};

    /// Makes a volume on the device, with the root directory alone.
    pub fn format<D: Disk>(disk: &mut D, blocks: u32, records: u32) -> Result<Region, FormatLog>
        requires { IsSized blocks records }
        ensures region { IfOk result (λ region. region ≡ new_layout blocks records) }
        ensures size { OnOk result (size_of blocks records ≤ (D.means disk.old).size) }
        ensures volume { IfOk result
            (λ region. IsTrue (D.means disk.old).tells
            → recovered_region (D.means disk.new).shows ≡ Opens region) }
        ensures header { OnOk result
            (IsTrue (D.means disk.old).tells
            → get_or (D.means disk.new).shows 0 [] ≡ header_of blocks records) }
        ensures table { IfOk result
            (λ region. IsTrue (D.means disk.old).tells
            → table_on region (D.means disk.new).shows ≡ first_table (table_blocks records)) }
        ensures settled { IfOk result (λ region. Settled region (D.means disk.new)) }
        ensures synced { OnOk result (IsSynced (D.means disk.new)) }
        ensures any_moment { LeavesOnly (D.means disk.old) (D.means disk.new)
            (FormatLeaves (new_layout blocks records) (D.means disk.old)) }
        ensures others { IsTrue (D.means disk.old).tells
            → Agrees (Outside 0 (base_of records)) (D.means disk.old).shows
            (D.means disk.new).shows }

        // A device that is too short is left as it is.
        ensures short { (D.means disk.old).size < size_of blocks records
            → result ≡ Err (FormatLog.BadSize (size_of blocks records) (D.means disk.old).size) }
        ensures untouched { (D.means disk.old).size < size_of blocks records → disk.new ≡ disk.old }
        ensures refused { IfErr result
            (IsFormatFault (size_of blocks records) (D.means disk.old) (D.means disk.new)) }
    {
        let needs = device_blocks(blocks, records);
        let has = disk.blocks();
        if has < needs {
            return Err(FormatLog::BadSize { needs, has });
        }
        match make_volume(disk, blocks, records) {
            Ok(()) => Ok(Region {
                blocks,
                records,
                second: false,
            }),
            Err(_) => Err(FormatLog::WriteFault),
        }
    }

    /// Finds the volume on the device, with the table that was committed last.
    pub fn open_on<D: Disk>(disk: &mut D) -> Result<Region, OpenLog>
        ensures opens { IfOk result
            (λ region. IsTrue (D.means disk.old).tells
            → recovered_region (D.means disk.old).shows ≡ Opens region) }
        ensures sized { IfOk result (λ region. IsSized region.blocks region.records) }
        ensures size { IfOk result
            (λ region. size_of region.blocks region.records ≤ (D.means disk.old).size) }
        ensures settled { IfOk result (λ region. Settled region (D.means disk.new)) }
        ensures synced { OnOk result (IsSynced (D.means disk.new)) }
        ensures shows { (D.means disk.new).shows ≡ (D.means disk.old).shows }
        ensures marks { KeepsClean (D.means disk.old).written (D.means disk.new).written }
        ensures any_moment { LeavesOnly (D.means disk.old) (D.means disk.new)
            (D.means disk.old).may_leave }
        ensures refused { IfErr result (IsOpenFault (D.means disk.old) (D.means disk.new)) }
    {
        if disk.sync().is_err() {
            return Err(OpenLog::WriteFault);
        }
        let sizes = read_sizes(disk)?;
        match read_gate(disk) {
            Ok(second) => Ok(Region {
                blocks: sizes.blocks,
                records: sizes.records,
                second,
            }),
            Err(_) => Err(OpenLog::ReadFault),
        }
    }

    /// How many data blocks the volume has.
    pub fn blocks(&self) -> u32
        ensures value { result ≡ self.now.blocks }
        ensures sized { IsSized self.now.blocks self.now.records }
    {
        self.blocks
    }

    /// How many records the table may have.
    pub fn records(&self) -> u32
        ensures value { result ≡ self.now.records }
        ensures sized { IsSized self.now.blocks self.now.records }
    {
        self.records
    }

    /// The device's block that is data block 0.
    pub fn base(&self) -> u32
        ensures value { result ≡ base_of self.now.records }
        ensures sized { IsSized self.now.blocks self.now.records }
    {
        base(self.records)
    }

    /// How many blocks the table has.
    pub fn table_blocks(&self) -> u32
        ensures value { result ≡ table_blocks self.now.records }
        ensures sized { IsSized self.now.blocks self.now.records }
    {
        table_blocks(self.records)
    }

    /// The device's block at which the table begins.
    #[tactic(auto, unfolding(crate::specs::Layout::first_area))]
    pub fn area(&self) -> u32
        ensures value { result ≡ area_at self.now.records self.now.second }
        ensures low { result ≤ 8204 }
    {
        area_at(self.records, self.second)
    }

    /// Reads a block of the table.
    pub fn read<D: Disk>(&self, disk: &mut D, at: u32, into: &mut Block) -> Result<(), Failed>
        requires within { at < table_blocks self.now.records }
        requires size { size_of self.now.blocks self.now.records ≤ (D.means disk.old).size }
        ensures bytes { OnOk result
            (IsTrue (D.means disk.old).tells
            → into.new ≡ get_or (area_of self.now (D.means disk.old).shows) at []) }
        ensures device { OnlyReads (D.means disk.old) (D.means disk.new) }
        ensures cause { OnErr result
            (Rose (D.means disk.old).read_faults (D.means disk.new).read_faults) }
    {
        disk.read(area_at(self.records, self.second) + at, into)
    }

    /// Puts these blocks in place of the table, if there are any. A stop at any moment leaves the
    /// table from before or these.
    pub fn commit<D: Disk>(&mut self, disk: &mut D, table: &[Block]) -> Result<(), Failed>
        requires size { size_of self.old.blocks self.old.records ≤ (D.means disk.old).size }
        requires whole { IsWhole self.old table.now }

        // As a format, an opening or a commit that answered Ok left it.
        requires settled { Settled self.old (D.means disk.old) }

        ensures any_moment { LeavesOnly (D.means disk.old) (D.means disk.new)
            (CommitLeaves self.old
            (table_after (table_on self.old (D.means disk.old).shows) table.now)
            (D.means disk.old)) }
        ensures table { OnOk result
            (IsTrue (D.means disk.old).tells
            → table_on self.new (D.means disk.new).shows
            ≡ table_after (table_on self.old (D.means disk.old).shows) table.now) }
        ensures settled { OnOk result (Settled self.new (D.means disk.new)) }
        ensures others { IsTrue (D.means disk.old).tells
            → Agrees (OutsideGateAndAreas self.old.records) (D.means disk.old).shows
            (D.means disk.new).shows }
        ensures synced { OnOk result (0 < length table.now → IsSynced (D.means disk.new)) }
        ensures empty { table.now ≡ [] → disk.new ≡ disk.old }
        ensures region { self.new ≡ record self.old { second = self.new.second } }
        ensures same { OnErr result (self.new ≡ self.old) }
        ensures cause { OnErr result
            (Rose (D.means disk.old).write_faults (D.means disk.new).write_faults) }
    {
        if table.is_empty() {
            return Ok(());
        }
        self.put_table(disk, table)?;
        self.second = !self.second;
        Ok(())
    }

    /// Writes this table into the area that the gate doesn't name, and then a gate that names it.
    fn put_table<D: Disk>(&self, disk: &mut D, table: &[Block]) -> Result<(), Failed>
        requires whole { length table.now ≡ table_blocks self.now.records }
        requires size { size_of self.now.blocks self.now.records ≤ (D.means disk.old).size }
        requires settled { Settled self.now (D.means disk.old) }
        ensures any_moment { LeavesOnly (D.means disk.old) (D.means disk.new)
            (CommitLeaves self.now table.now (D.means disk.old)) }
        ensures table { OnOk result
            (IsTrue (D.means disk.old).tells
            → table_on self.now (D.means disk.new).shows ≡ table.now) }
        ensures settled { OnOk result
            (Settled (record self.now { second = not self.now.second }) (D.means disk.new)) }
        ensures others { IsTrue (D.means disk.old).tells
            → Agrees (OutsideGateAndAreas self.now.records) (D.means disk.old).shows
            (D.means disk.new).shows }
        ensures synced { OnOk result (IsSynced (D.means disk.new)) }
        ensures cause { OnErr result
            (Rose (D.means disk.old).write_faults (D.means disk.new).write_faults) }
    {
        put_run(disk, self.free_area(), table)?;
        put_block(disk, GATE, &self.next_gate())?;
        Ok(())
    }

    /// The first block of the area that the gate doesn't name.
    fn free_area(&self) -> u32
        ensures { result ≡ area_at self.now.records (not self.now.second) }
    {
        area_at(self.records, !self.second)
    }

    /// A gate that names that area.
    fn next_gate(&self) -> Block
        ensures { (slice_index result 0 == 71) ≡ not self.now.second }
    {
        gate_block(!self.second)
    }
}
