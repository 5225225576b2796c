// The slots of a region's table: read, and refused or not.
ghost use Rattle.std.specs.Prelude.{◌≡◌, ◌≤◌, ◌*◌, None, IfOk, IfErr, OnOk, length};
ghost use Rattle.ck_log.specs.Layout.{table_blocks, size_of};
ghost use Rattle.ck_disk.specs.Runs.{OnlyReads};
ghost use Rattle.ck_area.specs.Damage.{damage};
ghost use Rattle.ck_slots.specs.Opened.{AreReadFrom, IsRefusal, IsReadingFault};

use ck_area::{first_damage, read_block};
use ck_disk::Disk;
use ck_log::Region;
use ck_model::NoMemory;
use ck_record::Record;
use std::alloc::{AllocError, Global};

/// How many slots a block has.
const SLOTS: u32 = 32;

/// Why no table was opened in a region.
#[derive(Clone, Copy, Debug, PartialEq, Eq)]
pub enum OpenSlots {
    /// The lowest slot that breaks a rule: the device's block, and the place in it, from 0.
    Damaged { block: u32, slot: u32 },
    /// A read failed.
    ReadFault,
    NoMemory,
}

impl From<NoMemory> for OpenSlots {
    ghost use Rattle.ck_slots.specs.declared.opened.OpenSlots.TheVariants as open_slots;

    ghost from_gives = { λ _ e. e ≡ open_slots.NoMemory };

    fn from(_error: NoMemory) -> OpenSlots {
        OpenSlots::NoMemory
    }
}

impl From<AllocError> for OpenSlots {
    ghost use Rattle.ck_slots.specs.declared.opened.OpenSlots.TheVariants as open_slots;

    ghost from_gives = { λ _ e. e ≡ open_slots.NoMemory };

    fn from(_error: AllocError) -> OpenSlots {
        OpenSlots::NoMemory
    }
}

/// Reads the slots of the region's table.
pub fn read_slots<D: Disk>(
    alloc: Global,
    region: &Region,
    disk: &mut D,
) -> Result<Vec<Option<Record>>, OpenSlots>
    requires { size_of region.now.blocks region.now.records ≤ (D.means disk.old).size }
    ensures slots { IfOk result
        (λ area. AreReadFrom region.now (D.means disk.old) area.items) }
    ensures device { OnlyReads (D.means disk.old) (D.means disk.new) }
    ensures refused { IfErr result (IsReadingFault (D.means disk.old) (D.means disk.new)) }
{
    let count = region.table_blocks();
    let mut area = Vec::with_capacity(alloc, (SLOTS * count) as usize)?;
    let mut block = [0; 4096];
    for at in 0..count {
        match region.read(disk, at, &mut block) {
            Ok(()) => read_block(&block, &mut area)?,
            Err(_) => return Err(OpenSlots::ReadFault),
        }
    }
    Ok(area)
}

/// Whether a table may be built of these slots: the error says why not.
pub fn check_slots(alloc: Global, region: &Region, area: &[Option<Record>]) -> Result<(), OpenSlots>
    requires { length area.now ≡ 32 * table_blocks region.now.records }
    ensures undamaged { OnOk result
        (damage region.now.blocks region.now.records area.now ≡ None) }
    ensures refused { IfErr result (IsRefusal region.now area.now) }
{
    match first_damage(alloc, region.blocks(), region.records(), area)? {
        Some(slot) => Err(OpenSlots::Damaged {
            block: region.area() + slot / SLOTS,
            slot: slot % SLOTS,
        }),
        None => Ok(()),
    }
}
