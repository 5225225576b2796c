ghost use Rattle.std.specs.Prelude.{◌≡◌, ◌≤◌};
ghost use Rattle.ck_log.specs.Layout.{IsSized, table_blocks, first_area, area_at, base_of, size_of};

/// The blocks that a volume of so many data blocks and records takes of its device.
#[tactic(auto, unfolding(crate::specs::Layout::first_area))]
pub fn device_blocks(blocks: u32, records: u32) -> u32
    requires { IsSized blocks records }
    ensures { result ≡ size_of blocks records }
{
    base(records) + blocks
}

/// The blocks of a table of so many records.
pub fn table_blocks(records: u32) -> u32
    requires { records ≤ 262144 }
    ensures { result ≡ table_blocks records }
{
    (records + 32) / 32
}

/// The first block of the first or the second area for the table.
#[tactic(auto, unfolding(crate::specs::Layout::first_area))]
pub fn area_at(records: u32, second: bool) -> u32
    requires { records ≤ 262144 }
    ensures { result ≡ area_at records second }
{
    let table = table_blocks(records);
    let first = 2 + (table + 1024) / 1024;
    if second { first + table } else { first }
}

/// The first data block.
#[tactic(auto, unfolding(crate::specs::Layout::first_area))]
pub fn base(records: u32) -> u32
    requires { records ≤ 262144 }
    ensures { result ≡ base_of records }
{
    area_at(records, true) + table_blocks(records)
}
