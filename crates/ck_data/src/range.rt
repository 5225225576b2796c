ghost use Rattle.std.specs.Prelude.{◌≡◌, ◌+◌, ◌≤◌, ◌<◌, ◌++◌, IsTrue, OnOk, IfOk, IfErr};
ghost use Rattle.std.specs.Option.{ForSome, option_and_then};
ghost use Rattle.ck_model.specs.Limits.{file_limit};
ghost use Rattle.ck_model.specs.Contents.{file_range};
ghost use Rattle.ck_model.specs.Values.{cells_on};
ghost use Rattle.ck_model.specs.Rules.{block_in};
ghost use Rattle.ck_model.specs.Chain.{value_at};
ghost use Rattle.ck_model.specs.TableWorld.{values_of};
ghost use Rattle.ck_files.specs.Files.{IsOurs};
ghost use Rattle.ck_data.specs.Device.{store_on};
ghost use Rattle.ck_data.specs.declared.fault.Fault.TheVariants.{ReadFault};
ghost use Rattle.ck_data.specs.Reads.{bytes_of, part_of, IsFilled, IsReadingFault};
ghost use Rattle.ck_disk.specs.Runs.{OnlyReads};

use crate::fault::Fault;
use ck_disk::{Block, Disk};
use ck_model::{BLOCK, Held, Key, Meta};
use ck_tree::{held_at, size_at};
use std::alloc::Global;

/// Where the data blocks stand: for n below `blocks`, data block n is the device's `base` + n.
#[derive(Clone, Copy, Debug, PartialEq, Eq)]
pub struct DataArea {
    pub base: u32,
    pub blocks: u32,
}

/// The data block that a value names.
pub fn block_of(held: Option<Held>) -> Option<u32>
    ensures { result ≡ option_and_then block_in held }
{
    match held {
        Some(Held::Extent(_, block)) => Some(block),
        _ => None,
    }
}

/// Reads a data block, or gives zeros where none is named.
pub fn load<D: Disk>(
    disk: &mut D,
    area: DataArea,
    named: Option<u32>,
    into: &mut Block,
) -> Result<(), Fault>
    requires named { ForSome named (λ block. block < area.blocks) }
    requires area { area.base + area.blocks ≤ (D.means disk.old).size }
    ensures bytes { OnOk result (IsTrue (D.means disk.old).tells → IsFilled (bytes_of (store_on (D.means disk.old).shows area.base) named) into.new) }
    ensures device { OnlyReads (D.means disk.old) (D.means disk.new) }
    ensures fault { IfErr result (IsReadingFault (D.means disk.old) (D.means disk.new)) }
    ensures err { IfErr result (λ fault. fault ≡ ReadFault) }
{
    match named {
        Some(block) => disk
            .read(area.base + block, into)
            .map_err(|_| Fault::ReadFault),
        None => {
            *into = [0; 4096];
            Ok(())
        }
    }
}

/// Appends so many bytes from a place on in a data block, or zeros where none is named.
fn append_part<D: Disk>(
    disk: &mut D,
    area: DataArea,
    named: Option<u32>,
    from: usize,
    count: usize,
    bytes: &mut Vec<u8>,
) -> Result<(), Fault>
    requires named { ForSome named (λ block. block < area.blocks) }
    requires area { area.base + area.blocks ≤ (D.means disk.old).size }
    requires within { from + count ≤ 4096 }
    ensures bytes { OnOk result (IsTrue (D.means disk.old).tells → bytes.new.items ≡ bytes.old.items ++ part_of (store_on (D.means disk.old).shows area.base) named from count) }
    ensures device { OnlyReads (D.means disk.old) (D.means disk.new) }
    ensures fault { IfErr result (IsReadingFault (D.means disk.old) (D.means disk.new)) }
{
    let mut block = [0; 4096];
    load(disk, area, named, &mut block)?;
    bytes.extend_from_slice(&block[from..from + count])?;
    Ok(())
}

/// At most so many bytes of a file of a fileset from a place on, as far as they stand below its
/// size.
pub fn read_range<M: Meta, D: Disk>(
    alloc: Global,
    disk: &mut D,
    area: DataArea,
    meta: &M,
    fs: u32,
    node: u32,
    at: u64,
    len: u32,
) -> Result<Vec<u8>, Fault>
    requires limit { at ≤ file_limit }
    requires ours { IsOurs (M.table meta.now) }
    requires blocks { area.blocks ≡ (M.table meta.now).blocks }
    requires area { area.base + area.blocks ≤ (D.means disk.old).size }
    ensures bytes { IfOk result (λ bytes. IsTrue (D.means disk.old).tells → bytes.items
        ≡ file_range (cells_on (store_on (D.means disk.old).shows area.base) (values_of (M.table meta.now) fs)) node at len) }
    ensures device { OnlyReads (D.means disk.old) (D.means disk.new) }
    ensures fault { IfErr result (IsReadingFault (D.means disk.old) (D.means disk.new)) }
{
    let count = size_at(meta, fs, node)
        .saturating_sub(at)
        .min(u64::from(len));
    let mut bytes = Vec::with_capacity(alloc, count as usize)?;
    let end = at + count;
    let mut place = at;
    while place < end {
        let named = block_of(held_at(meta, fs, &Key::Block(node, (place / BLOCK) as u32)));
        let from = place % BLOCK;
        let part = (BLOCK - from).min(end - place);
        append_part(disk, area, named, from as usize, part as usize, &mut bytes)?;
        place += part;
    }
    Ok(bytes)
}
