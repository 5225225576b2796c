ghost use Rattle.std.specs.Prelude.{◌≡◌, ◌+◌, ◌≤◌, ◌<◌, ◌++◌, IfSome, IfErr, IsTrue, OnErr, OnOk, length};
ghost use Rattle.std.specs.Option.{option_and_then};
ghost use Rattle.ck_disk.specs.Disk.{Rose};
ghost use Rattle.ck_disk.specs.Runs.{OnlyReads};
ghost use Rattle.ck_model.specs.Rules.{block_in};
ghost use Rattle.ck_read.specs.declared.fault.BlockFault.TheVariants.{ReadFault};
ghost use Rattle.ck_read.specs.Block.{bytes_of, part_of, store_on, IsFilled};

use crate::fault::BlockFault;
use ck_disk::{Block, Disk};
use ck_model::{Held, Octets};

/// The data block that a value names.
pub fn block_of(held: Option<Held>) -> Option<u32>
    ensures { result ≡ option_and_then block_in held }
{
    match held {
        Some(Held::Extent(_, block)) => Some(block),
        _ => None,
    }
}

/// Reads a data block, or gives zeros where none is named.
fn load<D: Disk>(
    disk: &mut D,
    base: u32,
    named: Option<u32>,
    into: &mut Block,
) -> Result<(), BlockFault>
    requires named { IfSome named (λ block. base + block < (D.means disk.old).size) }
    ensures bytes { OnOk result (IsTrue (D.means disk.old).tells
        → IsFilled (bytes_of (store_on (D.means disk.old).shows base) named) into.new) }
    ensures device { OnlyReads (D.means disk.old) (D.means disk.new) }
    ensures fault { OnErr result (Rose (D.means disk.old).read_faults (D.means disk.new).read_faults) }
{
    match named {
        Some(block) => disk
            .read(base + block, into)
            .map_err(|_| BlockFault::ReadFault),
        None => {
            *into = [0; 4096];
            Ok(())
        }
    }
}

/// Appends so many bytes from a place on in a data block, or zeros where none is named.
pub fn append_part<D: Disk>(
    disk: &mut D,
    base: u32,
    named: Option<u32>,
    from: usize,
    count: usize,
    bytes: &mut Octets,
) -> Result<(), BlockFault>
    requires named { IfSome named (λ block. base + block < (D.means disk.old).size) }
    requires within { from + count ≤ 4096 }
    ensures count { OnOk result (length bytes.new ≡ length bytes.old + count) }
    ensures bytes { OnOk result (IsTrue (D.means disk.old).tells
        → bytes.new ≡ bytes.old ++ part_of (store_on (D.means disk.old).shows base) named from count) }
    ensures unchanged { OnErr result (bytes.new ≡ bytes.old) }
    ensures device { OnlyReads (D.means disk.old) (D.means disk.new) }
    ensures fault { IfErr result (λ fault. fault ≡ ReadFault
        → Rose (D.means disk.old).read_faults (D.means disk.new).read_faults) }
{
    let mut block = [0; 4096];
    load(disk, base, named, &mut block)?;
    bytes.append(&block[from..from + count])?;
    Ok(())
}
