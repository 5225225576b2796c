ghost use Rattle.std.specs.Prelude.{◌≡◌, ◌++◌, IfOk, OnOk};
ghost use Rattle.ck_report.specs.Words.{number_words};
ghost use Rattle.ck_admin.specs.Refusals.{not_volume_words, bad_format_words, damaged_words, bad_size_words};

use ck_model::{NoMemory, Octets};
use ck_text::put_decimal;
use std::alloc::Global;

fn put_number(out: &mut Vec<u8>, number: u32) -> Result<(), NoMemory>
    ensures { OnOk result (out.new.items ≡ out.old.items ++ number_words number) }
{
    out.extend_from_slice(b" ")?;
    put_decimal(out, u64::from(number))
}

/// A name, and a number behind it.
fn numbered(alloc: Global, name: &[u8], number: u32) -> Result<Vec<u8>, NoMemory>
    ensures { IfOk result (λ words. words.items ≡ name.now ++ number_words number) }
{
    let mut words = Vec::from_slice(alloc, name)?;
    put_number(&mut words, number)?;
    Ok(words)
}

/// A name, and two numbers behind it.
fn numbered_twice(alloc: Global, name: &[u8], first: u32, second: u32) -> Result<Octets, NoMemory>
    ensures { IfOk result (λ words. words ≡ name.now ++ number_words first ++ number_words second) }
{
    let mut words = numbered(alloc, name, first)?;
    put_number(&mut words, second)?;
    Ok(Octets::of(words))
}

/// Why a device isn't opened: it has no volume.
pub fn not_volume(alloc: Global) -> Result<Octets, NoMemory>
    ensures { IfOk result (λ words. words ≡ not_volume_words) }
{
    Ok(Octets::of(Vec::from_slice(alloc, b"NotVolume")?))
}

/// Why a device isn't opened: its volume has a format that isn't known here.
pub fn bad_format(alloc: Global, version: u32) -> Result<Octets, NoMemory>
    ensures { IfOk result (λ words. words ≡ bad_format_words version) }
{
    Ok(Octets::of(numbered(alloc, b"BadFormat", version)?))
}

/// Why a device isn't opened: a slot of its table is no record that may stand there.
pub fn damaged(alloc: Global, block: u32, slot: u32) -> Result<Octets, NoMemory>
    ensures { IfOk result (λ words. words ≡ damaged_words block slot) }
{
    numbered_twice(alloc, b"Damaged", block, slot)
}

/// Why a device isn't formatted: it has fewer blocks than the volume takes.
pub fn bad_size(alloc: Global, needs: u32, has: u32) -> Result<Octets, NoMemory>
    ensures { IfOk result (λ words. words ≡ bad_size_words needs has) }
{
    numbered_twice(alloc, b"BadSize", needs, has)
}
