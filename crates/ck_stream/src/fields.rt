ghost use Rattle.std.specs.Prelude.{◌≡◌, ◌≤◌, Some, None, IfOk, if◌then◌else◌, length};
ghost use Rattle.std.specs.Int.{w32, w64};
ghost use Rattle.ck_stream.specs.Parsed.{Reads, Finds, number_at, run_at, counted_at, is_file_name, file_name_at, index_at, size_at};

use crate::fault::Flaw;
use ck_model::NameBytes;
use ck_num::{get_u32, get_u64};

/// The greatest length of a name.
pub const NAME_LIMIT: usize = 40;

/// The greatest size of a file.
const SIZE_LIMIT: u64 = 1_073_741_824;

/// How many blocks a file of that size has.
const INDEX_END: u32 = 262_144;

/// A number, and the bytes behind it.
pub fn u32_of(bytes: &[u8]) -> Result<(u32, &[u8]), Flaw>
    ensures { Finds (λ x. (x.0, x.1.now)) result (number_at w32 bytes.now) }
{
    if bytes.len() < 4 {
        return Err(Flaw::Short);
    }
    Ok((get_u32(bytes, 0), &bytes[4..]))
}

/// A number, and the bytes behind it.
pub fn u64_of(bytes: &[u8]) -> Result<(u64, &[u8]), Flaw>
    ensures { Finds (λ x. (x.0, x.1.now)) result (number_at w64 bytes.now) }
{
    if bytes.len() < 8 {
        return Err(Flaw::Short);
    }
    Ok((get_u64(bytes, 0), &bytes[8..]))
}

/// So many bytes, and the bytes behind them.
pub fn run_of(count: usize, bytes: &[u8]) -> Result<(&[u8], &[u8]), Flaw>
    ensures { Finds (λ x. (x.0.now, x.1.now)) result (run_at count bytes.now) }
{
    if bytes.len() < count {
        return Err(Flaw::Short);
    }
    Ok(bytes.split_at(count))
}

/// The index of a block, and the bytes behind it.
#[tactic(auto, unfolding(crate::specs::Parsed::index_at))]
pub fn index_of(bytes: &[u8]) -> Result<(u32, &[u8]), Flaw>
    ensures { Finds (λ x. (x.0, x.1.now)) result (index_at bytes.now) }
{
    let (index, rest) = u32_of(bytes)?;
    if index >= INDEX_END {
        return Err(Flaw::Wrong);
    }
    Ok((index, rest))
}

/// The size of a file, and the bytes behind it.
#[tactic(auto, unfolding(crate::specs::Parsed::size_at))]
pub fn size_of(bytes: &[u8]) -> Result<(u64, &[u8]), Flaw>
    ensures { Finds (λ x. (x.0, x.1.now)) result (size_at bytes.now) }
{
    let (size, rest) = u64_of(bytes)?;
    if size > SIZE_LIMIT {
        return Err(Flaw::Wrong);
    }
    Ok((size, rest))
}

/// As many bytes as the first one says, if a name may have so many, and the bytes behind them.
#[tactic(auto, unfolding(crate::specs::Parsed::counted_at))]
pub fn counted_of(bytes: &[u8]) -> Result<(&[u8], &[u8]), Flaw>
    ensures found { Finds (λ x. (x.0.now, x.1.now)) result (counted_at bytes.now) }
    ensures some { IfOk result (λ x. 1 ≤ length x.0.now) }
    ensures few { IfOk result (λ x. length x.0.now ≤ NAME_LIMIT) }
{
    match bytes {
        [] => Err(Flaw::Short),
        [count, rest @ ..] => {
            let count = usize::from(*count);
            if count == 0 || count > NAME_LIMIT {
                return Err(Flaw::Wrong);
            }
            run_of(count, rest)
        }
    }
}

fn file_name(bytes: &[u8]) -> Option<NameBytes>
    ensures { result ≡ (if is_file_name bytes.now then Some bytes.now else None) }
{
    let name = NameBytes::read(bytes)?;
    name.is_file_name().then_some(name)
}

/// A name behind its length, and the bytes behind it.
#[tactic(auto, unfolding(crate::specs::Parsed::file_name_at))]
pub fn name_of(bytes: &[u8]) -> Result<(NameBytes, &[u8]), Flaw>
    ensures { Reads (λ x. (x.0, x.1.now)) result (file_name_at bytes.now) }
{
    let (run, rest) = counted_of(bytes)?;
    match file_name(run) {
        Some(name) => Ok((name, rest)),
        None => Err(Flaw::Wrong),
    }
}
