ghost use Rattle.std.specs.Prelude.{◌≡◌, ◌++◌, List, ℕ, OnOk, IfOk};
ghost use Rattle.ck_report.specs.List.{listing_line, IsDate, IsListing};

use crate::date::date;
use crate::put::{put, put_word};
use crate::replies::{keep_text, state_text};
use ck_model::{CkptLine, NoMemory};
use ck_text::put_decimal;
use std::alloc::Global;

fn put_dated(out: &mut Vec<u8>, line: &CkptLine, date: &[u8]) -> Result<(), NoMemory>
    ensures { OnOk result (out.new.items ≡ out.old.items ++ listing_line line.now date.now) }
{
    put_decimal(out, u64::from(line.id))?;
    put_word(out, state_text(line.state))?;
    put_word(out, keep_text(line.removable))?;
    put_word(out, date)?;
    put_word(out, line.name.bytes())?;
    put(out, b"\n")
}

fn put_listed(alloc: Global, out: &mut Vec<u8>, line: &CkptLine) -> Result<(), NoMemory>
    ensures { OnOk result ((date : List ℕ) × IsDate line.now.ctime date × (out.new.items ≡ out.old.items ++ listing_line line.now date)) }
{
    let date = date(alloc, line.ctime)?;
    put_dated(out, line, &date)
}

/// One line for each checkpoint: its id, its state, whether it may be removed for room, when it was
/// created in UTC, and its name.
pub fn listing(alloc: Global, lines: &[CkptLine]) -> Result<Vec<u8>, NoMemory>
    ensures { IfOk result (λ text. IsListing lines.now text.items) }
{
    let mut text = Vec::new(alloc);
    for line in lines {
        put_listed(alloc, &mut text, line)?;
    }
    Ok(text)
}
