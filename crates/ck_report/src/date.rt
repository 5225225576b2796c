ghost use Rattle.std.specs.Prelude.{◌≡◌, ◌≤◌, pos, ◌*ℤ◌, IfOk};
ghost use Rattle.jiff_core.specs.DateTime.{civil_nanos};
ghost use Rattle.ck_report.specs.List.{last_date, IsShown, IsDate};

use crate::put::put;
use ck_model::NoMemory;
use ck_text::put_decimal;
use jiff::Timestamp;
use jiff::civil::DateTime;
use jiff::tz::Offset;
use std::alloc::Global;

/// Moments up to this one are shown as dates, in seconds since 1970-01-01T00:00:00Z.
const LAST_DATE: u64 = 253_000_000_000;

/// What a clock in UTC shows so many seconds after 1970-01-01T00:00:00Z.
fn shown_at(moment: u64) -> DateTime
    requires { moment ≤ LAST_DATE }
    ensures { civil_nanos result ≡ pos moment *ℤ pos 1000000000 }
{
    Offset::UTC.to_datetime(Timestamp::from_second(moment as i64).unwrap())
}

fn shown_text(alloc: Global, moment: u64) -> Result<Vec<u8>, NoMemory>
    requires { moment ≤ LAST_DATE }
    ensures { IfOk result (λ text. IsShown moment text.items) }
{
    let shown = shown_at(moment);
    Ok(format!(in alloc; "{shown}Z")?.into_bytes())
}

/// The date and time of a moment in UTC, or its number behind `@` where that is too great.
pub fn date(alloc: Global, moment: u64) -> Result<Vec<u8>, NoMemory>
    ensures { IfOk result (λ text. IsDate moment text.items) }
{
    if moment <= LAST_DATE {
        return shown_text(alloc, moment);
    }
    let mut text = Vec::new(alloc);
    put(&mut text, b"@")?;
    put_decimal(&mut text, moment)?;
    Ok(text)
}
