ghost use Rattle.std.specs.Prelude.{◌≡◌};
ghost use Rattle.ck_stream.specs.Parsed.{Finds, id_at, full_header_at, changed_header_at, header_at, is_full, made};

use crate::fault::Flaw;
use crate::fields::{run_of, u32_of};
use crate::tag::Header;
use crate::{Changed, Full, Items, Stream};

#[tactic(auto, unfolding(crate::specs::Parsed::id_at))]
fn id_of(bytes: &[u8]) -> Result<(u32, &[u8]), Flaw>
    ensures { Finds (λ x. (x.0, x.1.now)) result (id_at bytes.now) }
{
    let (id, rest) = u32_of(bytes)?;
    if id == 0 {
        return Err(Flaw::Wrong);
    }
    Ok((id, rest))
}

#[tactic(auto, unfolding(crate::specs::Parsed::full_header_at))]
fn full_header(bytes: &[u8]) -> Result<(Header, &[u8]), Flaw>
    ensures { Finds (λ x. (x.0, x.1.now)) result (full_header_at bytes.now) }
{
    let (id, rest) = id_of(bytes)?;
    Ok((Header::Full(id), rest))
}

#[tactic(auto, unfolding(crate::specs::Parsed::changed_header_at))]
fn changed_header(bytes: &[u8]) -> Result<(Header, &[u8]), Flaw>
    ensures { Finds (λ x. (x.0, x.1.now)) result (changed_header_at bytes.now) }
{
    let (earlier, rest) = id_of(bytes)?;
    let (later, rest) = u32_of(rest)?;
    if later < earlier {
        return Err(Flaw::Wrong);
    }
    Ok((Header::Changed(earlier, later), rest))
}

/// The header, and the bytes behind it.
#[tactic(auto, unfolding(crate::specs::Parsed::header_at))]
pub fn header_of(bytes: &[u8]) -> Result<(Header, &[u8]), Flaw>
    ensures { Finds (λ x. (x.0, x.1.now)) result (header_at bytes.now) }
{
    let (magic, rest) = run_of(8, bytes)?;
    if magic == b"CKFULL01".as_slice() {
        full_header(rest)
    } else if magic == b"CKDIFF01".as_slice() {
        changed_header(rest)
    } else {
        Err(Flaw::Wrong)
    }
}

pub fn is_full(header: Header) -> bool
    ensures { result ≡ is_full header }
{
    matches!(header, Header::Full(_))
}

/// The stream with this header and these records.
pub fn made(header: Header, items: Items) -> Stream
    ensures { result ≡ made header items }
{
    match header {
        Header::Full(id) => Stream::Full(Full { id, items }),
        Header::Changed(from, to) => Stream::Changed(Changed { from, to, items }),
    }
}
