ghost use Rattle.std.specs.Prelude.{◌≡◌, ◌≤◌, ◌↔◌, All, IsTrue, length};
ghost use Rattle.std.specs.List.{list_all};
ghost use Rattle.ck_model.specs.declared.key.Key.{Key};
ghost use Rattle.ck_model.specs.Name.{IsNameByte, IsFileName};
ghost use Rattle.ck_stream.specs.Parsed.{Finds, is_name_byte, file_name_at, name_at, node_at, block_at, key_at, item_at, follows, item_in, record_at};
ghost use Rattle.ck_stream.specs.SeenKey.{key_seen, last_seen, keyed};

use crate::fault::Flaw;
use crate::fields::{NAME_LIMIT, counted_of, index_of, run_of, size_of, u32_of};
use crate::order::compare_seen;
use crate::records::{BLOCK_LEN, tag_of};
use crate::seen::SeenKey;
use crate::tag::Tag;

fn is_name_byte(byte: u8) -> bool
    ensures { result ≡ is_name_byte byte }
{
    byte >= 33 && byte <= 126 && byte != b'/'
}

/// Whether all are bytes of a name. Each is looked at, so that the processor takes them together.
fn are_name_bytes(bytes: &[u8]) -> bool
    ensures { result ≡ list_all is_name_byte bytes.now }
{
    let mut all = true;
    for byte in bytes {
        all &= is_name_byte(*byte);
    }
    all
}

/// The same, eight bytes at a time.
fn may_be_named(bytes: &[u8]) -> bool
    ensures { IsTrue result ↔ All IsNameByte bytes.now }
{
    let mut rest = bytes;
    while let Some((eight, behind)) = rest.split_first_chunk::<8>() {
        if !are_name_bytes(eight) {
            return false;
        }
        rest = behind;
    }
    are_name_bytes(rest)
}

/// Whether a directory may hold a name of these bytes.
fn is_file_name(bytes: &[u8]) -> bool
    requires some { 1 ≤ length bytes.now }
    requires few { length bytes.now ≤ NAME_LIMIT }
    ensures { IsTrue result ↔ IsFileName bytes.now }
{
    may_be_named(bytes) && !matches!(bytes, b"." | b"..")
}

/// A name where it stands behind its length, and the bytes behind it.
#[tactic(auto, unfolding(crate::specs::Parsed::file_name_at))]
fn name_in(bytes: &[u8]) -> Result<(&[u8], &[u8]), Flaw>
    ensures { Finds (λ x. (x.0.now, x.1.now)) result (file_name_at bytes.now) }
{
    let (name, rest) = counted_of(bytes)?;
    if !is_file_name(name) {
        return Err(Flaw::Wrong);
    }
    Ok((name, rest))
}

#[tactic(auto, unfolding(crate::specs::Parsed::name_at))]
fn name_key(bytes: &[u8]) -> Result<(SeenKey, &[u8]), Flaw>
    ensures { Finds (λ x. (key_seen x.0, x.1.now)) result (name_at bytes.now) }
{
    let (directory, rest) = u32_of(bytes)?;
    let (name, rest) = name_in(rest)?;
    Ok((SeenKey::Name(directory, name), rest))
}

#[tactic(auto, unfolding(crate::specs::Parsed::node_at))]
fn node_key(bytes: &[u8]) -> Result<(SeenKey, &[u8]), Flaw>
    ensures { Finds (λ x. (key_seen x.0, x.1.now)) result (node_at bytes.now) }
{
    let (node, rest) = u32_of(bytes)?;
    Ok((SeenKey::Node(node), rest))
}

#[tactic(auto, unfolding(crate::specs::Parsed::block_at))]
fn block_key(bytes: &[u8]) -> Result<(SeenKey, &[u8]), Flaw>
    ensures { Finds (λ x. (key_seen x.0, x.1.now)) result (block_at bytes.now) }
{
    let (node, rest) = u32_of(bytes)?;
    let (index, rest) = index_of(rest)?;
    Ok((SeenKey::Block(node, index), rest))
}

#[tactic(auto, unfolding(crate::specs::Parsed::key_at))]
fn key_of(tag: Tag, bytes: &[u8]) -> Result<(SeenKey, &[u8]), Flaw>
    ensures { Finds (λ x. (key_seen x.0, x.1.now)) result (key_at tag bytes.now) }
{
    match tag {
        Tag::Name | Tag::RemovedName => name_key(bytes),
        Tag::File | Tag::Dir | Tag::RemovedNode => node_key(bytes),
        Tag::Block | Tag::RemovedBlock => block_key(bytes),
    }
}

/// The bytes behind what stands behind a key.
#[tactic(auto, unfolding(crate::specs::Parsed::item_at, crate::specs::Parsed::named_at, crate::specs::Parsed::file_at, crate::specs::Parsed::bytes_at))]
fn behind_payload(tag: Tag, bytes: &[u8]) -> Result<&[u8], Flaw>
    ensures { (key : Key) → Finds (λ rest. (key, rest.now)) result (keyed (item_at tag key bytes.now)) }
{
    match tag {
        Tag::Name => {
            let (_, rest) = u32_of(bytes)?;
            Ok(rest)
        }
        Tag::File => {
            let (_, rest) = size_of(bytes)?;
            Ok(rest)
        }
        Tag::Block => {
            let (_, rest) = run_of(BLOCK_LEN, bytes)?;
            Ok(rest)
        }
        Tag::Dir | Tag::RemovedName | Tag::RemovedNode | Tag::RemovedBlock => Ok(bytes),
    }
}

/// Whether a key may stand behind this one.
fn may_follow(last: Option<SeenKey>, key: SeenKey) -> bool
    ensures { result ≡ follows (last_seen last.entry) (key_seen key.entry) }
{
    match last {
        None => true,
        Some(last) => compare_seen(last, key).is_lt(),
    }
}

/// Passes over what stands behind the key, if the key may stand there.
fn pass_behind<'a>(
    last: Option<SeenKey<'a>>,
    tag: Tag,
    key: SeenKey<'a>,
    bytes: &'a [u8],
) -> Result<(SeenKey<'a>, &'a [u8]), Flaw>
    ensures { Finds (λ x. (key_seen x.0, x.1.now)) result
        (keyed (item_in (last_seen last.entry) tag (key_seen key.entry, bytes.now))) }
{
    if !may_follow(last, key) {
        return Err(Flaw::Wrong);
    }
    let rest = behind_payload(tag, bytes)?;
    Ok((key, rest))
}

/// Passes over the record that begins with this tag, behind the tag: its key, and the bytes behind
/// the record. It is checked as reading it does, and nothing is kept of it.
#[tactic(auto, unfolding(crate::specs::Parsed::record_at))]
pub fn pass_record<'a>(
    full: bool,
    last: Option<SeenKey<'a>>,
    number: u8,
    bytes: &'a [u8],
) -> Result<(SeenKey<'a>, &'a [u8]), Flaw>
    ensures { Finds (λ x. (key_seen x.0, x.1.now)) result
        (keyed (record_at full (last_seen last.entry) number bytes.now)) }
{
    let tag = tag_of(full, number)?;
    let (key, rest) = key_of(tag, bytes)?;
    pass_behind(last, tag, key, rest)
}
