ghost use Rattle.std.specs.Prelude.{◌≡◌, None};
ghost use Rattle.ck_stream.specs.Parsed.{Reads, tag_at, name_at, node_at, block_at, key_at, named_at, file_at, bytes_at, item_at, follows, item_in, record_at};

use crate::Item;
use crate::fault::Flaw;
use crate::fields::{index_of, name_of, run_of, size_of, u32_of};
use crate::order::compare;
use crate::tag::Tag;
use ck_model::{Key, Octets, Payload};
use std::alloc::Global;

/// The length of a block.
pub const BLOCK_LEN: usize = 4096;

/// The kind of record that begins with this tag. A full stream has none that removes.
pub fn tag_of(full: bool, number: u8) -> Result<Tag, Flaw>
    ensures { result ≡ tag_at full number }
{
    match number {
        1 => Ok(Tag::Name),
        2 => Ok(Tag::File),
        3 => Ok(Tag::Dir),
        4 => Ok(Tag::Block),
        _ if full => Err(Flaw::Wrong),
        5 => Ok(Tag::RemovedName),
        6 => Ok(Tag::RemovedNode),
        7 => Ok(Tag::RemovedBlock),
        _ => Err(Flaw::Wrong),
    }
}

#[tactic(auto, unfolding(crate::specs::Parsed::name_at))]
fn name_key(bytes: &[u8]) -> Result<(Key, &[u8]), Flaw>
    ensures { Reads (λ x. (x.0, x.1.now)) result (name_at bytes.now) }
{
    let (directory, rest) = u32_of(bytes)?;
    match name_of(rest) {
        Ok((name, rest)) => Ok((Key::Name(directory, name), rest)),
        Err(flaw) => Err(flaw),
    }
}

#[tactic(auto, unfolding(crate::specs::Parsed::node_at))]
fn node_key(bytes: &[u8]) -> Result<(Key, &[u8]), Flaw>
    ensures { Reads (λ x. (x.0, x.1.now)) result (node_at bytes.now) }
{
    let (node, rest) = u32_of(bytes)?;
    Ok((Key::Node(node), rest))
}

#[tactic(auto, unfolding(crate::specs::Parsed::block_at))]
fn block_key(bytes: &[u8]) -> Result<(Key, &[u8]), Flaw>
    ensures { Reads (λ x. (x.0, x.1.now)) result (block_at bytes.now) }
{
    let (node, rest) = u32_of(bytes)?;
    let (index, rest) = index_of(rest)?;
    Ok((Key::Block(node, index), rest))
}

#[tactic(auto, unfolding(crate::specs::Parsed::key_at))]
fn key_of(tag: Tag, bytes: &[u8]) -> Result<(Key, &[u8]), Flaw>
    ensures { Reads (λ x. (x.0, x.1.now)) result (key_at tag bytes.now) }
{
    match tag {
        Tag::Name | Tag::RemovedName => name_key(bytes),
        Tag::File | Tag::Dir | Tag::RemovedNode => node_key(bytes),
        Tag::Block | Tag::RemovedBlock => block_key(bytes),
    }
}

#[tactic(auto, unfolding(crate::specs::Parsed::named_at))]
fn named(key: Key, bytes: &[u8]) -> Result<(Item, &[u8]), Flaw>
    ensures { Reads (λ x. (x.0, x.1.now)) result (named_at key bytes.now) }
{
    let (node, rest) = u32_of(bytes)?;
    Ok((Item::Put(key, Payload::To(node)), rest))
}

#[tactic(auto, unfolding(crate::specs::Parsed::file_at))]
fn file(key: Key, bytes: &[u8]) -> Result<(Item, &[u8]), Flaw>
    ensures { Reads (λ x. (x.0, x.1.now)) result (file_at key bytes.now) }
{
    let (size, rest) = size_of(bytes)?;
    Ok((Item::Put(key, Payload::File(size)), rest))
}

#[tactic(auto, unfolding(crate::specs::Parsed::bytes_at))]
fn block(alloc: Global, key: Key, bytes: &[u8]) -> Result<(Item, &[u8]), Flaw>
    ensures { Reads (λ x. (x.0, x.1.now)) result (bytes_at key bytes.now) }
{
    let (run, rest) = run_of(BLOCK_LEN, bytes)?;
    let octets = Octets::of(Vec::from_slice(alloc, run)?);
    Ok((Item::Put(key, Payload::Bytes(octets)), rest))
}

/// What stands behind the key.
#[tactic(auto, unfolding(crate::specs::Parsed::item_at))]
fn item_of(alloc: Global, tag: Tag, key: Key, bytes: &[u8]) -> Result<(Item, &[u8]), Flaw>
    ensures { Reads (λ x. (x.0, x.1.now)) result (item_at tag key bytes.now) }
{
    match tag {
        Tag::Name => named(key, bytes),
        Tag::File => file(key, bytes),
        Tag::Dir => Ok((Item::Put(key, Payload::Dir), bytes)),
        Tag::Block => block(alloc, key, bytes),
        Tag::RemovedName | Tag::RemovedNode | Tag::RemovedBlock => Ok((Item::Removed(key), bytes)),
    }
}

/// Whether a key may stand behind this one.
fn may_follow(last: &Option<Key>, key: &Key) -> bool
    ensures { result ≡ follows last.now key.now }
{
    match last {
        None => true,
        Some(last) => compare(last, key).is_lt(),
    }
}

/// What stands behind the key, if the key may stand there.
fn item_behind<'a>(
    alloc: Global,
    last: &Option<Key>,
    tag: Tag,
    key: Key,
    bytes: &'a [u8],
) -> Result<(Item, &'a [u8]), Flaw>
    ensures { Reads (λ x. (x.0, x.1.now)) result (item_in last.now tag (key, bytes.now)) }
{
    if !may_follow(last, &key) {
        return Err(Flaw::Wrong);
    }
    item_of(alloc, tag, key, bytes)
}

/// The record that begins with this tag, behind the tag.
#[tactic(auto, unfolding(crate::specs::Parsed::record_at))]
pub fn record_of<'a>(
    alloc: Global,
    full: bool,
    last: &Option<Key>,
    number: u8,
    bytes: &'a [u8],
) -> Result<(Item, &'a [u8]), Flaw>
    ensures { Reads (λ x. (x.0, x.1.now)) result (record_at full last.now number bytes.now) }
{
    let tag = tag_of(full, number)?;
    match key_of(tag, bytes) {
        Ok((key, rest)) => item_behind(alloc, last, tag, key, rest),
        Err(flaw) => Err(flaw),
    }
}
