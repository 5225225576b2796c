ghost use Rattle.std.specs.Prelude.{◌≡◌, ◌++◌, OnOk, IfOk, length};
ghost use Rattle.sha2.specs.Sha256.{sha256};
ghost use Rattle.ck_stream.specs.declared.stream.Stream.TheVariants as stream;
ghost use Rattle.ck_stream.specs.Written.{key_text, payload_text, put_tag, removed_tag, item_text, items_text, end_text, text};
ghost use Rattle.ck_stream.specs.Right.{IsFull, IsChanged};

use crate::{Changed, Full, Item};
use ck_model::{Key, NoMemory, Payload};
use sha2::{Digest, Sha256};
use std::alloc::Global;

fn put(out: &mut Vec<u8>, bytes: &[u8]) -> Result<(), NoMemory>
    ensures { OnOk result (out.new.items ≡ out.old.items ++ bytes.now) }
{
    out.extend_from_slice(bytes)?;
    Ok(())
}

fn put_key(out: &mut Vec<u8>, key: &Key) -> Result<(), NoMemory>
    ensures { OnOk result (out.new.items ≡ out.old.items ++ key_text key.now) }
{
    match key {
        Key::Name(directory, name) => {
            let name = name.bytes();
            put(out, &directory.to_be_bytes())?;
            put(out, &[name.len() as u8])?;
            put(out, name)
        }
        Key::Node(node) => put(out, &node.to_be_bytes()),
        Key::Block(node, index) => {
            put(out, &node.to_be_bytes())?;
            put(out, &index.to_be_bytes())
        }
    }
}

fn put_payload(out: &mut Vec<u8>, payload: &Payload) -> Result<(), NoMemory>
    ensures { OnOk result (out.new.items ≡ out.old.items ++ payload_text payload.now) }
{
    match payload {
        Payload::To(node) => put(out, &node.to_be_bytes()),
        Payload::File(size) => put(out, &size.to_be_bytes()),
        Payload::Dir => Ok(()),
        Payload::Bytes(octets) => put(out, octets.items()),
    }
}

fn put_tag(payload: &Payload) -> u8
    ensures { result ≡ put_tag payload.now }
{
    match payload {
        Payload::To(_) => 1,
        Payload::File(_) => 2,
        Payload::Dir => 3,
        Payload::Bytes(_) => 4,
    }
}

fn removed_tag(key: &Key) -> u8
    ensures { result ≡ removed_tag key.now }
{
    match key {
        Key::Name(_, _) => 5,
        Key::Node(_) => 6,
        Key::Block(_, _) => 7,
    }
}

fn put_item(out: &mut Vec<u8>, item: &Item) -> Result<(), NoMemory>
    ensures { OnOk result (out.new.items ≡ out.old.items ++ item_text item.now) }
{
    match item {
        Item::Put(key, payload) => {
            put(out, &[put_tag(payload)])?;
            put_key(out, key)?;
            put_payload(out, payload)
        }
        Item::Removed(key) => {
            put(out, &[removed_tag(key)])?;
            put_key(out, key)
        }
    }
}

fn put_items(out: &mut Vec<u8>, items: &[Item]) -> Result<(), NoMemory>
    ensures { OnOk result (out.new.items ≡ out.old.items ++ items_text items.now) }
{
    for item in items {
        put_item(out, item)?;
    }
    Ok(())
}

/// The end's record.
fn put_end(out: &mut Vec<u8>, count: usize) -> Result<(), NoMemory>
    ensures { OnOk result (out.new.items ≡ out.old.items ++ end_text count) }
{
    put(out, &[0])?;
    put(out, &(count as u64).to_be_bytes())
}

/// The SHA-256 of what stands there.
fn put_digest(out: &mut Vec<u8>) -> Result<(), NoMemory>
    ensures { OnOk result (out.new.items ≡ out.old.items ++ sha256 out.old.items) }
{
    let digest = Sha256::digest(out.as_slice());
    put(out, &digest)
}

/// The records, the end and the digest behind a header.
fn with_items(mut out: Vec<u8>, items: &[Item]) -> Result<Vec<u8>, NoMemory>
    ensures { let body = out.items ++ (items_text items.now ++ end_text (length items.now))
        in IfOk result (λ out. out.items ≡ body ++ sha256 body) }
{
    put_items(&mut out, items)?;
    put_end(&mut out, items.len())?;
    put_digest(&mut out)?;
    Ok(out)
}

/// The bytes of a full stream.
#[tactic(auto, unfolding(crate::specs::Written::text, crate::specs::Written::body))]
pub fn write_full(alloc: Global, full: &Full) -> Result<Vec<u8>, NoMemory>
    requires { IsFull full.now }
    ensures { IfOk result (λ bytes. bytes.items ≡ text (stream.Full full.now)) }
{
    let mut out = Vec::new(alloc);
    put(&mut out, b"CKFULL01")?;
    put(&mut out, &full.id.to_be_bytes())?;
    with_items(out, full.items.items())
}

/// The bytes of a changed stream.
#[tactic(auto, unfolding(crate::specs::Written::text, crate::specs::Written::body))]
pub fn write_changed(alloc: Global, changed: &Changed) -> Result<Vec<u8>, NoMemory>
    requires { IsChanged changed.now }
    ensures { IfOk result (λ bytes. bytes.items ≡ text (stream.Changed changed.now)) }
{
    let mut out = Vec::new(alloc);
    put(&mut out, b"CKDIFF01")?;
    put(&mut out, &changed.from.to_be_bytes())?;
    put(&mut out, &changed.to.to_be_bytes())?;
    with_items(out, changed.items.items())
}
