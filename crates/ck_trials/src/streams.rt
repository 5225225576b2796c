// Streams that are read, written and applied: the two ways to apply one, and the list of items for each key.
ghost use Rattle.std.specs.Prelude.{IfSome};
ghost use Rattle.ck_stream.specs.Right.{IsFull, IsChanged};

use ck_model::NoMemory;
use ck_stream::{
    ApplyFault, Base, Changed, Full, Items, Stream, StreamFault, apply, backups_apply,
    none_begins_another, read_stream, write_changed, write_full,
};
use std::alloc::Global;
use std::test::Fail;

/// What changed between a checkpoint and itself.
const NOTHING: &[u8] =
    b"CKDIFF01\x00\x00\x00\x01\x00\x00\x00\x01\x00\x00\x00\x00\x00\x00\x00\x00\x00\x31\x75\xb9\x0a\x88\xd2\xc3\xe8\x09\x02\xb0\xb8\x53\x3c\x2d\x67\x7e\x79\xc2\x67\x81\xa2\x5a\xff\x84\x6c\x50\xa4\x5e\x50\x32\x9a";

// Streams with a block of 4,096 bytes 61: what stands before it, and behind it.

const EARLIER: (&[u8], &[u8]) = (
    b"\x43\x4b\x46\x55\x4c\x4c\x30\x31\x00\x00\x00\x07\x01\x00\x00\x00\x00\x01\x61\x00\x00\x00\x01\x03\x00\x00\x00\x00\x02\x00\x00\x00\x01\x00\x00\x00\x00\x00\x00\x10\x04\x04\x00\x00\x00\x01\x00\x00\x00\x00",
    b"\x00\x00\x00\x00\x00\x00\x00\x00\x04\xe4\xc7\xaa\xf3\xbe\x18\xa5\xc4\x85\x7b\x8b\x28\x91\x1b\x29\x46\x2d\x89\xbb\x44\xb0\xc3\x6c\xd9\xf8\xd2\x0d\xe6\xcf\x5a\xc3\x76",
);

const CHANGES: (&[u8], &[u8]) = (
    b"\x43\x4b\x44\x49\x46\x46\x30\x31\x00\x00\x00\x07\x00\x00\x00\x09\x05\x00\x00\x00\x00\x01\x61\x01\x00\x00\x00\x00\x01\x62\x00\x00\x00\x02\x06\x00\x00\x00\x01\x02\x00\x00\x00\x02\x00\x00\x00\x00\x00\x00\x00\x05\x07\x00\x00\x00\x01\x00\x00\x00\x00\x04\x00\x00\x00\x02\x00\x00\x00\x00",
    b"\x00\x00\x00\x00\x00\x00\x00\x00\x06\x1c\x15\x54\x24\xe7\xe8\x61\x63\x34\x42\xa0\xa1\x37\x5b\x7d\xeb\x42\xbf\xe1\x6d\xf8\xa1\x88\x77\x1b\x60\x84\x46\xf7\x66\x3d\xe4",
);

const LATER: (&[u8], &[u8]) = (
    b"\x43\x4b\x46\x55\x4c\x4c\x30\x31\x00\x00\x00\x09\x01\x00\x00\x00\x00\x01\x62\x00\x00\x00\x02\x03\x00\x00\x00\x00\x02\x00\x00\x00\x02\x00\x00\x00\x00\x00\x00\x00\x05\x04\x00\x00\x00\x02\x00\x00\x00\x00",
    b"\x00\x00\x00\x00\x00\x00\x00\x00\x04\xfb\x43\xcf\xa3\x71\xdd\x93\x7e\x13\x37\x62\x43\xa1\xc2\xa0\xdb\xbf\x48\x47\xf2\xb3\x5e\x6d\xc0\x33\x09\x4b\x0c\xbb\xac\xe7\x40",
);

fn with_block(alloc: Global, parts: (&[u8], &[u8])) -> Result<Vec<u8>, NoMemory> {
    let (head, tail) = parts;
    let mut bytes = Vec::from_slice(alloc, head)?;
    bytes.extend_from_slice(&[0x61; 4096])?;
    bytes.extend_from_slice(tail)?;
    Ok(bytes)
}

/// The full stream in these bytes.
fn full_in(alloc: Global, bytes: &[u8]) -> Option<Full>
    ensures { IfSome result IsFull }
{
    match read_stream(alloc, bytes, 0) {
        Ok((Stream::Full(full), _)) => Some(full),
        _ => None,
    }
}

fn changed_in(alloc: Global, bytes: &[u8]) -> Option<Changed>
    ensures { IfSome result IsChanged }
{
    match read_stream(alloc, bytes, 0) {
        Ok((Stream::Changed(changed), _)) => Some(changed),
        _ => None,
    }
}

fn fault_of(alloc: Global, bytes: &[u8]) -> Option<StreamFault> {
    read_stream(alloc, bytes, 0).err()
}

#[test]
fn nothing_that_changed(rt: HostRuntime) -> Result<(), Fail> {
    let items = Items::of(Vec::new(rt.alloc()));
    let changed = Changed {
        from: 1,
        to: 1,
        items,
    };
    let bytes = write_changed(rt.alloc(), &changed)?;
    assert_eq!(rt; bytes.as_slice(), NOTHING);
    assert_eq!(rt;
        fault_of(rt.alloc(), &NOTHING[..56]),
        Some(StreamFault::Truncated(56))
    );
    Ok(())
}

#[test]
fn each_kind_of_record_is_read_and_written(rt: HostRuntime) -> Result<(), Fail> {
    let alloc = rt.alloc();
    let bytes = with_block(alloc, CHANGES)?;
    let changed = changed_in(alloc, &bytes).ok_or("a changed stream")?;
    let written = write_changed(alloc, &changed)?;
    assert_eq!(rt; written.as_slice(), bytes.as_slice());
    Ok(())
}

/// The bytes of the full stream that comes of the changes, by the list of items and by the items of each key.
fn both_later(
    alloc: Global,
    earlier: &[u8],
    changes: &[u8],
) -> Result<Option<(Vec<u8>, Vec<u8>)>, ApplyFault> {
    let Some(changed) = changed_in(alloc, changes) else {
        return Ok(None);
    };
    let (Some(first), Some(second)) = (full_in(alloc, earlier), full_in(alloc, earlier)) else {
        return Ok(None);
    };
    let by_list = write_full(alloc, &apply(alloc, first, &changed)?)?;
    let by_keys = Base::of(alloc, second)?.apply(changed)?.into_full(alloc)?;
    Ok(Some((by_list, write_full(alloc, &by_keys)?)))
}

#[test]
fn changes_are_applied_in_both_ways(rt: HostRuntime) -> Result<(), Fail> {
    let alloc = rt.alloc();
    let earlier = with_block(alloc, EARLIER)?;
    let changes = with_block(alloc, CHANGES)?;
    let later = with_block(alloc, LATER)?;
    let (by_list, by_keys) = both_later(alloc, &earlier, &changes)?.ok_or("streams")?;
    assert_eq!(rt; by_list.as_slice(), later.as_slice());
    assert_eq!(rt; by_keys.as_slice(), later.as_slice());
    let again = both_later(alloc, &later, &changes);
    assert!(rt; matches!(again, Err(ApplyFault::WrongBase { has: 9, wants: 7 })));
    Ok(())
}

#[test]
fn laws_hold() {
    none_begins_another();
    backups_apply();
}
