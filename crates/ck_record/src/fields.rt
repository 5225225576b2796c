ghost use Rattle.ck_record.specs.declared.fields.Fields.{Fields};
ghost use Rattle.std.specs.Prelude.{◌≡◌, ◌≤◌, ◌+◌, ◌^◌, ◌<◌, SomeIff, slice_index, length};
ghost use Rattle.ck_num.specs.Field.{field, with_field};
ghost use Rattle.ck_model.specs.Name.{IsName};
ghost use Rattle.ck_record.specs.Fields.{name_bytes, counted, spelled, IsFields};

use ck_model::NameBytes;
use ck_num::{get_u32, get_u64, put_u32, put_u64};

/// The greatest length of a name.
const NAME_LIMIT: usize = 40;

/// The fields of a record's bytes. What a field holds depends on the kind; one that the kind
/// doesn't use is zero.
#[derive(Clone, Copy)]
pub struct Fields {
    pub kind: u8,
    pub sub: u8,
    pub fileset: u32,
    pub stamp: u64,
    pub first: u32,
    pub second: u32,
    pub name: Option<NameBytes>,
    pub value: u64,
    pub block: u32,
}

/// Writes the fields to their places, and zeros everywhere else.
pub fn spell(fields: &Fields, into: &mut [u8; 128])
    ensures { into.new ≡ spelled fields.now }
{
    *into = [0; 128];
    into[0] = fields.kind;
    into[1] = fields.sub;
    put_u32(into, 4, fields.fileset);
    put_u64(into, 8, fields.stamp);
    put_u32(into, 16, fields.first);
    put_u32(into, 20, fields.second);
    put_name(into, &fields.name);
    put_u64(into, 112, fields.value);
    put_u32(into, 120, fields.block);
}

fn put_name(bytes: &mut [u8; 128], name: &Option<NameBytes>)
    ensures put { bytes.new ≡ with_field bytes.old 24 (counted name.now) }
    ensures short { length (name_bytes name.now) ≤ 40 }
{
    match name {
        Some(name) => {
            let text = name.bytes();
            bytes[24] = text.len() as u8;
            bytes[25..25 + text.len()].copy_from_slice(text);
        }
        None => bytes[24] = 0,
    }
}

/// Reads each field at its place. Bytes that spell no fields are read as some fields too.
pub fn read(bytes: &[u8; 128]) -> Fields
    ensures { (fields : Fields) → IsFields fields → spelled fields ≡ bytes.now → result ≡ fields }
{
    Fields {
        kind: bytes[0],
        sub: bytes[1],
        fileset: get_u32(bytes, 4),
        stamp: get_u64(bytes, 8),
        first: get_u32(bytes, 16),
        second: get_u32(bytes, 20),
        name: get_name(bytes),
        value: get_u64(bytes, 112),
        block: get_u32(bytes, 120),
    }
}

/// The name of as many bytes as byte 24 says.
fn get_name(bytes: &[u8; 128]) -> Option<NameBytes>
    ensures { let text = field bytes.now 25 (slice_index bytes.now 24)
        in SomeIff result (IsName text) text }
{
    let count = usize::from(bytes[24]);
    if count > NAME_LIMIT {
        return None;
    }
    NameBytes::read(&bytes[25..25 + count])
}
