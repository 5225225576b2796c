//! The records of a table: each is spelled in 128 bytes, and has one spelling.
#![tactic(auto)]

ghost use Rattle.std.specs.Prelude.{◌≡◌, ◌≢◌, ◌↔◌, Some, IsTrue, IfSome, IfNone};
ghost use Rattle.ck_record.specs.declared.records.Record.{Record};
ghost use Rattle.ck_record.specs.Record.{IsRecord, spelling};

mod fields;
mod from_fields;
mod numbers;
mod records;
mod to_fields;

use fields::{read, spell};
use from_fields::record_of;
pub use records::Record;
use to_fields::fields_of;

/// Writes the record's spelling.
#[tactic(auto, unfolding(crate::specs::Record::spelling))]
pub fn encode(value: &Record, into: &mut [u8; 128])
    requires { IsRecord value.now }
    ensures { into.new ≡ spelling value.now }
{
    spell(&fields_of(value), into);
}

/// The record within the limits that is spelled so, if there is one.
pub fn decode(bytes: &[u8; 128]) -> Option<Record>
    ensures spelled { IfSome result (λ value. spelling value ≡ bytes.now) }
    ensures within { IfSome result IsRecord }
    ensures only { (value : Record) → IsRecord value → spelling value ≡ bytes.now
        → result ≡ Some value }
    ensures none { IfNone result ((value : Record) → IsRecord value → spelling value ≢ bytes.now) }
{
    let found = candidate(bytes)?;
    if !is_spelled(&found, bytes) {
        return None;
    }
    Some(found)
}

/// The one record within the limits that may be spelled so.
fn candidate(bytes: &[u8; 128]) -> Option<Record>
    ensures within { IfSome result IsRecord }
    ensures only { (value : Record) → IsRecord value → spelling value ≡ bytes.now
        → result ≡ Some value }
{
    record_of(&read(bytes))
}

fn is_spelled(value: &Record, bytes: &[u8; 128]) -> bool
    requires { IsRecord value.now }
    ensures { IsTrue result ↔ (spelling value.now ≡ bytes.now) }
{
    let mut spelled = [0; 128];
    encode(value, &mut spelled);
    spelled == *bytes
}
