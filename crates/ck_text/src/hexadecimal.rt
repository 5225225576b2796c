ghost use Rattle.std.specs.Prelude.{◌≡◌, ◌++◌, ◌↔◌, IsSome, IfOk, OnOk, OnErr};
ghost use Rattle.std.specs.Option.{option_map};
ghost use Rattle.hex.specs.Hex.{encode_lower};
ghost use Rattle.ck_text.specs.Hexadecimal.{hex_value, IsHex};

use ck_model::NoMemory;
use hex::FromHexError;
use std::alloc::Global;

/// Appends two lower-case digits for each byte. A refusal changes nothing.
pub fn put_hex(out: &mut Vec<u8>, bytes: &[u8]) -> Result<(), NoMemory>
    ensures ok { OnOk result (out.new.items ≡ out.old.items ++ encode_lower bytes.now) }
    ensures err { OnErr result (out.new.items ≡ out.old.items) }
{
    let start = out.len();
    let end = start.checked_add(2 * bytes.len()).ok_or(NoMemory)?;
    out.resize(end, 0)?;
    hex::encode_to_slice(bytes, &mut out[start..]).unwrap();
    Ok(())
}

/// The bytes that a word spells by two digits each, in either case. A word of an odd length or with
/// another byte spells none.
pub fn hex_bytes(alloc: Global, word: &[u8]) -> Result<Option<Vec<u8>>, NoMemory>
    ensures some { IfOk result (λ bytes. IsSome bytes ↔ IsHex word.now) }
    ensures value { IfOk result (λ bytes. option_map (λ v. v.items) bytes ≡ hex_value word.now) }
{
    match hex::decode(alloc, word) {
        Ok(bytes) => Ok(Some(bytes)),
        Err(error) => match error {
            FromHexError::OutOfMemory => Err(NoMemory),
            _ => Ok(None),
        },
    }
}
