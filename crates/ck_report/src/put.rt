ghost use Rattle.std.specs.Prelude.{◌≡◌, ◌++◌, OnOk};
ghost use Rattle.ck_model.specs.Path.{joined, path_text};
ghost use Rattle.hex.specs.Hex.{IsBytes};
ghost use Rattle.ck_report.specs.Words.{spaced, path_words, number_words, bytes_words};

use ck_model::{NameBytes, NoMemory, Path};
use ck_text::{put_decimal, put_hex};

pub fn put(out: &mut Vec<u8>, text: &[u8]) -> Result<(), NoMemory>
    ensures { OnOk result (out.new.items ≡ out.old.items ++ text.now) }
{
    out.extend_from_slice(text)?;
    Ok(())
}

/// A space, and then the text.
pub fn put_word(out: &mut Vec<u8>, text: &[u8]) -> Result<(), NoMemory>
    ensures { OnOk result (out.new.items ≡ out.old.items ++ spaced text.now) }
{
    put(out, b" ")?;
    put(out, text)
}

pub fn put_number(out: &mut Vec<u8>, number: u64) -> Result<(), NoMemory>
    ensures { OnOk result (out.new.items ≡ out.old.items ++ number_words number) }
{
    put(out, b" ")?;
    put_decimal(out, number)
}

pub fn put_bytes(out: &mut Vec<u8>, bytes: &[u8]) -> Result<(), NoMemory>
    ensures text { OnOk result (out.new.items ≡ out.old.items ++ bytes_words bytes.now) }
    ensures bytes { IsBytes bytes.now }
{
    put(out, b" x:")?;
    put_hex(out, bytes)
}

fn put_names(out: &mut Vec<u8>, names: &[NameBytes]) -> Result<(), NoMemory>
    ensures { OnOk result (out.new.items ≡ out.old.items ++ joined names.now) }
{
    for name in names {
        put(out, b"/")?;
        put(out, name.bytes())?;
    }
    Ok(())
}

pub fn put_path(out: &mut Vec<u8>, path: &Path) -> Result<(), NoMemory>
    ensures { OnOk result (out.new.items ≡ out.old.items ++ path_words path.now) }
{
    put(out, b" ")?;
    if path.items().is_empty() {
        return put(out, b"/");
    }
    put_names(out, path.items())
}
