ghost use Rattle.std.specs.Prelude.{◌≡◌, ◌++◌, Some, OnOk, OnErr};
ghost use Rattle.std.specs.Fmt.{decimal as decimal_text};
ghost use Rattle.ck_text.specs.Decimal.{needless_zero, next_value, number_of};

use ck_model::NoMemory;

fn has_needless_zero(word: &[u8]) -> bool
    ensures { result ≡ needless_zero word.now }
{
    word.len() > 1 && word[0] == b'0'
}

fn value_after(value: u64, digit: u8) -> Option<u64>
    ensures { result ≡ next_value (Some value) digit }
{
    if !digit.is_ascii_digit() {
        return None;
    }
    value.checked_mul(10)?.checked_add(u64::from(digit - b'0'))
}

/// The number below 2^64 whose decimal text the word is, without sign and needless zero.
pub fn decimal(word: &[u8]) -> Option<u64>
    ensures { result ≡ number_of word.now }
{
    if word.is_empty() || has_needless_zero(word) {
        return None;
    }
    let mut value = 0;
    for digit in word {
        match value_after(value, *digit) {
            Some(next) => value = next,
            None => return None,
        }
    }
    Some(value)
}

/// Appends a number's decimal text. A refusal changes nothing.
pub fn put_decimal(out: &mut Vec<u8>, value: u64) -> Result<(), NoMemory>
    ensures ok { OnOk result (out.new.items ≡ out.old.items ++ decimal_text value) }
    ensures err { OnErr result (out.new.items ≡ out.old.items) }
{
    let text = value.to_string(*out.allocator())?;
    out.extend_from_slice(text.as_bytes())?;
    Ok(())
}
