ghost use Rattle.std.specs.Prelude.{◌≡◌, Some, None, if◌then◌else◌};
ghost use Rattle.std.specs.List.{list_all};
ghost use Rattle.ck_text.specs.Hexadecimal.{hex_value};
ghost use Rattle.ck_script.specs.Refusal.{Answers};
ghost use Rattle.ck_script.specs.Arguments.{is_text as same_text, is_printable as printable, is_name, checkpoint_name as checkpoint_name_of, path_of as path_in, number_up_to as number_within, actor_of as actor_in, place_of as place_in, fill_length as fill_length_of, read_length as read_length_of, spelled_by as bytes_spelled, bytes_of as bytes_in, single as single_byte, byte_of as byte_in, letter_of as letter_in, switch_of as switch_in};

use crate::Refusal;
use ck_model::{NameBytes, Octets, Path};
use ck_text::{decimal, hex_bytes};
use std::alloc::Global;

/// Places and sizes go up to this many bytes.
const PLACE_LIMIT: u32 = 1_073_741_824;

/// The longest fill, in bytes.
const FILL_LIMIT: u32 = 1_048_576;

/// The longest read, in bytes.
const READ_LIMIT: u32 = 131_072;

/// The longest write, in bytes.
const WRITE_LIMIT: usize = 65_536;

pub fn is_text(word: &[u8], text: &[u8]) -> bool
    ensures { result ≡ same_text word.now text.now }
{
    word == text
}

fn is_printable(byte: u8) -> bool
    ensures { result ≡ printable byte }
{
    byte >= 33 && byte <= 126
}

fn name(word: &[u8]) -> Option<NameBytes>
    ensures { result ≡ (if is_name word.now then Some word.now else None) }
{
    NameBytes::read(word)
}

pub fn checkpoint_name(word: &[u8]) -> Option<NameBytes>
    ensures { result ≡ checkpoint_name_of word.now }
{
    if !word.is_empty() && word[0] == b'-' {
        return None;
    }
    name(word)
}

pub fn path_of(alloc: Global, word: &[u8]) -> Result<Path, Refusal>
    ensures { Answers (path_in word.now) result }
{
    match Path::read(alloc, word)? {
        Some(path) => Ok(path),
        None => Err(Refusal::NotThis),
    }
}

fn number_up_to(limit: u32, word: &[u8]) -> Option<u32>
    ensures { result ≡ number_within limit word.now }
{
    let number = decimal(word)?;
    if number <= u64::from(limit) {
        Some(number as u32)
    } else {
        None
    }
}

pub fn actor_of(word: &[u8]) -> Option<u32>
    ensures { result ≡ actor_in word.now }
{
    let number = number_up_to(64, word)?;
    if number >= 1 { Some(number) } else { None }
}

pub fn place_of(word: &[u8]) -> Option<u64>
    ensures { result ≡ place_in word.now }
{
    Some(u64::from(number_up_to(PLACE_LIMIT, word)?))
}

pub fn fill_length(word: &[u8]) -> Option<u32>
    ensures { result ≡ fill_length_of word.now }
{
    number_up_to(FILL_LIMIT, word)
}

pub fn read_length(word: &[u8]) -> Option<u32>
    ensures { result ≡ read_length_of word.now }
{
    number_up_to(READ_LIMIT, word)
}

fn are_printable(bytes: &[u8]) -> bool
    ensures { result ≡ list_all printable bytes.now }
{
    bytes.iter().all(|byte| is_printable(*byte))
}

fn hex_octets(alloc: Global, word: &[u8]) -> Result<Octets, Refusal>
    ensures { Answers (hex_value word.now) result }
{
    match hex_bytes(alloc, word)? {
        Some(bytes) => Ok(Octets::of(bytes)),
        None => Err(Refusal::NotThis),
    }
}

fn spelled_by(alloc: Global, word: &[u8]) -> Result<Octets, Refusal>
    ensures { Answers (bytes_spelled word.now) result }
{
    if word.len() < 2 || word[1] != b':' {
        return Err(Refusal::NotThis);
    }
    if word[0] == b't' && are_printable(&word[2..]) {
        return Ok(Octets::of(Vec::from_slice(alloc, &word[2..])?));
    }
    if word[0] == b'x' {
        return hex_octets(alloc, &word[2..]);
    }
    Err(Refusal::NotThis)
}

pub fn bytes_of(alloc: Global, word: &[u8]) -> Result<Octets, Refusal>
    ensures { Answers (bytes_in word.now) result }
{
    let bytes = spelled_by(alloc, word)?;
    if bytes.items().len() <= WRITE_LIMIT {
        Ok(bytes)
    } else {
        Err(Refusal::NotThis)
    }
}

fn single(bytes: &[u8]) -> Option<u8>
    ensures { result ≡ single_byte bytes.now }
{
    match bytes {
        [byte] => Some(*byte),
        _ => None,
    }
}

pub fn byte_of(alloc: Global, word: &[u8]) -> Result<u8, Refusal>
    ensures { Answers (byte_in word.now) result }
{
    let bytes = hex_octets(alloc, word)?;
    match single(bytes.items()) {
        Some(byte) => Ok(byte),
        None => Err(Refusal::NotThis),
    }
}

pub fn letter_of(word: &[u8]) -> Option<u8>
    ensures { result ≡ letter_in word.now }
{
    if word.len() == 1 && word[0] >= b'a' && word[0] <= b'z' {
        Some(word[0])
    } else {
        None
    }
}

pub fn switch_of(word: &[u8]) -> Option<bool>
    ensures { result ≡ switch_in word.now }
{
    if is_text(word, b"on") {
        Some(true)
    } else if is_text(word, b"off") {
        Some(false)
    } else {
        None
    }
}
