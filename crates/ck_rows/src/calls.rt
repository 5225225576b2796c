use ck_model::{Call, NameBytes, NoMemory, Octets, Path};
use std::alloc::Global;

pub fn number(word: &str) -> Option<u64> {
    word.parse::<u64>().ok()
}

pub fn length(word: &str) -> Option<u32> {
    word.parse::<u32>().ok()
}

fn byte(word: &str) -> Option<u8> {
    u8::from_str_radix(word, 16).ok()
}

fn letter(word: &str) -> Option<u8> {
    word.as_bytes().first().copied()
}

fn name(word: &str) -> Option<NameBytes> {
    NameBytes::read(word.as_bytes())
}

fn on(word: &str) -> Option<bool> {
    match word {
        "on" => Some(true),
        "off" => Some(false),
        _ => None,
    }
}

/// The bytes behind `t:`.
fn text(alloc: Global, word: &str) -> Result<Option<Octets>, NoMemory> {
    match word.strip_prefix("t:") {
        None => Ok(None),
        Some(bytes) => Ok(Some(Octets::of(Vec::from_slice(alloc, bytes.as_bytes())?))),
    }
}

fn path(alloc: Global, word: &str) -> Result<Option<Path>, NoMemory> {
    Path::read(alloc, word.as_bytes())
}

fn write(alloc: Global, at: &str, place: &str, bytes: &str) -> Result<Option<Call>, NoMemory> {
    match (path(alloc, at)?, number(place), text(alloc, bytes)?) {
        (Some(at), Some(place), Some(bytes)) => Ok(Some(Call::Write(at, place, bytes))),
        _ => Ok(None),
    }
}

fn fill(
    alloc: Global,
    at: &str,
    place: &str,
    len: &str,
    with: &str,
) -> Result<Option<Call>, NoMemory> {
    match (path(alloc, at)?, number(place), length(len), byte(with)) {
        (Some(at), Some(place), Some(len), Some(with)) => {
            Ok(Some(Call::Fill(at, place, len, with)))
        }
        _ => Ok(None),
    }
}

fn mv(alloc: Global, from: &str, to: &str) -> Result<Option<Call>, NoMemory> {
    match (path(alloc, from)?, path(alloc, to)?) {
        (Some(from), Some(to)) => Ok(Some(Call::Mv(from, to))),
        _ => Ok(None),
    }
}

fn trunc(alloc: Global, at: &str, size: &str) -> Result<Option<Call>, NoMemory> {
    match (path(alloc, at)?, number(size)) {
        (Some(at), Some(size)) => Ok(Some(Call::Trunc(at, size))),
        _ => Ok(None),
    }
}

fn read(alloc: Global, at: &str, place: &str, len: &str) -> Result<Option<Call>, NoMemory> {
    match (path(alloc, at)?, number(place), length(len)) {
        (Some(at), Some(place), Some(len)) => Ok(Some(Call::Read(at, place, len))),
        _ => Ok(None),
    }
}

fn cread(
    alloc: Global,
    on: &str,
    at: &str,
    place: &str,
    len: &str,
) -> Result<Option<Call>, NoMemory> {
    match (letter(on), path(alloc, at)?, number(place), length(len)) {
        (Some(on), Some(at), Some(place), Some(len)) => Ok(Some(Call::Cread(on, at, place, len))),
        _ => Ok(None),
    }
}

fn clist(alloc: Global, on: &str, at: &str) -> Result<Option<Call>, NoMemory> {
    match (letter(on), path(alloc, at)?) {
        (Some(on), Some(at)) => Ok(Some(Call::Clist(on, at))),
        _ => Ok(None),
    }
}

/// A call on files.
fn file_call(alloc: Global, words: &[&str]) -> Result<Option<Call>, NoMemory> {
    match words {
        ["make", at] => Ok(path(alloc, at)?.map(Call::Make)),
        ["mkdir", at] => Ok(path(alloc, at)?.map(Call::Mkdir)),
        ["rm", at] => Ok(path(alloc, at)?.map(Call::Rm)),
        ["rmdir", at] => Ok(path(alloc, at)?.map(Call::Rmdir)),
        ["mv", from, to] => mv(alloc, from, to),
        ["write", at, place, bytes] => write(alloc, at, place, bytes),
        ["fill", at, place, len, with] => fill(alloc, at, place, len, with),
        ["trunc", at, size] => trunc(alloc, at, size),
        ["read", at, place, len] => read(alloc, at, place, len),
        ["ls", at] => Ok(path(alloc, at)?.map(Call::List)),
        ["stat", at] => Ok(path(alloc, at)?.map(Call::Stat)),
        ["cread", on, at, place, len] => cread(alloc, on, at, place, len),
        ["cls", on, at] => clist(alloc, on, at),
        _ => Ok(None),
    }
}

fn create(word: &str, nodata: bool, removable: bool) -> Option<Call> {
    Some(Call::Create(name(word)?, nodata, removable))
}

fn removable(word: &str, flag: &str) -> Option<Call> {
    Some(Call::Removable(name(word)?, on(flag)?))
}

/// A call on checkpoints, mounts or the whole.
fn other_call(words: &[&str]) -> Option<Call> {
    match words {
        ["create", word] => create(word, false, false),
        ["create", "-n", word] => create(word, true, false),
        ["create", "-r", word] => create(word, false, true),
        ["create", "-n", "-r", word] => create(word, true, true),
        ["remove", word] => Some(Call::Remove(name(word)?)),
        ["nodata", word] => Some(Call::Nodata(name(word)?, false)),
        ["nodata", "-s", word] => Some(Call::Nodata(name(word)?, true)),
        ["removable", word, flag] => removable(word, flag),
        ["ckpts"] => Some(Call::Ckpts),
        ["mount", on, word] => Some(Call::Mount(letter(on)?, name(word)?)),
        ["umount", on] => Some(Call::Umount(letter(on)?)),
        ["restore", word] => Some(Call::Restore(name(word)?)),
        ["info"] => Some(Call::Info),
        ["sync"] => Some(Call::Sync),
        _ => None,
    }
}

/// The call with these words.
pub fn call_of(alloc: Global, words: &[&str]) -> Result<Option<Call>, NoMemory> {
    match file_call(alloc, words)? {
        Some(call) => Ok(Some(call)),
        None => Ok(other_call(words)),
    }
}
