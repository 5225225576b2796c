ghost use Rattle.std.specs.Prelude.{◌≡◌, ◌++◌, ◌∷◌, [], codes, OnOk, if◌then◌else◌};
ghost use Rattle.ck_report.specs.Words.{call_words, flag_words, spaced, path_words, number_words, bytes_words};
ghost use Rattle.ck_model.specs.declared.call.Call.TheVariants as calls;
ghost use Rattle.hex.specs.Hex.{encode_lower};

use crate::put::{put, put_bytes, put_number, put_path, put_word};
use ck_model::{Call, NameBytes, NoMemory, Path};
use ck_text::put_hex;

/// The words of a call.
pub fn put_call(out: &mut Vec<u8>, call: &Call) -> Result<(), NoMemory>
    ensures { OnOk result (out.new.items ≡ out.old.items ++ call_words call.now) }
{
    match call {
        Call::Make(path) => put_on_path(out, b"make", path),
        Call::Mkdir(path) => put_on_path(out, b"mkdir", path),
        Call::Rm(path) => put_on_path(out, b"rm", path),
        Call::Rmdir(path) => put_on_path(out, b"rmdir", path),
        Call::Mv(path, new_path) => put_mv(out, path, new_path),
        Call::Write(path, at, bytes) => put_write(out, path, *at, bytes.items()),
        Call::Fill(path, at, len, byte) => put_fill(out, path, *at, *len, *byte),
        Call::Trunc(path, size) => put_at(out, b"trunc", path, *size),
        Call::Read(path, at, len) => put_range(out, b"read", path, *at, *len),
        Call::List(path) => put_on_path(out, b"ls", path),
        Call::Stat(path) => put_on_path(out, b"stat", path),
        Call::Create(name, nodata, removable) => put_create(out, name, *nodata, *removable),
        Call::Remove(name) => put_on_name(out, b"remove", name),
        Call::Nodata(name, synchronous) => put_nodata(out, name, *synchronous),
        Call::Removable(name, on) => put_removable(out, name, *on),
        Call::Ckpts => put(out, b"ckpts"),
        Call::Mount(letter, name) => put_mount(out, *letter, name),
        Call::Umount(letter) => put_on_letter(out, b"umount", *letter),
        Call::Cread(letter, path, at, len) => put_cread(out, *letter, path, *at, *len),
        Call::Clist(letter, path) => put_clist(out, *letter, path),
        Call::Restore(name) => put_on_name(out, b"restore", name),
        Call::Backup(letter, later) => put_backup(out, *letter, *later),
        Call::Full(letter) => put_on_letter(out, b"full", *letter),
        Call::Info => put(out, b"info"),
        Call::Sync => put(out, b"sync"),
    }
}

fn put_on_path(out: &mut Vec<u8>, verb: &[u8], path: &Path) -> Result<(), NoMemory>
    ensures { OnOk result (out.new.items ≡ out.old.items ++ (verb.now ++ path_words path.now)) }
{
    put(out, verb)?;
    put_path(out, path)
}

fn put_at(out: &mut Vec<u8>, verb: &[u8], path: &Path, at: u64) -> Result<(), NoMemory>
    ensures { OnOk result (out.new.items ≡ out.old.items ++ (verb.now ++ path_words path.now ++ number_words at)) }
{
    put_on_path(out, verb, path)?;
    put_number(out, at)
}

fn put_range(out: &mut Vec<u8>, verb: &[u8], path: &Path, at: u64, len: u32) -> Result<(), NoMemory>
    ensures { OnOk result (out.new.items ≡ out.old.items ++ (verb.now ++ path_words path.now ++ number_words at ++ number_words len)) }
{
    put_at(out, verb, path, at)?;
    put_number(out, u64::from(len))
}

fn put_on_name(out: &mut Vec<u8>, verb: &[u8], name: &NameBytes) -> Result<(), NoMemory>
    ensures { OnOk result (out.new.items ≡ out.old.items ++ (verb.now ++ spaced name.now)) }
{
    put(out, verb)?;
    put_word(out, name.bytes())
}

fn put_on_letter(out: &mut Vec<u8>, verb: &[u8], letter: u8) -> Result<(), NoMemory>
    ensures { OnOk result (out.new.items ≡ out.old.items ++ (verb.now ++ spaced (letter ∷ []))) }
{
    put(out, verb)?;
    put_word(out, &[letter])
}

fn put_mv(out: &mut Vec<u8>, path: &Path, new_path: &Path) -> Result<(), NoMemory>
    ensures { OnOk result (out.new.items ≡ out.old.items ++ call_words (calls.Mv path.now new_path.now)) }
{
    put_on_path(out, b"mv", path)?;
    put_path(out, new_path)
}

fn put_write(out: &mut Vec<u8>, path: &Path, at: u64, bytes: &[u8]) -> Result<(), NoMemory>
    ensures { OnOk result (out.new.items ≡ out.old.items ++ call_words (calls.Write path.now at bytes.now)) }
{
    put_at(out, b"write", path, at)?;
    put_bytes(out, bytes)
}

fn put_byte(out: &mut Vec<u8>, byte: u8) -> Result<(), NoMemory>
    ensures { OnOk result (out.new.items ≡ out.old.items ++ spaced (encode_lower (byte ∷ []))) }
{
    put(out, b" ")?;
    put_hex(out, &[byte])
}

fn put_fill(out: &mut Vec<u8>, path: &Path, at: u64, len: u32, byte: u8) -> Result<(), NoMemory>
    ensures { OnOk result (out.new.items ≡ out.old.items ++ call_words (calls.Fill path.now at len byte)) }
{
    put_range(out, b"fill", path, at, len)?;
    put_byte(out, byte)
}

fn put_flag(out: &mut Vec<u8>, flag: bool, text: &[u8]) -> Result<(), NoMemory>
    ensures { OnOk result (out.new.items ≡ out.old.items ++ flag_words flag text.now) }
{
    if flag { put_word(out, text) } else { Ok(()) }
}

fn put_create(
    out: &mut Vec<u8>,
    name: &NameBytes,
    nodata: bool,
    removable: bool,
) -> Result<(), NoMemory>
    ensures { OnOk result (out.new.items ≡ out.old.items ++ call_words (calls.Create name.now nodata removable)) }
{
    put(out, b"create")?;
    put_flag(out, nodata, b"-n")?;
    put_flag(out, removable, b"-r")?;
    put_word(out, name.bytes())
}

fn put_nodata(out: &mut Vec<u8>, name: &NameBytes, synchronous: bool) -> Result<(), NoMemory>
    ensures { OnOk result (out.new.items ≡ out.old.items ++ call_words (calls.Nodata name.now synchronous)) }
{
    put(out, b"nodata")?;
    put_flag(out, synchronous, b"-s")?;
    put_word(out, name.bytes())
}

fn put_removable(out: &mut Vec<u8>, name: &NameBytes, on: bool) -> Result<(), NoMemory>
    ensures { OnOk result (out.new.items ≡ out.old.items ++ call_words (calls.Removable name.now on)) }
{
    put_on_name(out, b"removable", name)?;
    put(out, if on { b" on" } else { b" off" })
}

fn put_mount(out: &mut Vec<u8>, letter: u8, name: &NameBytes) -> Result<(), NoMemory>
    ensures { OnOk result (out.new.items ≡ out.old.items ++ call_words (calls.Mount letter name.now)) }
{
    put_on_letter(out, b"mount", letter)?;
    put_word(out, name.bytes())
}

fn put_cread(out: &mut Vec<u8>, letter: u8, path: &Path, at: u64, len: u32) -> Result<(), NoMemory>
    ensures { OnOk result (out.new.items ≡ out.old.items ++ call_words (calls.Cread letter path.now at len)) }
{
    put_on_letter(out, b"cread", letter)?;
    put_path(out, path)?;
    put_number(out, at)?;
    put_number(out, u64::from(len))
}

fn put_clist(out: &mut Vec<u8>, letter: u8, path: &Path) -> Result<(), NoMemory>
    ensures { OnOk result (out.new.items ≡ out.old.items ++ call_words (calls.Clist letter path.now)) }
{
    put_on_letter(out, b"cls", letter)?;
    put_path(out, path)
}

fn put_backup(out: &mut Vec<u8>, letter: u8, later: u8) -> Result<(), NoMemory>
    ensures { OnOk result (out.new.items ≡ out.old.items ++ call_words (calls.Backup letter later)) }
{
    put_on_letter(out, b"backup", letter)?;
    put_word(out, &[later])
}
