ghost use Rattle.std.specs.Prelude.{◌≡◌, ◌≤◌, ◌<◌, ◌+◌, ◌*◌, ◌/◌, ◌++◌, ◌∷◌, [], ℕ, OnOk, IfOk, codes};
ghost use Rattle.hex.specs.Hex.{encode_lower};
ghost use Rattle.std.specs.Fmt.{decimal};
ghost use Rattle.ck_generate.specs.Generator.{after, texts, number_word, fill_line, file_lines, some_fill, some_read, round_name as name_of, round_letter as letter_of, round_end, round_text, round_draws, generated};

use crate::draws::Draws;
use ck_model::NoMemory;
use ck_text::{put_decimal, put_hex};
use std::alloc::Global;

fn put(out: &mut Vec<u8>, text: &[u8]) -> Result<(), NoMemory>
    ensures { OnOk result (out.new.items ≡ out.old.items ++ text.now) }
{
    out.extend_from_slice(text)?;
    Ok(())
}

/// A space, and a number.
fn put_number(out: &mut Vec<u8>, number: u32) -> Result<(), NoMemory>
    ensures { OnOk result (out.new.items ≡ out.old.items ++ number_word number) }
{
    put(out, b" ")?;
    put_decimal(out, u64::from(number))
}

fn put_file(out: &mut Vec<u8>, text: &[u8], file: u32) -> Result<(), NoMemory>
    ensures { OnOk result (out.new.items ≡ out.old.items ++ (text.now ++ decimal file)) }
{
    put(out, text)?;
    put_decimal(out, u64::from(file))
}

fn put_byte(out: &mut Vec<u8>, byte: u8) -> Result<(), NoMemory>
    ensures { OnOk result (out.new.items ≡ out.old.items ++ (32 ∷ encode_lower (byte ∷ []) ++ codes "\n")) }
{
    put(out, b" ")?;
    put_hex(out, &[byte])?;
    put(out, b"\n")
}

fn put_fill(out: &mut Vec<u8>, file: u32, at: u32, len: u32, byte: u8) -> Result<(), NoMemory>
    ensures { OnOk result (out.new.items ≡ out.old.items ++ fill_line file at len byte) }
{
    put_file(out, b"1 fill /f", file)?;
    put_number(out, at)?;
    put_number(out, len)?;
    put_byte(out, byte)
}

fn put_make(out: &mut Vec<u8>, file: u32) -> Result<(), NoMemory>
    ensures { OnOk result (out.new.items ≡ out.old.items ++ (codes "1 make /f" ++ decimal file ++ codes "\n")) }
{
    put_file(out, b"1 make /f", file)?;
    put(out, b"\n")
}

fn put_new_file(out: &mut Vec<u8>, draws: &mut Draws, file: u32) -> Result<(), NoMemory>
    ensures text { OnOk result (out.new.items ≡ out.old.items ++ file_lines file draws.old) }
    ensures state { draws.new ≡ after 2 draws.old }
{
    let len = draws.draw(61_441);
    let byte = draws.draw(256) as u8;
    put_make(out, file)?;
    put_fill(out, file, 0, len, byte)
}

fn put_new_files(out: &mut Vec<u8>, draws: &mut Draws, files: u32) -> Result<(), NoMemory>
    requires { files ≤ 10000 }
    ensures text { OnOk result (out.new.items ≡ out.old.items ++ texts file_lines 2 files 1 draws.old) }
    ensures state { OnOk result (draws.new ≡ after (2 * files) draws.old) }
{
    for done in 0..files {
        put_new_file(out, draws, done + 1)?;
    }
    Ok(())
}

fn put_some_fill(out: &mut Vec<u8>, draws: &mut Draws, files: u32) -> Result<(), NoMemory>
    requires some { 0 < files }
    requires few { files ≤ 10000 }
    ensures text { OnOk result ((number : ℕ) → out.new.items ≡ out.old.items ++ some_fill files number draws.old) }
    ensures state { draws.new ≡ after 4 draws.old }
{
    let file = 1 + draws.draw(files);
    let at = draws.draw(61_440);
    let len = 1 + draws.draw(4096);
    let byte = draws.draw(256) as u8;
    put_fill(out, file, at, len, byte)
}

fn put_fills(out: &mut Vec<u8>, draws: &mut Draws, files: u32, count: u32) -> Result<(), NoMemory>
    requires some { 0 < files }
    requires few { files ≤ 10000 }
    ensures text { OnOk result (out.new.items ≡ out.old.items ++ texts (some_fill files) 4 count 0 draws.old) }
    ensures state { OnOk result (draws.new ≡ after (4 * count) draws.old) }
{
    for _done in 0..count {
        put_some_fill(out, draws, files)?;
    }
    Ok(())
}

fn put_read(out: &mut Vec<u8>, file: u32, at: u32) -> Result<(), NoMemory>
    ensures { OnOk result (out.new.items ≡ out.old.items ++ (codes "2 read /f" ++ decimal file ++ number_word at ++ codes " 4096\n")) }
{
    put_file(out, b"2 read /f", file)?;
    put_number(out, at)?;
    put(out, b" 4096\n")
}

fn put_some_read(out: &mut Vec<u8>, draws: &mut Draws, files: u32) -> Result<(), NoMemory>
    requires some { 0 < files }
    requires few { files ≤ 10000 }
    ensures text { OnOk result ((number : ℕ) → out.new.items ≡ out.old.items ++ some_read files number draws.old) }
    ensures state { draws.new ≡ after 2 draws.old }
{
    let file = 1 + draws.draw(files);
    let at = draws.draw(61_440);
    put_read(out, file, at)
}

fn put_reads(out: &mut Vec<u8>, draws: &mut Draws, files: u32, count: u32) -> Result<(), NoMemory>
    requires some { 0 < files }
    requires few { files ≤ 10000 }
    ensures text { OnOk result (out.new.items ≡ out.old.items ++ texts (some_read files) 2 count 0 draws.old) }
    ensures state { OnOk result (draws.new ≡ after (2 * count) draws.old) }
{
    for _done in 0..count {
        put_some_read(out, draws, files)?;
    }
    Ok(())
}

/// The letter where a round's checkpoint is mounted.
fn letter(round: u32) -> &'static [u8]
    ensures { result.now ≡ letter_of round }
{
    if round % 2 == 0 { b"a" } else { b"b" }
}

/// The name of a round's checkpoint.
fn put_name(out: &mut Vec<u8>, round: u32) -> Result<(), NoMemory>
    ensures { OnOk result (out.new.items ≡ out.old.items ++ name_of round) }
{
    if round == 0 {
        return put(out, b"base");
    }
    put(out, b"n")?;
    put_decimal(out, u64::from(round))
}

/// A call on a round's checkpoint.
fn put_named(out: &mut Vec<u8>, call: &[u8], round: u32) -> Result<(), NoMemory>
    ensures { OnOk result (out.new.items ≡ out.old.items ++ (call.now ++ name_of round ++ codes "\n")) }
{
    put(out, call)?;
    put_name(out, round)?;
    put(out, b"\n")
}

fn put_mount(out: &mut Vec<u8>, round: u32) -> Result<(), NoMemory>
    ensures { OnOk result (out.new.items ≡ out.old.items ++ (codes "1 mount " ++ letter_of round ++ codes " " ++ name_of round ++ codes "\n")) }
{
    put(out, b"1 mount ")?;
    put(out, letter(round))?;
    put_named(out, b" ", round)
}

fn put_backup(out: &mut Vec<u8>, first: u32, second: u32) -> Result<(), NoMemory>
    ensures { OnOk result (out.new.items ≡ out.old.items ++ (codes "1 backup " ++ letter_of first ++ codes " " ++ letter_of second ++ codes "\n")) }
{
    put(out, b"1 backup ")?;
    put(out, letter(first))?;
    put(out, b" ")?;
    put(out, letter(second))?;
    put(out, b"\n")
}

fn put_umount(out: &mut Vec<u8>, round: u32) -> Result<(), NoMemory>
    ensures { OnOk result (out.new.items ≡ out.old.items ++ (codes "1 umount " ++ letter_of round ++ codes "\n")) }
{
    put(out, b"1 umount ")?;
    put(out, letter(round))?;
    put(out, b"\n")
}

fn put_round_end(out: &mut Vec<u8>, round: u32) -> Result<(), NoMemory>
    requires { 1 ≤ round }
    ensures { OnOk result (out.new.items ≡ out.old.items ++ round_end round) }
{
    put_named(out, b"1 create ", round)?;
    put_mount(out, round)?;
    put_backup(out, round - 1, round)?;
    put_named(out, b"1 nodata ", round - 1)?;
    put_umount(out, round - 1)
}

fn put_round(out: &mut Vec<u8>, draws: &mut Draws, files: u32, round: u32) -> Result<(), NoMemory>
    requires some { 0 < files }
    requires few { files ≤ 10000 }
    requires round { 1 ≤ round }
    ensures text { OnOk result (out.new.items ≡ out.old.items ++ round_text files round draws.old) }
    ensures state { OnOk result (draws.new ≡ after (round_draws files) draws.old) }
{
    put_fills(out, draws, files, files / 10)?;
    put_reads(out, draws, files, files / 20)?;
    put_round_end(out, round)
}

fn put_rounds(out: &mut Vec<u8>, draws: &mut Draws, files: u32, rounds: u32) -> Result<(), NoMemory>
    requires some { 0 < files }
    requires few { files ≤ 10000 }
    requires rounds { rounds ≤ 15 }
    ensures { OnOk result (out.new.items ≡ out.old.items ++ texts (round_text files) (round_draws files) rounds 1 draws.old) }
{
    for done in 0..rounds {
        put_round(out, draws, files, done + 1)?;
    }
    Ok(())
}

/// A script that makes `files` files, freezes and streams them, and then changes and backs them up
/// in `rounds` rounds. The same seed gives the same script.
pub fn generate(alloc: Global, seed: u32, files: u32, rounds: u32) -> Result<Vec<u8>, NoMemory>
    requires seed_some { 1 ≤ seed }
    requires seed_few { seed ≤ 2147483646 }
    requires files_some { 1 ≤ files }
    requires files_few { files ≤ 10000 }
    requires rounds_few { rounds ≤ 15 }
    ensures { IfOk result (λ text. text.items ≡ generated seed files rounds) }
{
    let mut text = Vec::new(alloc);
    let mut draws = Draws::new(seed);
    put_new_files(&mut text, &mut draws, files)?;
    put(&mut text, b"1 create base\n1 mount a base\n1 full a\n")?;
    put_rounds(&mut text, &mut draws, files, rounds)?;
    Ok(text)
}
