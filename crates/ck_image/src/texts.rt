ghost use Rattle.std.specs.Prelude.{◌≡◌, ◌++◌, OnOk, IfOk};
ghost use Rattle.ck_image.specs.declared.command.Command.TheVariants.{Verify, Apply, Merge};
ghost use Rattle.ck_image.specs.Images.{Answers};
ghost use Rattle.ck_image.specs.Texts.{number_words, digest_words, header_words, summary_line, fault_words, refusal_words, made_of, printed};

use crate::command::Command;
use crate::images::{applied, whole};
use crate::merges::merged;
use crate::refusal::Refusal;
use ck_model::NoMemory;
use ck_stream::{Header, StreamFault, Summary, write_changed, write_full};
use ck_text::{put_decimal, put_hex};
use std::alloc::Global;

/// An input may have so many bytes.
pub const INPUT_LIMIT: usize = 1_073_741_824;

fn put(out: &mut Vec<u8>, text: &[u8]) -> Result<(), NoMemory>
    ensures { OnOk result (out.new.items ≡ out.old.items ++ text.now) }
{
    out.extend_from_slice(text)?;
    Ok(())
}

fn put_number(out: &mut Vec<u8>, number: u64) -> Result<(), NoMemory>
    ensures { OnOk result (out.new.items ≡ out.old.items ++ number_words number) }
{
    put(out, b" ")?;
    put_decimal(out, number)
}

fn put_digest(out: &mut Vec<u8>, digest: &[u8; 32]) -> Result<(), NoMemory>
    ensures { OnOk result (out.new.items ≡ out.old.items ++ digest_words digest.now) }
{
    put(out, b" ")?;
    put_hex(out, digest)
}

fn put_header(out: &mut Vec<u8>, header: &Header) -> Result<(), NoMemory>
    ensures { OnOk result (out.new.items ≡ out.old.items ++ header_words header.now) }
{
    match header {
        Header::Full(id) => {
            put(out, b"full")?;
            put_number(out, u64::from(*id))
        }
        Header::Changed(from, to) => {
            put(out, b"changed")?;
            put_number(out, u64::from(*from))?;
            put_number(out, u64::from(*to))
        }
    }
}

fn put_line(out: &mut Vec<u8>, summary: &Summary) -> Result<(), NoMemory>
    ensures { OnOk result (out.new.items ≡ out.old.items ++ summary_line summary.now) }
{
    put_header(out, &summary.header)?;
    put(out, b" records")?;
    put_number(out, summary.records as u64)?;
    put(out, b"\n")
}

fn put_fault(out: &mut Vec<u8>, fault: &StreamFault) -> Result<(), NoMemory>
    ensures { OnOk result (out.new.items ≡ out.old.items ++ fault_words fault.now) }
{
    match fault {
        StreamFault::NotStream(place) => {
            put(out, b"NotStream")?;
            put_number(out, *place)
        }
        StreamFault::Truncated(total) => {
            put(out, b"Truncated")?;
            put_number(out, *total)
        }
        StreamFault::Digest { kept, found } => {
            put(out, b"Digest")?;
            put_digest(out, kept)?;
            put_digest(out, found)
        }
        StreamFault::NoMemory => Ok(()),
    }
}

fn put_refusal(out: &mut Vec<u8>, refusal: &Refusal) -> Result<(), NoMemory>
    ensures { OnOk result (out.new.items ≡ out.old.items ++ refusal_words refusal.now) }
{
    match refusal {
        Refusal::Stream(fault) => put_fault(out, fault),
        Refusal::WrongBase { has, wants } => {
            put(out, b"WrongBase")?;
            put_number(out, u64::from(*has))?;
            put_number(out, u64::from(*wants))
        }
        Refusal::NotAdjacent { ends, begins } => {
            put(out, b"NotAdjacent")?;
            put_number(out, u64::from(*ends))?;
            put_number(out, u64::from(*begins))
        }
        Refusal::TooLong => put(out, b"TooLong 1073741824"),
        Refusal::NoMemory => Ok(()),
    }
}

/// The words of a refusal.
pub fn words_of(alloc: Global, refusal: &Refusal) -> Result<Vec<u8>, NoMemory>
    ensures { IfOk result (λ words. words.items ≡ refusal_words refusal.now) }
{
    let mut out = Vec::new(alloc);
    put_refusal(&mut out, refusal)?;
    Ok(out)
}

fn line_of(alloc: Global, summary: &Summary) -> Result<Vec<u8>, NoMemory>
    ensures { IfOk result (λ line. line.items ≡ summary_line summary.now) }
{
    let mut out = Vec::new(alloc);
    put_line(&mut out, summary)?;
    Ok(out)
}

fn verified(alloc: Global, bytes: &[u8]) -> Result<Vec<u8>, Refusal>
    ensures { Answers (λ text. text.items) result (made_of Verify bytes.now) }
{
    let summary = whole(bytes)?;
    match line_of(alloc, &summary) {
        Ok(line) => Ok(line),
        Err(_) => Err(Refusal::NoMemory),
    }
}

fn made(alloc: Global, bytes: &[u8]) -> Result<Vec<u8>, Refusal>
    ensures { Answers (λ text. text.items) result (made_of Apply bytes.now) }
{
    let full = applied(alloc, bytes)?;
    match write_full(alloc, &full) {
        Ok(text) => Ok(text),
        Err(_) => Err(Refusal::NoMemory),
    }
}

fn made_one(alloc: Global, bytes: &[u8]) -> Result<Vec<u8>, Refusal>
    ensures { Answers (λ text. text.items) result (made_of Merge bytes.now) }
{
    let changed = merged(alloc, bytes)?;
    match write_changed(alloc, &changed) {
        Ok(text) => Ok(text),
        Err(_) => Err(Refusal::NoMemory),
    }
}

/// What a command prints for its input.
#[tactic(auto, unfolding(crate::specs::Texts::printed))]
pub fn print_of(alloc: Global, command: Command, bytes: &[u8]) -> Result<Vec<u8>, Refusal>
    ensures { Answers (λ text. text.items) result (printed command bytes.now) }
{
    if bytes.len() > INPUT_LIMIT {
        return Err(Refusal::TooLong);
    }
    match command {
        Command::Verify => verified(alloc, bytes),
        Command::Apply => made(alloc, bytes),
        Command::Merge => made_one(alloc, bytes),
    }
}
