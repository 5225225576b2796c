ghost use Rattle.std.specs.Prelude.{◌≡◌, Some, None, IfSome, if◌then◌else◌, codes, string_bytes, map as list_map};
ghost use Rattle.ck_words.specs.Command.{is_text as same_text, number_within as number_between, blocks_of as blocks_in, records_of as records_in, mkfs_of, command_of, IsWithin};
ghost use Rattle.ck_words.specs.declared.command.Command.TheVariants as commands;

use crate::Command;
use ck_text::decimal;

/// A volume has at least so many data blocks.
const LEAST_BLOCKS: u32 = 1;

/// A volume has at most so many data blocks.
const MOST_BLOCKS: u32 = 65_536;

/// A volume has at least so many records.
const LEAST_RECORDS: u32 = 32;

/// A volume has at most so many records.
const MOST_RECORDS: u32 = 262_144;

fn is_text(word: &[u8], text: &[u8]) -> bool
    ensures { result ≡ same_text word.now text.now }
{
    word == text
}

fn number_within(least: u32, most: u32, word: &[u8]) -> Option<u32>
    ensures { result ≡ number_between least most word.now }
{
    let number = decimal(word)?;
    if number >= u64::from(least) && number <= u64::from(most) {
        Some(number as u32)
    } else {
        None
    }
}

fn blocks_of(word: &[u8]) -> Option<u32>
    ensures { result ≡ blocks_in word.now }
{
    number_within(LEAST_BLOCKS, MOST_BLOCKS, word)
}

fn records_of(word: &[u8]) -> Option<u32>
    ensures { result ≡ records_in word.now }
{
    number_within(LEAST_RECORDS, MOST_RECORDS, word)
}

fn play(verb: &[u8]) -> Option<Command>
    ensures { result ≡ (if same_text verb.now (codes "play") then Some commands.Play else None) }
{
    if is_text(verb, b"play") {
        Some(Command::Play)
    } else {
        None
    }
}

fn mkfs(verb: &[u8], blocks: &[u8], records: &[u8]) -> Option<Command>
    ensures { result ≡ (if same_text verb.now (codes "mkfs") then mkfs_of blocks.now records.now else None) }
{
    if !is_text(verb, b"mkfs") {
        return None;
    }
    Some(Command::Mkfs(blocks_of(blocks)?, records_of(records)?))
}

/// The command that the words match, or None where they match no pattern.
pub fn match_words(words: &[String]) -> Option<Command>
    ensures command { result ≡ command_of (list_map string_bytes words.now) }
    ensures sized { IfSome result IsWithin }
{
    match words {
        [verb] => play(verb.as_bytes()),
        [verb, blocks, records] => mkfs(verb.as_bytes(), blocks.as_bytes(), records.as_bytes()),
        _ => None,
    }
}
