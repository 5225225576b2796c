ghost use Rattle.std.specs.Prelude.{◌≡◌, false, ◌+◌, ◌≤◌, ◌==◌, Some, Ok, IfOk, IfErr, OnOk, IsTrue, length, take, drop, count_by, nat_eq, map as list_map};
ghost use Rattle.std.specs.List.{position_or_len, AllByRecursion};
ghost use Rattle.std.specs.Option.{option_map_or};
ghost use Rattle.std.specs.Str.Lines.{lines as lines_of, strip_carriage_return};
ghost use Rattle.ck_text.specs.Words.{words_of};
ghost use Rattle.ck_script.specs.Built.{is_built};
ghost use Rattle.ck_script.specs.Names.{HaveValidNames};
ghost use Rattle.ck_script.specs.Places.{HavePlaces};
ghost use Rattle.ck_script.specs.declared.form.Form.TheVariants as forms;
ghost use Rattle.ck_script.specs.Parsed.{is_skipped as skips, long_line as long_line_of, nothing_read, with_line, read_lines, read_script};
ghost use Rattle.ck_script.specs.Steps.{IsFaultOf, IsRefusal, line_at};

use crate::form::built_form;
use crate::tally::Tally;
use crate::words::words_in;
use crate::{Lines, ParseFault, Refusal, Script};
use ck_model::SCRIPT_LIMIT;
use std::alloc::Global;

fn is_skipped(line: &[u8], words: &[&[u8]]) -> bool
    requires { list_map (λ word. word.now) words.now ≡ words_of line.now }
    ensures { result ≡ skips line.now }
{
    words.is_empty() || (!line.is_empty() && line[0] == b'#')
}

fn read_line(alloc: Global, tally: &mut Tally, number: u32, line: &[u8]) -> Result<(), ParseFault>
    ensures ok { OnOk result (with_line number tally.old line.now ≡ Some tally.new) }
    ensures err { IfErr result (IsRefusal number (with_line number tally.old line.now)) }
{
    let words = words_in(alloc, line)?;
    if is_skipped(line, &words) {
        return Ok(());
    }
    match built_form(alloc, &words) {
        Ok(form) => tally.add(number, form),
        Err(Refusal::NotThis) => Err(ParseFault::BadLine(number)),
        Err(Refusal::NoMemory) => Err(ParseFault::NoMemory),
    }
}

/// Where the line ends that begins here: at its line feed, or with the text.
fn line_end(text: &[u8], start: usize) -> usize
    requires { start ≤ length text.now }
    ensures end { result ≡ start + position_or_len (λ byte. byte == 10) (drop start text.now) }
    ensures within { result ≤ length text.now }
{
    for at in start..text.len() {
        if text[at] == b'\n' {
            return at;
        }
    }
    text.len()
}

fn without_return(line: &[u8]) -> &[u8]
    ensures { result.now ≡ strip_carriage_return line.now }
{
    if !line.is_empty() && line[line.len() - 1] == b'\r' {
        &line[..line.len() - 1]
    } else {
        line
    }
}

fn line_between(text: &[u8], start: usize, end: usize) -> &[u8]
    requires order { start ≤ end }
    requires within { end ≤ length text.now }
    ensures { result.now ≡ line_at text.now start end }
{
    if end < text.len() {
        without_return(&text[start..end])
    } else {
        &text[start..]
    }
}

fn line_feeds(bytes: &[u8]) -> u32
    requires { length bytes.now ≤ SCRIPT_LIMIT }
    ensures count { result ≡ count_by (λ byte. nat_eq byte 10) bytes.now }
    ensures few { result ≤ length bytes.now }
{
    bytes.iter().filter(|byte| **byte == b'\n').count() as u32
}

/// The number of the line with the byte behind the limit, if the text is so long.
fn long_line(bytes: &[u8]) -> Option<u32>
    ensures { result ≡ long_line_of bytes.now }
{
    if bytes.len() <= SCRIPT_LIMIT {
        return None;
    }
    Some(line_feeds(&bytes[..SCRIPT_LIMIT]) + 1)
}

fn is_long(number: u32, long: Option<u32>) -> bool
    ensures { result ≡ option_map_or (nat_eq number) long false }
{
    match long {
        Some(long) => number == long,
        None => false,
    }
}

fn read_text(alloc: Global, long: Option<u32>, text: &[u8]) -> Result<Tally, ParseFault>
    requires { length text.now ≤ SCRIPT_LIMIT }
    ensures read { IfOk result (λ tally. read_lines long 1 nothing_read (lines_of text.now) ≡ Ok tally) }
    ensures err { IfErr result (IsFaultOf (read_lines long 1 nothing_read (lines_of text.now))) }
{
    let mut tally = Tally::new(alloc);
    let mut number = 1;
    let mut at = 0;
    while at < text.len() {
        if is_long(number, long) {
            return Err(ParseFault::BadLine(number));
        }
        let end = line_end(text, at);
        read_line(alloc, &mut tally, number, line_between(text, at, end))?;
        at = end + 1;
        number += 1;
    }
    match long {
        Some(line) => Err(ParseFault::BadLine(line)),
        None => Ok(tally),
    }
}

/// The bytes up to the limit.
fn within_limit(bytes: &[u8]) -> &[u8]
    ensures text { result.now ≡ take SCRIPT_LIMIT bytes.now }
    ensures short { length result.now ≤ SCRIPT_LIMIT }
{
    if bytes.len() > SCRIPT_LIMIT {
        &bytes[..SCRIPT_LIMIT]
    } else {
        bytes
    }
}

/// The calls and turns of a script, or the number of its first line that is refused.
///
/// Of a script with more than 16,777,216 bytes only so many are looked at, and the line with the
/// next byte is refused.
pub fn parse(alloc: Global, bytes: &[u8]) -> Result<Script, ParseFault>
    ensures read { IfOk result (λ script. read_script bytes.now ≡ Ok (record { calls = script.calls; turns = script.turns })) }
    ensures built { IfOk result (λ script. AllByRecursion (λ line. IsTrue (is_built (forms.Called line.actor line.call))) script.calls) }
    ensures checkpoint_names { IfOk result (λ script. HaveValidNames script.calls) }
    ensures places { IfOk result (λ script. HavePlaces script.calls) }
    ensures refused { IfErr result (IsFaultOf (read_script bytes.now)) }
{
    let tally = read_text(alloc, long_line(bytes), within_limit(bytes))?;
    let (lines, turns) = tally.into_parts();
    Ok(Script {
        calls: Lines::of(lines),
        turns,
    })
}
