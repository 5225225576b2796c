ghost use Rattle.std.specs.Prelude.{◌≡◌, ◌++◌, OnOk, IfOk};
ghost use Rattle.ck_model.specs.History.{call_at};
ghost use Rattle.ck_script.specs.Numbered.{calls_in, IsNumbered};
ghost use Rattle.std.specs.Fmt.{decimal};
ghost use Rattle.ck_report.specs.Printed.{IsNumber, IsProper, IsProperIn, AreProper};
ghost use Rattle.ck_report.specs.Words.{number_words};
ghost use Rattle.ck_report.specs.Transcript.{entry_head, answer_text, entry_text, transcript_text};

use crate::calls::put_call;
use crate::places::{Places, find_call};
use crate::put::{put, put_number};
use crate::replies::put_reply;
use ck_model::{Call, Entry, NoMemory, Reply};
use ck_script::{Line, Script};
use ck_text::put_decimal;
use std::alloc::Global;

fn put_small(out: &mut Vec<u8>, number: u32) -> Result<(), NoMemory>
    ensures { OnOk result (out.new.items ≡ out.old.items ++ decimal number) }
{
    put_decimal(out, u64::from(number))
}

fn put_small_word(out: &mut Vec<u8>, number: u32) -> Result<(), NoMemory>
    ensures { OnOk result (out.new.items ≡ out.old.items ++ number_words number) }
{
    put_number(out, u64::from(number))
}

fn put_head(out: &mut Vec<u8>, entry: &Entry) -> Result<(), NoMemory>
    ensures text { OnOk result (out.new.items ≡ out.old.items ++ entry_head entry.now) }
    ensures actor { OnOk result (IsNumber entry.now.actor) }
    ensures seq { OnOk result (IsNumber entry.now.seq) }
    ensures at { OnOk result (IsNumber entry.now.at) }
    ensures given { OnOk result (IsNumber entry.now.given) }
{
    put_small(out, entry.actor)?;
    put(out, b".")?;
    put_small(out, entry.seq)?;
    put_number(out, entry.at)?;
    put_small_word(out, entry.given)?;
    Ok(())
}

fn put_answer(out: &mut Vec<u8>, call: &Call, reply: &Reply) -> Result<(), NoMemory>
    ensures text { OnOk result (out.new.items ≡ out.old.items ++ answer_text call.now reply.now) }
    ensures proper { OnOk result (IsProper reply.now) }
{
    put(out, b" ")?;
    put_call(out, call)?;
    put(out, b" = ")?;
    put_reply(out, reply)?;
    put(out, b"\n")?;
    Ok(())
}

fn put_entry(
    out: &mut Vec<u8>,
    entry: &Entry,
    lines: &[Line],
    places: &mut Places,
) -> Result<(), NoMemory>
    requires { IsNumbered lines.now }
    ensures text { OnOk result (out.new.items ≡ out.old.items ++ entry_text (call_at (calls_in lines.now)) entry.now) }
    ensures proper { OnOk result (IsProperIn (call_at (calls_in lines.now)) entry.now) }
{
    match find_call(lines, places, entry.actor, entry.seq) {
        Some(call) => {
            put_head(out, entry)?;
            put_answer(out, call, &entry.reply)
        }
        None => Ok(()),
    }
}

/// The text of a history: one line for each entry, in order. Its numbers, bytes and names are such
/// that the text tells it (`texts_tell`).
pub fn transcript(alloc: Global, history: &[Entry], script: &Script) -> Result<Vec<u8>, NoMemory>
    ensures text { IfOk result (λ text. text.items ≡ transcript_text (call_at (calls_in script.now.calls)) history.now) }
    ensures proper { OnOk result (AreProper (call_at (calls_in script.now.calls)) history.now) }
{
    let lines = script.calls.items();
    let mut places = Places::new();
    let mut text = Vec::new(alloc);
    for entry in history {
        put_entry(&mut text, entry, lines, &mut places)?;
    }
    Ok(text)
}
