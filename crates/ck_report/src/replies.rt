ghost use Rattle.std.specs.Prelude.{◌≡◌, ◌++◌, codes, length, OnOk};
ghost use Rattle.std.specs.List.{AllByRecursion, flat_map};
ghost use Rattle.ck_report.specs.Words.{reply_words, child_words, bytes_words, state_word, keep_word, line_words, space_word, share_words, checkpoints_words, counts_words, stream_words, digest_in, number_words};
ghost use Rattle.ck_model.specs.declared.reply.Reply.TheVariants as reply;
ghost use Rattle.ck_report.specs.Printed.{IsProper, IsProperDirectory, IsProperLine, IsProperListing};
ghost use Rattle.ck_model.specs.Name.{IsName};
ghost use Rattle.std.specs.Fmt.{decimal};
ghost use Rattle.hex.specs.Hex.{IsBytes, encode_lower};

use crate::put::{put, put_bytes, put_number, put_word};
use ck_model::{Child, CkptLine, NoMemory, Reply, SpaceOf, State};
use ck_text::{put_decimal, put_hex};

/// The words of a reply.
pub fn put_reply(out: &mut Vec<u8>, reply: &Reply) -> Result<(), NoMemory>
    ensures text { OnOk result (out.new.items ≡ out.old.items ++ reply_words reply.now) }
    ensures proper { OnOk result (IsProper reply.now) }
{
    match reply {
        Reply::Done => put(out, b"Ok"),
        Reply::Delayed => put(out, b"Ok delayed"),
        Reply::Bytes(bytes) => put_data(out, bytes.items()),
        Reply::Names(children) => put_directory(out, children.items()),
        Reply::StatFile(node, size) => put_numbers(out, b"Ok file", u64::from(*node), *size),
        Reply::StatDir(node, count) => put_numbers(
            out,
            b"Ok dir",
            u64::from(*node),
            u64::from(*count),
        ),
        Reply::Created(id) => put_numbered(out, b"Ok id", *id),
        Reply::Listing(lines) => put_listing(out, lines.items()),
        Reply::Info(held, blocks, records, limit, checkpoints) => put_counts(
            out,
            *held,
            *blocks,
            *records,
            *limit,
            *checkpoints,
        ),
        Reply::Streamed(records, stream) => put_stream(out, *records, stream.items()),
        Reply::NotFound => put(out, b"NotFound"),
        Reply::NotDir => put(out, b"NotDir"),
        Reply::IsDir => put(out, b"IsDir"),
        Reply::Exists => put(out, b"Exists"),
        Reply::NotEmpty => put(out, b"NotEmpty"),
        Reply::Root => put(out, b"Root"),
        Reply::TooBig(size, limit) => put_numbers(out, b"TooBig", *size, *limit),
        Reply::NoCkpt => put(out, b"NoCkpt"),
        Reply::TooMany(limit) => put_numbered(out, b"TooMany", *limit),
        Reply::Spent => put(out, b"Spent"),
        Reply::InUse => put(out, b"InUse"),
        Reply::NotMounted => put(out, b"NotMounted"),
        Reply::Gone(id) => put_numbered(out, b"Gone", *id),
        Reply::NoData(id) => put_numbered(out, b"NoData", *id),
        Reply::NotNewer(first, second) => put_numbers(
            out,
            b"NotNewer",
            u64::from(*first),
            u64::from(*second),
        ),
        Reply::NotData => put(out, b"NotData"),
        Reply::NoSpace(what, held, need, limit) => put_space(out, *what, *held, *need, *limit),
        Reply::ReadFault => put(out, b"ReadFault"),
        Reply::WriteFault => put(out, b"WriteFault"),
        Reply::Broken(entries) => put_numbered(out, b"Broken", *entries),
        Reply::NoMemory => put(out, b"NoMemory"),
    }
}

/// A text, and a number behind it.
fn put_numbered(out: &mut Vec<u8>, text: &[u8], number: u32) -> Result<(), NoMemory>
    ensures { OnOk result (out.new.items ≡ out.old.items ++ (text.now ++ number_words number)) }
{
    put(out, text)?;
    put_number(out, u64::from(number))
}

/// A text, and two numbers behind it.
fn put_numbers(out: &mut Vec<u8>, text: &[u8], first: u64, second: u64) -> Result<(), NoMemory>
    ensures { OnOk result (out.new.items ≡ out.old.items ++ (text.now ++ number_words first ++ number_words second)) }
{
    put(out, text)?;
    put_number(out, first)?;
    put_number(out, second)
}

fn put_data(out: &mut Vec<u8>, bytes: &[u8]) -> Result<(), NoMemory>
    ensures text { OnOk result (out.new.items ≡ out.old.items ++ (codes "Ok" ++ bytes_words bytes.now)) }
    ensures bytes { OnOk result (IsBytes bytes.now) }
{
    put(out, b"Ok")?;
    put_bytes(out, bytes)
}

fn put_count(out: &mut Vec<u8>, count: usize) -> Result<(), NoMemory>
    ensures { OnOk result (out.new.items ≡ out.old.items ++ (codes "Ok" ++ number_words count)) }
{
    put(out, b"Ok")?;
    put_number(out, count as u64)
}

fn put_directory(out: &mut Vec<u8>, children: &[Child]) -> Result<(), NoMemory>
    ensures text { OnOk result (out.new.items ≡ out.old.items ++ (codes "Ok" ++ number_words (length children.now) ++ flat_map child_words children.now)) }
    ensures proper { OnOk result (IsProperDirectory children.now) }
{
    put_count(out, children.len())?;
    put_children(out, children)
}

fn put_children(out: &mut Vec<u8>, children: &[Child]) -> Result<(), NoMemory>
    ensures text { OnOk result (out.new.items ≡ out.old.items ++ flat_map child_words children.now) }
    ensures names { OnOk result (AllByRecursion (λ child. IsName child.name) children.now) }
{
    for child in children {
        put_child(out, child)?;
    }
    Ok(())
}

fn put_child(out: &mut Vec<u8>, child: &Child) -> Result<(), NoMemory>
    ensures text { OnOk result (out.new.items ≡ out.old.items ++ child_words child.now) }
    ensures name { IsName child.now.name }
{
    put_word(out, child.name.bytes())?;
    if child.dir { put(out, b"/") } else { Ok(()) }
}

fn put_listing(out: &mut Vec<u8>, lines: &[CkptLine]) -> Result<(), NoMemory>
    ensures text { OnOk result (out.new.items ≡ out.old.items ++ (codes "Ok" ++ number_words (length lines.now) ++ flat_map line_words lines.now)) }
    ensures proper { OnOk result (IsProperListing lines.now) }
{
    put_count(out, lines.len())?;
    put_lines(out, lines)
}

fn put_lines(out: &mut Vec<u8>, lines: &[CkptLine]) -> Result<(), NoMemory>
    ensures text { OnOk result (out.new.items ≡ out.old.items ++ flat_map line_words lines.now) }
    ensures proper { OnOk result (AllByRecursion IsProperLine lines.now) }
{
    for line in lines {
        put_line(out, line)?;
    }
    Ok(())
}

fn put_line(out: &mut Vec<u8>, line: &CkptLine) -> Result<(), NoMemory>
    ensures text { OnOk result (out.new.items ≡ out.old.items ++ line_words line.now) }
    ensures proper { OnOk result (IsProperLine line.now) }
{
    put_number(out, u64::from(line.id))?;
    put_part(out, state_text(line.state))?;
    put_part(out, keep_text(line.removable))?;
    put_moment(out, line.ctime)?;
    put_part(out, line.name.bytes())
}

/// A colon, and then the text.
fn put_part(out: &mut Vec<u8>, text: &[u8]) -> Result<(), NoMemory>
    ensures { OnOk result (out.new.items ≡ out.old.items ++ codes ":" ++ text.now) }
{
    put(out, b":")?;
    put(out, text)
}

fn put_moment(out: &mut Vec<u8>, moment: u64) -> Result<(), NoMemory>
    ensures { OnOk result (out.new.items ≡ out.old.items ++ codes ":" ++ decimal moment) }
{
    put(out, b":")?;
    put_decimal(out, moment)
}

pub fn state_text(state: State) -> &'static [u8]
    ensures { result.now ≡ state_word state }
{
    match state {
        State::Keeping => b"data",
        State::Nodata => b"nodata",
        State::Delayed => b"delayed",
    }
}

pub fn keep_text(removable: bool) -> &'static [u8]
    ensures { result.now ≡ keep_word removable }
{
    if removable { b"removable" } else { b"keep" }
}

fn space_text(what: SpaceOf) -> &'static [u8]
    ensures { result.now ≡ space_word what }
{
    match what {
        SpaceOf::Blocks => b"blocks",
        SpaceOf::Records => b"records",
    }
}

fn put_share(out: &mut Vec<u8>, text: &[u8], used: u64, limit: u64) -> Result<(), NoMemory>
    ensures { OnOk result (out.new.items ≡ out.old.items ++ share_words text.now used limit) }
{
    put(out, text)?;
    put_number(out, used)?;
    put(out, b" of")?;
    put_number(out, limit)
}

fn put_counts(
    out: &mut Vec<u8>,
    held: u64,
    blocks: u64,
    records: u64,
    limit: u64,
    checkpoints: u32,
) -> Result<(), NoMemory>
    ensures { OnOk result (out.new.items ≡ out.old.items ++ counts_words held blocks records limit checkpoints) }
{
    put_share(out, b"Ok held", held, blocks)?;
    put_share(out, b" records", records, limit)?;
    put_checkpoints(out, checkpoints)?;
    Ok(())
}

fn put_checkpoints(out: &mut Vec<u8>, checkpoints: u32) -> Result<(), NoMemory>
    ensures { OnOk result (out.new.items ≡ out.old.items ++ checkpoints_words checkpoints) }
{
    put(out, b" checkpoints")?;
    put_number(out, u64::from(checkpoints))
}

fn put_space(
    out: &mut Vec<u8>,
    what: SpaceOf,
    held: u64,
    need: u64,
    limit: u64,
) -> Result<(), NoMemory>
    ensures { OnOk result (out.new.items ≡ out.old.items ++ reply_words (reply.NoSpace what held need limit)) }
{
    put(out, b"NoSpace")?;
    put_word(out, space_text(what))?;
    put_number(out, held)?;
    put_number(out, need)?;
    put_number(out, limit)
}

/// The last 32 bytes.
fn digest_of(stream: &[u8]) -> &[u8]
    ensures { result.now ≡ digest_in stream.now }
{
    &stream[stream.len().saturating_sub(32)..]
}

fn put_digest(out: &mut Vec<u8>, stream: &[u8]) -> Result<(), NoMemory>
    ensures { OnOk result (out.new.items ≡ out.old.items ++ encode_lower (digest_in stream.now)) }
{
    put_hex(out, digest_of(stream))
}

fn put_stream(out: &mut Vec<u8>, records: u64, stream: &[u8]) -> Result<(), NoMemory>
    ensures text { OnOk result (out.new.items ≡ out.old.items ++ stream_words records stream.now) }
    ensures bytes { IsBytes stream.now }
{
    put(out, b"Ok records")?;
    put_number(out, records)?;
    put(out, b" sha256 ")?;
    put_digest(out, stream)?;
    Ok(())
}
