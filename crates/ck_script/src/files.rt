ghost use Rattle.std.specs.Prelude.{◌≡◌, ◌∷◌, [], map as list_map};
ghost use Rattle.std.specs.Option.{option_map};
ghost use Rattle.ck_model.specs.declared.call.Call.TheVariants as calls;
ghost use Rattle.ck_script.specs.Arguments.{checkpoint_name as name_in};
ghost use Rattle.ck_script.specs.Refusal.{Answers};
ghost use Rattle.ck_script.specs.Grammar.{mv_of as mv_in, write_of as write_in, fill_of as fill_in, trunc_of as trunc_in, read_of as read_in};

use crate::Refusal;
use crate::arguments::{byte_of, bytes_of, fill_length, path_of, place_of, read_length};
use ck_model::Call;
use std::alloc::Global;

fn mv(alloc: Global, path: &[u8], new_path: &[u8]) -> Result<Call, Refusal>
    ensures { Answers (mv_in (path.now ∷ new_path.now ∷ [])) result }
{
    let path = path_of(alloc, path)?;
    let new_path = path_of(alloc, new_path)?;
    Ok(Call::Mv(path, new_path))
}

pub fn mv_of(alloc: Global, words: &[&[u8]]) -> Result<Call, Refusal>
    ensures { Answers (mv_in (list_map (λ word. word.now) words.now)) result }
{
    match words {
        [path, new_path] => mv(alloc, path, new_path),
        _ => Err(Refusal::NotThis),
    }
}

fn write(alloc: Global, path: &[u8], at: &[u8], bytes: &[u8]) -> Result<Call, Refusal>
    ensures { Answers (write_in (path.now ∷ at.now ∷ bytes.now ∷ [])) result }
{
    let Some(at) = place_of(at) else {
        return Err(Refusal::NotThis);
    };
    let path = path_of(alloc, path)?;
    let bytes = bytes_of(alloc, bytes)?;
    Ok(Call::Write(path, at, bytes))
}

pub fn write_of(alloc: Global, words: &[&[u8]]) -> Result<Call, Refusal>
    ensures { Answers (write_in (list_map (λ word. word.now) words.now)) result }
{
    match words {
        [path, at, bytes] => write(alloc, path, at, bytes),
        _ => Err(Refusal::NotThis),
    }
}

fn fill(alloc: Global, path: &[u8], at: &[u8], len: &[u8], byte: &[u8]) -> Result<Call, Refusal>
    ensures { Answers (fill_in (path.now ∷ at.now ∷ len.now ∷ byte.now ∷ [])) result }
{
    let Some(at) = place_of(at) else {
        return Err(Refusal::NotThis);
    };
    let Some(len) = fill_length(len) else {
        return Err(Refusal::NotThis);
    };
    let byte = byte_of(alloc, byte)?;
    Ok(Call::Fill(path_of(alloc, path)?, at, len, byte))
}

pub fn fill_of(alloc: Global, words: &[&[u8]]) -> Result<Call, Refusal>
    ensures { Answers (fill_in (list_map (λ word. word.now) words.now)) result }
{
    match words {
        [path, at, len, byte] => fill(alloc, path, at, len, byte),
        _ => Err(Refusal::NotThis),
    }
}

fn trunc(alloc: Global, path: &[u8], size: &[u8]) -> Result<Call, Refusal>
    ensures { Answers (trunc_in (path.now ∷ size.now ∷ [])) result }
{
    let Some(size) = place_of(size) else {
        return Err(Refusal::NotThis);
    };
    Ok(Call::Trunc(path_of(alloc, path)?, size))
}

pub fn trunc_of(alloc: Global, words: &[&[u8]]) -> Result<Call, Refusal>
    ensures { Answers (trunc_in (list_map (λ word. word.now) words.now)) result }
{
    match words {
        [path, size] => trunc(alloc, path, size),
        _ => Err(Refusal::NotThis),
    }
}

fn read(alloc: Global, path: &[u8], at: &[u8], len: &[u8]) -> Result<Call, Refusal>
    ensures { Answers (read_in (path.now ∷ at.now ∷ len.now ∷ [])) result }
{
    let Some(at) = place_of(at) else {
        return Err(Refusal::NotThis);
    };
    let Some(len) = read_length(len) else {
        return Err(Refusal::NotThis);
    };
    Ok(Call::Read(path_of(alloc, path)?, at, len))
}

pub fn read_of(alloc: Global, words: &[&[u8]]) -> Result<Call, Refusal>
    ensures { Answers (read_in (list_map (λ word. word.now) words.now)) result }
{
    match words {
        [path, at, len] => read(alloc, path, at, len),
        _ => Err(Refusal::NotThis),
    }
}
