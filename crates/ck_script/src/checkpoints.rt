ghost use Rattle.std.specs.Prelude.{◌≡◌, ◌∷◌, [], map as list_map};
ghost use Rattle.ck_script.specs.Grammar.{create_of as create_in, nodata_of as nodata_in, removable_of as removable_in, mount_of as mount_in, cread_of as cread_in, cls_of as cls_in, backup_of as backup_in};
ghost use Rattle.ck_script.specs.Arguments.{checkpoint_name as name_in};
ghost use Rattle.ck_script.specs.Refusal.{Answers};
ghost use Rattle.std.specs.Option.{option_map};
ghost use Rattle.ck_model.specs.declared.call.Call.TheVariants as calls;

use crate::Refusal;
use crate::arguments::{
    checkpoint_name, is_text, letter_of, path_of, place_of, read_length, switch_of,
};
use ck_model::Call;
use std::alloc::Global;

fn create(name: &[u8], nodata: bool, removable: bool) -> Option<Call>
    ensures { result ≡ option_map (λ name. calls.Create name nodata removable) (name_in name.now) }
{
    match checkpoint_name(name) {
        Some(name) => Some(Call::Create(name, nodata, removable)),
        None => None,
    }
}

pub fn create_of(words: &[&[u8]]) -> Option<Call>
    ensures { result ≡ create_in (list_map (λ word. word.now) words.now) }
{
    match words {
        [name] => create(name, false, false),
        [flag, name] => create_with(flag, name),
        [nodata, removable, name] => create_with_both(nodata, removable, name),
        _ => None,
    }
}

fn create_with(flag: &[u8], name: &[u8]) -> Option<Call>
    ensures { result ≡ create_in (flag.now ∷ name.now ∷ []) }
{
    if is_text(flag, b"-n") {
        create(name, true, false)
    } else if is_text(flag, b"-r") {
        create(name, false, true)
    } else {
        None
    }
}

fn create_with_both(nodata: &[u8], removable: &[u8], name: &[u8]) -> Option<Call>
    ensures { result ≡ create_in (nodata.now ∷ removable.now ∷ name.now ∷ []) }
{
    if is_text(nodata, b"-n") && is_text(removable, b"-r") {
        create(name, true, true)
    } else {
        None
    }
}

fn nodata(name: &[u8], synchronous: bool) -> Option<Call>
    ensures { result ≡ option_map (λ name. calls.Nodata name synchronous) (name_in name.now) }
{
    match checkpoint_name(name) {
        Some(name) => Some(Call::Nodata(name, synchronous)),
        None => None,
    }
}

pub fn nodata_of(words: &[&[u8]]) -> Option<Call>
    ensures { result ≡ nodata_in (list_map (λ word. word.now) words.now) }
{
    match words {
        [name] => nodata(name, false),
        [flag, name] if is_text(flag, b"-s") => nodata(name, true),
        _ => None,
    }
}

fn removable(name: &[u8], switch: &[u8]) -> Option<Call>
    ensures { result ≡ removable_in (name.now ∷ switch.now ∷ []) }
{
    let name = checkpoint_name(name)?;
    let on = switch_of(switch)?;
    Some(Call::Removable(name, on))
}

pub fn removable_of(words: &[&[u8]]) -> Option<Call>
    ensures { result ≡ removable_in (list_map (λ word. word.now) words.now) }
{
    match words {
        [name, switch] => removable(name, switch),
        _ => None,
    }
}

fn mount(letter: &[u8], name: &[u8]) -> Option<Call>
    ensures { result ≡ mount_in (letter.now ∷ name.now ∷ []) }
{
    let letter = letter_of(letter)?;
    let name = checkpoint_name(name)?;
    Some(Call::Mount(letter, name))
}

pub fn mount_of(words: &[&[u8]]) -> Option<Call>
    ensures { result ≡ mount_in (list_map (λ word. word.now) words.now) }
{
    match words {
        [letter, name] => mount(letter, name),
        _ => None,
    }
}

fn cread(alloc: Global, letter: &[u8], path: &[u8], at: &[u8], len: &[u8]) -> Result<Call, Refusal>
    ensures { Answers (cread_in (letter.now ∷ path.now ∷ at.now ∷ len.now ∷ [])) result }
{
    let Some(letter) = letter_of(letter) else {
        return Err(Refusal::NotThis);
    };
    let Some(at) = place_of(at) else {
        return Err(Refusal::NotThis);
    };
    let Some(len) = read_length(len) else {
        return Err(Refusal::NotThis);
    };
    Ok(Call::Cread(letter, path_of(alloc, path)?, at, len))
}

pub fn cread_of(alloc: Global, words: &[&[u8]]) -> Result<Call, Refusal>
    ensures { Answers (cread_in (list_map (λ word. word.now) words.now)) result }
{
    match words {
        [letter, path, at, len] => cread(alloc, letter, path, at, len),
        _ => Err(Refusal::NotThis),
    }
}

fn cls(alloc: Global, letter: &[u8], path: &[u8]) -> Result<Call, Refusal>
    ensures { Answers (cls_in (letter.now ∷ path.now ∷ [])) result }
{
    let Some(letter) = letter_of(letter) else {
        return Err(Refusal::NotThis);
    };
    Ok(Call::Clist(letter, path_of(alloc, path)?))
}

pub fn cls_of(alloc: Global, words: &[&[u8]]) -> Result<Call, Refusal>
    ensures { Answers (cls_in (list_map (λ word. word.now) words.now)) result }
{
    match words {
        [letter, path] => cls(alloc, letter, path),
        _ => Err(Refusal::NotThis),
    }
}

fn backup(letter: &[u8], later: &[u8]) -> Option<Call>
    ensures { result ≡ backup_in (letter.now ∷ later.now ∷ []) }
{
    let letter = letter_of(letter)?;
    let later = letter_of(later)?;
    Some(Call::Backup(letter, later))
}

pub fn backup_of(words: &[&[u8]]) -> Option<Call>
    ensures { result ≡ backup_in (list_map (λ word. word.now) words.now) }
{
    match words {
        [letter, later] => backup(letter, later),
        _ => None,
    }
}
