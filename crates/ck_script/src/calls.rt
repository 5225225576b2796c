ghost use Rattle.std.specs.Prelude.{◌≡◌, ◌∷◌, map as list_map};
ghost use Rattle.ck_script.specs.Grammar.{path_alone as lone_path, name_alone as lone_name, letter_alone as lone_letter, alone as lone_call, call_with as call_by, call_of as call_in};
ghost use Rattle.ck_script.specs.Refusal.{Answers};

use crate::Refusal;
use crate::arguments::{checkpoint_name, letter_of, path_of};
use crate::checkpoints::{
    backup_of, cls_of, cread_of, create_of, mount_of, nodata_of, removable_of,
};
use crate::files::{fill_of, mv_of, read_of, trunc_of, write_of};
use crate::verb::Verb;
use ck_model::{Call, NameBytes, Path};
use std::alloc::Global;

fn path_alone(alloc: Global, words: &[&[u8]]) -> Result<Path, Refusal>
    ensures { Answers (lone_path (list_map (λ word. word.now) words.now)) result }
{
    match words {
        [path] => path_of(alloc, path),
        _ => Err(Refusal::NotThis),
    }
}

fn name_alone(words: &[&[u8]]) -> Result<NameBytes, Refusal>
    ensures { Answers (lone_name (list_map (λ word. word.now) words.now)) result }
{
    match words {
        [name] => match checkpoint_name(name) {
            Some(name) => Ok(name),
            None => Err(Refusal::NotThis),
        },
        _ => Err(Refusal::NotThis),
    }
}

fn letter_alone(words: &[&[u8]]) -> Result<u8, Refusal>
    ensures { Answers (lone_letter (list_map (λ word. word.now) words.now)) result }
{
    match words {
        [letter] => letter_of(letter).ok_or(Refusal::NotThis),
        _ => Err(Refusal::NotThis),
    }
}

fn alone(call: Call, words: &[&[u8]]) -> Result<Call, Refusal>
    ensures { Answers (lone_call call (list_map (λ word. word.now) words.now)) result }
{
    if words.is_empty() {
        Ok(call)
    } else {
        Err(Refusal::NotThis)
    }
}

fn required(call: Option<Call>) -> Result<Call, Refusal>
    ensures { Answers call result }
{
    match call {
        Some(call) => Ok(call),
        None => Err(Refusal::NotThis),
    }
}

fn call_with(alloc: Global, verb: Verb, words: &[&[u8]]) -> Result<Call, Refusal>
    ensures { Answers (call_by verb (list_map (λ word. word.now) words.now)) result }
{
    match verb {
        Verb::Make => Ok(Call::Make(path_alone(alloc, words)?)),
        Verb::Mkdir => Ok(Call::Mkdir(path_alone(alloc, words)?)),
        Verb::Rm => Ok(Call::Rm(path_alone(alloc, words)?)),
        Verb::Rmdir => Ok(Call::Rmdir(path_alone(alloc, words)?)),
        Verb::Mv => mv_of(alloc, words),
        Verb::Write => write_of(alloc, words),
        Verb::Fill => fill_of(alloc, words),
        Verb::Trunc => trunc_of(alloc, words),
        Verb::Read => read_of(alloc, words),
        Verb::Ls => Ok(Call::List(path_alone(alloc, words)?)),
        Verb::Stat => Ok(Call::Stat(path_alone(alloc, words)?)),
        Verb::Create => required(create_of(words)),
        Verb::Remove => Ok(Call::Remove(name_alone(words)?)),
        Verb::Nodata => required(nodata_of(words)),
        Verb::Removable => required(removable_of(words)),
        Verb::Ckpts => alone(Call::Ckpts, words),
        Verb::Mount => required(mount_of(words)),
        Verb::Umount => Ok(Call::Umount(letter_alone(words)?)),
        Verb::Cread => cread_of(alloc, words),
        Verb::Cls => cls_of(alloc, words),
        Verb::Restore => Ok(Call::Restore(name_alone(words)?)),
        Verb::Backup => required(backup_of(words)),
        Verb::Full => Ok(Call::Full(letter_alone(words)?)),
        Verb::Info => alone(Call::Info, words),
        Verb::Sync => alone(Call::Sync, words),
    }
}

/// The call that these words stand for.
pub fn call_of(alloc: Global, words: &[&[u8]]) -> Result<Call, Refusal>
    ensures { Answers (call_in (list_map (λ word. word.now) words.now)) result }
{
    let [word, rest @ ..] = words else {
        return Err(Refusal::NotThis);
    };
    match Verb::of(word) {
        Some(verb) => call_with(alloc, verb, rest),
        None => Err(Refusal::NotThis),
    }
}
