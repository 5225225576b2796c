ghost use Rattle.std.specs.Prelude.{◌≡◌, ◌∷◌, Some, None, OnOk, IfOk, if◌then◌else◌, map as list_map};
ghost use Rattle.std.specs.Option.{option_and_then, option_map};
ghost use Rattle.ck_script.specs.Arguments.{actor_of as actor_in};
ghost use Rattle.ck_script.specs.Built.{is_built as built, is_built_call as built_call};
ghost use Rattle.ck_script.specs.Grammar.{call_of as call_in, turn_of as turn_in, turns_of as turns_in, form_of as form_for};
ghost use Rattle.ck_script.specs.Parsed.{built_form as built_form_for};
ghost use Rattle.ck_script.specs.Refusal.{Answers};
ghost use Rattle.ck_script.specs.Steps.{HasActor};
ghost use Rattle.ck_script.specs.declared.form.Form.TheVariants as forms;

use crate::arguments::{actor_of, is_text};
use crate::calls::call_of;
use crate::{Refusal, Turns};
use ck_model::Call;
use std::alloc::Global;

/// What a line stands for.
#[derive(Debug, Drop)]
pub enum Form {
    /// A call of the actor with this number.
    Called(u32, Call),
    Turned(Turns),
}

/// What a line with these words stands for, where it is built.
pub fn built_form(alloc: Global, words: &[&[u8]]) -> Result<Form, Refusal>
    ensures form { Answers (built_form_for (list_map (λ word. word.now) words.now)) result }
    ensures actor { IfOk result HasActor }
{
    let form = form_of(alloc, words)?;
    if is_built(&form) {
        Ok(form)
    } else {
        Err(Refusal::NotThis)
    }
}

fn is_built(form: &Form) -> bool
    ensures { result ≡ built form.now }
{
    match form {
        Form::Called(_, call) => is_built_call(call),
        Form::Turned(_) => true,
    }
}

fn is_built_call(call: &Call) -> bool
    ensures { result ≡ built_call call.now }
{
    match call {
        Call::Restore(_) | Call::Backup(_, _) | Call::Full(_) => false,
        _ => true,
    }
}

fn form_of(alloc: Global, words: &[&[u8]]) -> Result<Form, Refusal>
    ensures { Answers (form_for (list_map (λ word. word.now) words.now)) result }
{
    match words {
        [first, rest @ ..] => form_by(alloc, first, rest),
        [] => Err(Refusal::NotThis),
    }
}

fn form_by(alloc: Global, first: &[u8], words: &[&[u8]]) -> Result<Form, Refusal>
    ensures { Answers (form_for (first.now ∷ list_map (λ word. word.now) words.now)) result }
{
    if is_text(first, b"turns") {
        Ok(Form::Turned(turns_of(alloc, words)?))
    } else {
        called(alloc, first, words)
    }
}

fn called(alloc: Global, actor: &[u8], words: &[&[u8]]) -> Result<Form, Refusal>
    ensures { Answers (option_and_then (λ actor. option_map (λ call. forms.Called actor call) (call_in (list_map (λ word. word.now) words.now))) (actor_in actor.now)) result }
{
    let Some(actor) = actor_of(actor) else {
        return Err(Refusal::NotThis);
    };
    Ok(Form::Called(actor, call_of(alloc, words)?))
}

fn turns_of(alloc: Global, words: &[&[u8]]) -> Result<Turns, Refusal>
    ensures { Answers (turns_in (list_map (λ word. word.now) words.now)) result }
{
    let mut turns = Vec::new(alloc);
    for word in words {
        let Some(turn) = turn_of(word) else {
            return Err(Refusal::NotThis);
        };
        turns.push(turn)?;
    }
    Ok(Turns::of(turns))
}

fn turn_of(word: &[u8]) -> Option<u32>
    ensures { result ≡ turn_in word.now }
{
    if is_text(word, b"b") {
        Some(0)
    } else {
        actor_of(word)
    }
}
