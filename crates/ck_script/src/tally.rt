ghost use Rattle.std.specs.Prelude.{◌≡◌, ◌+◌, ◌<◌, ◌≤◌, ◌++◌, [], ◌∷◌, Some, OnOk, IfErr, IsTrue, length};
ghost use Rattle.ck_script.specs.Limits.{asked_by as bytes_asked_by, streams_by as streams_given_by, are_within_limits};
ghost use Rattle.ck_script.specs.Numbered.{numbers_in};
ghost use Rattle.ck_script.specs.Parsed.{nothing_read, line_of, with_call, with_form};
ghost use Rattle.ck_script.specs.Steps.{HasActor, IsRefusal};
ghost use Rattle.ck_script.specs.declared.fault.ParseFault.TheVariants as faults;

use crate::form::Form;
use crate::{Line, ParseFault, Turns};
use ck_model::Call;
use std::alloc::Global;
use std::marker::Model;

/// The most calls of a script.
const CALL_LIMIT: usize = 65_536;

/// The most bytes that its reads may ask for together.
const LENGTH_LIMIT: u64 = 268_435_456;

/// The most streams that its calls may give.
const STREAM_LIMIT: u32 = 16;

/// Actors have numbers below this one.
const ACTORS: usize = 65;

/// What was read of a script so far, and the sums over its calls.
#[derive(Drop)]
pub struct Tally {
    lines: Vec<Line>,
    turns: Vec<u32>,
    /// How many bytes the calls ask for together.
    asked: u64,
    /// How many streams the calls give.
    streams: u32,
    /// How many calls each actor has.
    counts: [u32; ACTORS],
}

impl Model for Tally {
    ghost use Rattle.ck_script.specs.Parsed.{Parsed};
    ghost use Rattle.ck_script.specs.Steps.{IsTally};

    ghost Value = { Parsed };

    ghost view = { λ tally. record { calls = tally.lines.items; turns = tally.turns.items } };

    ghost invariant = { λ tally. IsTally tally.lines.items tally.asked tally.streams tally.counts };
}

fn asked_by(call: &Call) -> u32
    ensures { result ≡ bytes_asked_by call.now }
{
    match call {
        Call::Read(_, _, len) | Call::Cread(_, _, _, len) => *len,
        _ => 0,
    }
}

fn streams_by(call: &Call) -> u32
    ensures { result ≡ streams_given_by call.now }
{
    match call {
        Call::Backup(_, _) | Call::Full(_) => 1,
        _ => 0,
    }
}

impl Tally {
    pub fn new(alloc: Global) -> Tally
        ensures { result ≡ nothing_read }
    {
        Tally {
            lines: Vec::new(alloc),
            turns: Vec::new(alloc),
            asked: 0,
            streams: 0,
            counts: [0; ACTORS],
        }
    }

    /// The line of an actor's next call.
    fn line(&self, number: u32, actor: u32, call: Call) -> Line
        requires { actor < ACTORS }
        ensures { result ≡ line_of self.now.calls number actor call }
    {
        Line {
            actor,
            seq: self.counts[actor as usize] + 1,
            line: number,
            call,
        }
    }

    fn has_room(&self, line: &Line) -> bool
        ensures { result ≡ are_within_limits (self.now.calls ++ line.now ∷ []) }
    {
        self.lines.len() < CALL_LIMIT
            && self.asked + u64::from(asked_by(&line.call)) <= LENGTH_LIMIT
            && self.streams + streams_by(&line.call) <= STREAM_LIMIT
    }

    fn push(&mut self, line: Line) -> Result<(), ParseFault>
        requires within { IsTrue (are_within_limits (self.old.calls ++ line ∷ [])) }
        requires actor { line.actor < ACTORS }
        ensures calls { OnOk result (self.new ≡ record { calls = self.old.calls ++ line ∷ []; turns = self.old.turns }) }
        ensures err { IfErr result (λ fault. fault ≡ faults.NoMemory) }
    {
        let actor = line.actor as usize;
        let asked = u64::from(asked_by(&line.call));
        let streams = streams_by(&line.call);
        self.lines.push(line)?;
        self.asked += asked;
        self.streams += streams;
        self.counts[actor] += 1;
        Ok(())
    }

    fn add_call(&mut self, line: Line) -> Result<(), ParseFault>
        requires { line.actor < ACTORS }
        ensures ok { OnOk result (with_call self.old line ≡ Some self.new) }
        ensures err { IfErr result (IsRefusal line.line (with_call self.old line)) }
    {
        if !self.has_room(&line) {
            return Err(ParseFault::BadLine(line.line));
        }
        self.push(line)
    }

    fn add_turns(&mut self, turns: &Turns) -> Result<(), ParseFault>
        ensures ok { OnOk result (self.new ≡ record { calls = self.old.calls; turns = self.old.turns ++ turns.now }) }
        ensures err { IfErr result (λ fault. fault ≡ faults.NoMemory) }
    {
        self.turns.extend_from_slice(turns.items())?;
        Ok(())
    }

    /// Takes in what the line with this number stands for, unless a limit is passed with it.
    pub fn add(&mut self, number: u32, form: Form) -> Result<(), ParseFault>
        requires { HasActor form }
        ensures ok { OnOk result (with_form number self.old form ≡ Some self.new) }
        ensures err { IfErr result (IsRefusal number (with_form number self.old form)) }
    {
        match form {
            Form::Called(actor, call) => {
                let line = self.line(number, actor, call);
                self.add_call(line)
            }
            Form::Turned(turns) => self.add_turns(&turns),
        }
    }

    pub fn into_parts(self) -> (Vec<Line>, Turns)
        ensures calls { result.0.items ≡ self.calls }
        ensures turns { result.1 ≡ self.turns }
    {
        (self.lines, Turns::of(self.turns))
    }
}
