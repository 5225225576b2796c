ghost use Rattle.std.specs.Prelude.{◌≡◌, ◌≤◌, ◌<◌, ◌+◌, IfSome, length, slice_get, take};
ghost use Rattle.ck_script.specs.Numbered.{numbers_in, IsNumbered};
ghost use Rattle.ck_actor.specs.Place.{next_number as number_of_next, IsFound};

use ck_script::Line;

/// Where an actor stands in a script.
#[derive(Clone, Copy, Debug)]
pub struct Place {
    pub actor: u32,
    /// Its calls in the lines before this one, counted from 0, are through.
    pub line: usize,
}

/// The first line of an actor's call from a line on, or the end.
fn next_line(lines: &[Line], from: usize, actor: u32) -> usize
    ensures within { result ≤ length lines.now }
    ensures own { IfSome (slice_get lines.now result) (λ line. line.actor ≡ actor) }
    ensures between { numbers_in (take result lines.now) actor ≡ numbers_in (take from lines.now) actor }
{
    for at in from..lines.len() {
        if lines[at].actor == actor {
            return at;
        }
    }
    lines.len()
}

impl Place {
    /// Before all lines.
    pub fn new(actor: u32) -> Place
        ensures { result ≡ record { actor = actor; line = 0 } }
    {
        Place { actor, line: 0 }
    }

    /// Goes on to the line of its next call, or to the end.
    pub fn seek(&mut self, lines: &[Line])
        ensures found { IsFound lines.now self.new }
        ensures actor { self.new.actor ≡ self.old.actor }
        ensures between { numbers_in (take self.new.line lines.now) self.old.actor ≡ numbers_in (take self.old.line lines.now) self.old.actor }
    {
        self.line = next_line(lines, self.line, self.actor);
    }

    /// Goes on behind the call of its line, to the line of the next one or to the end.
    pub fn step(&mut self, lines: &[Line])
        requires found { IsFound lines.now self.old }
        requires left { self.old.line < length lines.now }
        ensures found { IsFound lines.now self.new }
        ensures actor { self.new.actor ≡ self.old.actor }
        ensures behind { numbers_in (take self.new.line lines.now) self.old.actor ≡ numbers_in (take (self.old.line + 1) lines.now) self.old.actor }
    {
        self.line += 1;
        self.seek(lines);
    }

    /// The number of its next call, if one is left.
    pub fn next_number(&self, lines: &[Line]) -> Option<u32>
        requires { IsNumbered lines.now }
        ensures { result ≡ number_of_next lines.now self.now }
    {
        let at = next_line(lines, self.line, self.actor);
        if at < lines.len() {
            Some(lines[at].seq)
        } else {
            None
        }
    }
}
