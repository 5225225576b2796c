ghost use Rattle.std.specs.Prelude.{◌≡◌, ◌<◌, IfSome, length, drop, find};
ghost use Rattle.std.specs.Option.{option_copied};
ghost use Rattle.ck_model.specs.History.{call_at};
ghost use Rattle.ck_script.specs.Numbered.{calls_in, IsNumbered};
ghost use Rattle.ck_report.specs.Places.{is_call_of, line_there, call_there};

use ck_model::Call;
use ck_script::Line;

/// Actors have numbers below this one.
const ACTORS: usize = 65;

/// Where an actor's next call may stand: behind the one that was found last.
///
/// It is a guess, which is checked. Where each actor's calls are asked for in their order, they are
/// found in one walk along the lines for each actor.
#[derive(Drop)]
pub struct Places {
    behind: [usize; ACTORS],
}

impl Places {
    pub fn new() -> Places {
        Places {
            behind: [0; ACTORS],
        }
    }

    fn behind(&self, actor: u32) -> usize {
        self.behind.get(actor as usize).copied().unwrap_or(0)
    }

    fn found(&mut self, actor: u32, place: usize) {
        if let Some(behind) = self.behind.get_mut(actor as usize) {
            *behind = place.saturating_add(1);
        }
    }
}

fn find_from(lines: &[Line], start: usize, actor: u32, seq: u32) -> Option<usize>
    ensures within { IfSome result (λ place. place < length lines.now) }
    ensures first { line_there lines.now result ≡ find (is_call_of actor seq) (drop start lines.now) }
{
    for place in start..lines.len() {
        let line = &lines[place];
        if line.actor == actor && line.seq == seq {
            return Some(place);
        }
    }
    None
}

/// The place of the call with this actor and number. It is looked for from `start` on, and then
/// everywhere.
fn find_place(lines: &[Line], start: usize, actor: u32, seq: u32) -> Option<usize>
    requires { IsNumbered lines.now }
    ensures within { IfSome result (λ place. place < length lines.now) }
    ensures call { call_there lines.now result ≡ call_at (calls_in lines.now) actor seq }
{
    match find_from(lines, start, actor, seq) {
        Some(place) => Some(place),
        None => find_from(lines, 0, actor, seq),
    }
}

/// The call with this actor and number.
pub fn find_call<'a>(
    lines: &'a [Line],
    places: &mut Places,
    actor: u32,
    seq: u32,
) -> Option<&'a Call>
    requires { IsNumbered lines.now }
    ensures { option_copied result ≡ call_at (calls_in lines.now) actor seq }
{
    match find_place(lines, places.behind(actor), actor, seq) {
        Some(place) => {
            places.found(actor, place);
            Some(&lines[place].call)
        }
        None => None,
    }
}
