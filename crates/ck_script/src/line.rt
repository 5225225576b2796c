ghost use Rattle.std.specs.Prelude.{◌≡◌, List};

use ck_model::Call;
use std::marker::Model;

/// A call of a script.
#[derive(Debug, Drop)]
pub struct Line {
    pub actor: u32,
    /// The number of the call among its actor's, from 1.
    pub seq: u32,
    /// The number of the line, from 1.
    pub line: u32,
    pub call: Call,
}

/// The calls of a script, in the order of their lines.
#[derive(Debug, Drop)]
pub struct Lines {
    lines: Vec<Line>,
}

impl Model for Lines {
    ghost use Rattle.std.specs.Prelude.{List};
    ghost use Rattle.ck_script.specs.declared.line.Line.{Line};

    ghost Value = { List Line };

    ghost view = { λ script. script.lines.items };
}

impl Lines {
    pub fn of(items: Vec<Line>) -> Lines
        ensures { result ≡ items.items }
    {
        Lines { lines: items }
    }

    pub fn items(&self) -> &[Line]
        ensures { result.now ≡ self.now }
    {
        &self.lines
    }

    pub fn into_vec(self) -> Vec<Line>
        ensures { result.items ≡ self }
    {
        self.lines
    }
}
