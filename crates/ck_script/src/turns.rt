ghost use Rattle.std.specs.Prelude.{◌≡◌, List, ℕ};

use std::marker::Model;

/// Turns, in order: an actor's by its number, and the background's as 0.
#[derive(Debug, Drop)]
pub struct Turns {
    turns: Vec<u32>,
}

impl Model for Turns {
    ghost use Rattle.std.specs.Prelude.{List, ℕ};

    ghost Value = { List ℕ };

    ghost view = { λ script. script.turns.items };
}

impl Turns {
    pub fn of(items: Vec<u32>) -> Turns
        ensures { result ≡ items.items }
    {
        Turns { turns: items }
    }

    pub fn items(&self) -> &[u32]
        ensures { result.now ≡ self.now }
    {
        &self.turns
    }

    pub fn into_vec(self) -> Vec<u32>
        ensures { result.items ≡ self }
    {
        self.turns
    }
}
