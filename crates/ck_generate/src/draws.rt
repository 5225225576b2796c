ghost use Rattle.std.specs.Prelude.{◌≡◌, ◌<◌, ◌%◌};
ghost use Rattle.ck_generate.specs.Generator.{drawn};

use std::marker::Model;

/// The numbers that a generator draws.
#[derive(Drop)]
pub struct Draws {
    state: u64,
}

impl Model for Draws {
    ghost use Rattle.std.specs.Prelude.{ℕ, ◌<◌};

    ghost Value = { ℕ };

    ghost view = { λ draws. draws.state };

    ghost invariant = { λ draws. draws.state < 2147483647 };
}

impl Draws {
    pub fn new(seed: u32) -> Draws
        requires { seed < 2147483647 }
        ensures { result ≡ seed }
    {
        Draws {
            state: u64::from(seed),
        }
    }

    pub fn draw(&mut self, bound: u32) -> u32
        requires { 0 < bound }
        ensures value { result ≡ drawn self.old % bound }
        ensures state { self.new ≡ drawn self.old }
        ensures below { result < bound }
    {
        self.state = self.state * 48_271 % 2_147_483_647;
        (self.state % u64::from(bound)) as u32
    }
}
