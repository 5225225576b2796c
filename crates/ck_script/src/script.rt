ghost use Rattle.ck_script.specs.Limits.{IsWithinLimits, AreTurns};
ghost use Rattle.ck_script.specs.Numbered.{IsNumbered};

use crate::{Lines, Turns};

/// A script that the grammar accepts.
#[derive(Debug, Drop)]
pub struct Script {
    pub calls: Lines,
    pub turns: Turns,
    /// Each actor's calls are numbered from 1, in the order of their lines.
    pub ghost numbered: { IsNumbered calls },
    pub ghost within: { IsWithinLimits calls },
    pub ghost actors: { AreTurns turns },
}
