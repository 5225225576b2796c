ghost use Rattle.std.specs.Prelude.{◌≡◌};

use ck_model::Reply;

/// What a call is told, and how many checkpoints were given up for room.
#[derive(Debug, Drop)]
pub struct Answer {
    pub reply: Reply,
    pub given: u32,
}

impl Answer {
    /// A reply for which nothing was given up.
    pub fn told(reply: Reply) -> Answer
        ensures { result ≡ record { reply = reply; given = 0 } }
    {
        Answer { reply, given: 0 }
    }
}
