ghost use Rattle.std.specs.Prelude.{◌≡◌};

/// What a call came to, and how many removable checkpoints were given up to make room for it.
#[derive(Debug, Drop)]
pub struct Given<T> {
    pub count: u32,
    pub answer: T,
}

impl<T> Given<T> {
    /// None was given up.
    pub fn none(answer: T) -> Given<T>
        ensures { result ≡ record { count = 0; answer = answer } }
    {
        Given { count: 0, answer }
    }
}
