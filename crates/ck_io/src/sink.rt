// Bytes that go out.
ghost use Rattle.std.specs.Prelude.{◌≡◌, ◌<◌, ◌≤◌, ◌++◌, length, take, IsTrue, IfOk, OnErr};
ghost use Rattle.ck_io.specs.Faults.{Rose};
ghost use Rattle.ck_io.specs.Sink.{SinkMeaning};

use crate::fault::Failed;

/// Takes bytes, piece by piece, and may fail.
pub trait Sink {
    /// What it holds, whether it tells that, and how often it failed.
    ghost means: { Self → SinkMeaning };

    /// Appends the first bytes of the piece, and says how many.
    fn write(&mut self, from: &[u8]) -> Result<usize, Failed>
        ensures within { IfOk result (λ count. count ≤ length from.now) }
        ensures progress { IfOk result (λ count. 0 < length from.now → 0 < count) }
        ensures appends { IfOk result (λ count. IsTrue (means self.old).tells → (means self.new).holds ≡ (means self.old).holds ++ take count from.now) }

        // A failure appends nothing, and it is counted.
        ensures appends_nothing { OnErr result (IsTrue (means self.old).tells → (means self.new).holds ≡ (means self.old).holds) }
        ensures cause { OnErr result (Rose (means self.old).faults (means self.new).faults) }

        ensures tells { (means self.new).tells ≡ (means self.old).tells }
        ensures faults { (means self.old).faults ≤ (means self.new).faults };
}
