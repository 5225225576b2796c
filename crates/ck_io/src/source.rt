// Bytes that come in.
ghost use Rattle.std.specs.Prelude.{◌≡◌, ◌<◌, ◌≤◌, ◌++◌, [], length, take, IsTrue, IfOk, OnErr};
ghost use Rattle.ck_io.specs.Faults.{Rose};
ghost use Rattle.ck_io.specs.Source.{SourceMeaning};

use crate::fault::Failed;

/// Gives bytes, piece by piece, and may fail.
pub trait Source {
    /// What is left, whether it tells that, and how often it failed.
    ghost means: { Self → SourceMeaning };

    /// Puts the next bytes at the buffer's beginning, and takes them away from what is left. The rest of the buffer
    /// may hold anything then, and so may all of it after a failure.
    fn read(&mut self, into: &mut [u8]) -> Result<usize, Failed>
        ensures within { IfOk result (λ count. count ≤ length into.old) }
        ensures gives { IfOk result (λ count. IsTrue (means self.old).tells → (means self.old).left ≡ take count into.new ++ (means self.new).left) }
        ensures ended { result ≡ Ok 0 → 0 < length into.old → IsTrue (means self.old).tells → (means self.old).left ≡ [] }

        // A failure takes nothing, and it is counted.
        ensures takes_nothing { OnErr result (IsTrue (means self.old).tells → (means self.new).left ≡ (means self.old).left) }
        ensures cause { OnErr result (Rose (means self.old).faults (means self.new).faults) }

        ensures tells { (means self.new).tells ≡ (means self.old).tells }
        ensures faults { (means self.old).faults ≤ (means self.new).faults };
}
