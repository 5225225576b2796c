ghost use Rattle.std.specs.Prelude.{◌≡◌, ◌++◌, ℕ, List, OnOk, OnErr, nat_eq};
ghost use Rattle.std.specs.Cmp.Lexicographic.{pointwise};
ghost use Rattle.std.specs.Cmp.Rules.{comparing};
ghost use Rattle.std.proofs.Common.{rules};

use crate::NoMemory;
use std::alloc::AllocError;
use std::marker::Model;

/// Bytes, as a file or a reply has them.
#[derive(Debug, Drop)]
pub struct Octets {
    bytes: Vec<u8>,
}

impl Model for Octets {
    ghost Value = { List ℕ };

    ghost view = { λ octets. octets.bytes.items };
}

impl Octets {
    pub fn of(items: Vec<u8>) -> Octets
        ensures { result ≡ items.items }
    {
        Octets { bytes: items }
    }

    pub fn items(&self) -> &[u8]
        ensures { result.now ≡ self.now }
    {
        &self.bytes
    }

    pub fn into_vec(self) -> Vec<u8>
        ensures { result.items ≡ self }
    {
        self.bytes
    }

    /// Adds bytes at the end. A refusal changes nothing.
    pub fn append(&mut self, bytes: &[u8]) -> Result<(), NoMemory>
        ensures ok { OnOk result (self.new ≡ self.old ++ bytes.now) }
        ensures err { OnErr result (self.new ≡ self.old) }
    {
        self.bytes.extend_from_slice(bytes)?;
        Ok(())
    }
}

impl Clone for Octets {
    ghost is_clone = { λ octets copy. copy ≡ octets };

    fn clone(&self) -> Result<Octets, AllocError> {
        Ok(Octets {
            bytes: Vec::from_slice(*self.bytes.allocator(), &self.bytes)?,
        })
    }
}

impl PartialEq for Octets {
    ghost eq = { pointwise nat_eq };

    ghost laws = { Prim.search (comparing, rules) };

    fn eq(&self, other: &Octets) -> bool {
        self.items() == other.items()
    }
}

impl Eq for Octets {
    ghost laws = { Prim.search (comparing, rules) };
}
