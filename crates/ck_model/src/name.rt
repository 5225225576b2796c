ghost use Rattle.std.specs.Prelude.{◌≡◌, IfSome, IsSome, IsTrue, ◌↔◌, nat_eq};
ghost use Rattle.std.specs.Cmp.Lexicographic.{slice_cmp, pointwise};
ghost use Rattle.std.specs.Ordering.{nat_cmp, as_partial_cmp};
ghost use Rattle.std.specs.Cmp.{partial_order_from_own_ties};
ghost use Rattle.std.specs.Cmp.Rules.{comparing};
ghost use Rattle.std.proofs.Common.{rules};
ghost use Rattle.ck_model.specs.Name.{IsName, IsNameByte, IsFileName, IsCheckpointName};

use std::cmp::Ordering;
use std::marker::Model;

/// The name of a file, a directory or a checkpoint: 1 to 40 printable ASCII bytes, none of them a
/// space or a slash.
#[derive(Clone, Copy, Debug)]
pub struct NameBytes {
    bytes: [u8; 40],
    count: u8,
}

impl Model for NameBytes {
    ghost use Rattle.std.specs.Prelude.{ℕ, List, take, length};

    ghost Value = { List ℕ };

    ghost use Rattle.ck_model.specs.Name.{padded, Stored, stored_bytes, stored_count};

    ghost view = { λ name. take name.count name.bytes };

    ghost invariant = { λ name. Stored name.bytes name.count };

    ghost inverse = { λ bytes. record { bytes = padded bytes; count = length bytes } };

    ghost inverse_ok = { λ name h i. record { bytes = stored_bytes name.bytes name.count h i; count = stored_count name.bytes name.count h i } };
}

impl NameBytes {
    /// `None` exactly where the bytes are no name.
    pub fn read(bytes: &[u8]) -> Option<NameBytes>
        ensures some { IsSome result ↔ IsName bytes.now }
        ensures value { IfSome result (λ name. name ≡ bytes.now) }
    {
        if bytes.is_empty() || bytes.len() > 40 || !bytes.iter().all(|byte| is_name_byte(*byte)) {
            return None;
        }
        let mut stored = [0; 40];
        stored[..bytes.len()].copy_from_slice(bytes);
        Some(NameBytes {
            bytes: stored,
            count: bytes.len() as u8,
        })
    }

    pub fn bytes(&self) -> &[u8]
        ensures bytes { result.now ≡ self.now }
        ensures name { IsName result.now }
    {
        &self.bytes[..self.count as usize]
    }

    /// Whether a directory may hold the name.
    pub fn is_file_name(&self) -> bool
        ensures { IsTrue result ↔ IsFileName self.now }
    {
        !matches!(self.bytes(), b"." | b"..")
    }

    /// Whether a checkpoint may have the name.
    pub fn is_checkpoint_name(&self) -> bool
        ensures { IsTrue result ↔ IsCheckpointName self.now }
    {
        !self.bytes().starts_with(b"-")
    }
}

fn is_name_byte(byte: u8) -> bool
    ensures { IsTrue result ↔ IsNameByte byte }
{
    byte >= 33 && byte <= 126 && byte != b'/'
}

impl PartialEq for NameBytes {
    ghost eq = { pointwise nat_eq };

    ghost laws = { Prim.search (comparing, rules) };

    fn eq(&self, other: &NameBytes) -> bool {
        self.bytes() == other.bytes()
    }
}

impl Eq for NameBytes {
    ghost laws = { Prim.search (comparing, rules) };
}

impl PartialOrd for NameBytes {
    ghost partial_cmp = { as_partial_cmp (slice_cmp nat_cmp) };

    ghost laws = { partial_order_from_own_ties (Prim.search (comparing, rules)) (Prim.search (comparing, rules)) };

    fn partial_cmp(&self, other: &NameBytes) -> Option<Ordering> {
        Some(self.cmp(other))
    }
}

impl Ord for NameBytes {
    ghost cmp = { slice_cmp nat_cmp };

    ghost total = { Prim.search (comparing, rules) };

    ghost matches_partial_cmp = { Prim.search (comparing, rules) };

    ghost matches_eq = { Prim.search (comparing, rules) };

    fn cmp(&self, other: &NameBytes) -> Ordering {
        self.bytes().cmp(other.bytes())
    }
}
