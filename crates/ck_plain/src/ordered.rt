ghost use Rattle.std.specs.Prelude.{◌≡◌, true, IfOk, IfErr};
ghost use Rattle.std.specs.FinMap.{is_sorted};
ghost use Rattle.ck_model.specs.Key.{key_cmp};
ghost use Rattle.ck_model.specs.Ordered.{IsFoundAt, IsGapAt};

use ck_model::{Cell, Key};
use std::cmp::Ordering;

fn order(a: &Key, b: &Key) -> Ordering
    ensures { result ≡ key_cmp a.now b.now }
{
    a.cmp(b)
}

/// The place of a key among entries in order, or the place where it would go.
pub fn search(entries: &[(Key, Cell)], key: &Key) -> Result<usize, usize>
    requires { is_sorted key_cmp entries.now ≡ true }
    ensures found { IfOk result (IsFoundAt key_cmp key.now entries.now) }
    ensures absent { IfErr result (IsGapAt key_cmp key.now entries.now) }
{
    for (at, entry) in entries.iter().enumerate() {
        match order(key, &entry.0) {
            Ordering::Greater => {}
            Ordering::Equal => return Ok(at),
            Ordering::Less => return Err(at),
        }
    }
    Err(entries.len())
}
