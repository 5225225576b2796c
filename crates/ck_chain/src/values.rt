ghost use Rattle.std.specs.Prelude.{◌≡◌};
ghost use Rattle.ck_model.specs.Chain.{value_of, is_covered, present};

use ck_model::{Held, Key, Meta};

// An absent says that there is no cell.
fn present(held: Option<Held>) -> Option<Held>
    ensures { result ≡ present held }
{
    match held {
        Some(Held::Absent) => None,
        other => other,
    }
}

/// What a checkpoint has at the key: its own entry, else the first of the newer filesets, gone ones
/// too, else the primary's.
pub fn value<M: Meta>(meta: &M, fs: u32, key: &Key) -> Option<Held>
    ensures { result ≡ value_of (M.table meta.now) fs key.now }
{
    let mut at = fs;
    loop {
        if let Some(held) = meta.get(at, key) {
            return present(Some(held));
        }
        match meta.next_fileset(at) {
            Some(id) => at = id,
            None => return present(meta.get(0, key)),
        }
    }
}

/// Whether the checkpoint or a newer one, gone ones too, has an entry at the key.
pub fn is_covered<M: Meta>(meta: &M, fs: u32, key: &Key) -> bool
    ensures { result ≡ is_covered (M.table meta.now) fs key.now }
{
    let mut at = fs;
    loop {
        if meta.get(at, key).is_some() {
            return true;
        }
        match meta.next_fileset(at) {
            Some(id) => at = id,
            None => return false,
        }
    }
}
