ghost use Rattle.std.specs.Prelude.{◌≡◌};
ghost use Rattle.ck_model.specs.Chain.{present, value_at};

use ck_chain::value;
use ck_model::{Held, Key, Meta};

/// An absent says that there is no cell.
fn present(held: Option<Held>) -> Option<Held>
    ensures { result ≡ present held }
{
    match held {
        Some(Held::Absent) => None,
        other => other,
    }
}

/// What a fileset has at a key, the primary among them.
pub fn held_at<M: Meta>(meta: &M, fs: u32, key: &Key) -> Option<Held>
    ensures { result ≡ value_at (M.table meta.now) fs key.now }
{
    if fs == 0 {
        present(meta.get(0, key))
    } else {
        value(meta, fs, key)
    }
}
