ghost use Rattle.std.specs.Prelude.{is_some, Some};
ghost use Rattle.ck_model.specs.Chain.{value_at};
ghost use Rattle.ck_chain.specs.Order.{IsNext};

use ck_chain::{next_entry, next_in_chain};
use ck_model::{Key, Meta};

/// The next key behind this one at which a fileset may have a value. An entry that hides a value
/// counts too.
pub fn next_key<M: Meta>(meta: &M, fs: u32, key: &Key) -> Option<Key>
    ensures { IsNext (M.table meta.now) (λ q. is_some (value_at (M.table meta.now) fs q)) (Some key.now) result }
{
    if fs == 0 {
        next_entry(meta, 0, Some(key))
    } else {
        next_in_chain(meta, fs, Some(key))
    }
}
