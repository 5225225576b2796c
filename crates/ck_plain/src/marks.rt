ghost use Rattle.std.specs.Prelude.{◌≡◌, true};
ghost use Rattle.std.specs.FinMap as map;
ghost use Rattle.std.specs.FinMap.{is_sorted};
ghost use Rattle.ck_model.specs.Key.{key_cmp};
ghost use Rattle.ck_model.specs.Cells.{marked, mark_entry};
ghost use Rattle.ck_model.specs.Ordered.{Edits};

use crate::counts::is_block;
use ck_model::{Cell, Key};

fn mark(entry: &mut (Key, Cell))
    ensures { entry.new ≡ mark_entry entry.old }
{
    if is_block(&entry.0) {
        entry.1.payload = None;
    }
}

/// Makes each block a mark.
pub fn mark_blocks(entries: &mut Vec<(Key, Cell)>)
    requires { is_sorted key_cmp entries.old.items ≡ true }
    ensures { Edits key_cmp entries.new.items (marked (map.from_sorted entries.old.items)) }
{
    for entry in entries.iter_mut() {
        mark(entry);
    }
}
