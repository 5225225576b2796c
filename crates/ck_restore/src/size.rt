ghost use Rattle.std.specs.Prelude.{◌≡◌, ◌<◌};
ghost use Rattle.ck_model.specs.Rules.{IsOrderly};
ghost use Rattle.ck_restore.specs.Entries.{entries_from, entry_count};

use ck_model::{Key, Meta};

fn entry_count<M: Meta>(meta: &M, fs: u32) -> u32
    ensures { result ≡ entry_count (M.table meta.now) fs }
{
    let mut count = 0;
    let mut after = None;
    while let Some(key) = meta.next(fs, after.as_ref()) {
        count += 1;
        after = Some(key);
    }
    count
}

/// How many data blocks a restore of the checkpoint gives back at the most: as many as it and all
/// newer ones have entries.
pub fn restore_size<M: Meta>(meta: &M, id: u32) -> u32
    requires { IsOrderly (M.table meta.now) }
    ensures { result ≡ entries_from (M.table meta.now) id }
{
    let mut count = entry_count(meta, id);
    let mut at = id;
    while let Some(fs) = meta.next_fileset(at) {
        count += entry_count(meta, fs);
        at = fs;
    }
    count
}
