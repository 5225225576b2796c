ghost use Rattle.std.specs.Prelude.{◌≡◌, filter, if◌then◌else◌};
ghost use Rattle.ck_model.specs.Table.{newer};
ghost use Rattle.ck_model.specs.Chain.{is_live};
ghost use Rattle.ck_model.specs.Rules.{IsOrderly};
ghost use Rattle.ck_chain.specs.Needless.{tidied};
ghost use Rattle.ck_remove.specs.Removal.{is_older, next_older, tidied_each};

use ck_chain::{is_live, tidy};
use ck_model::{Key, Meta};

/// The newest of the checkpoints that aren't gone and are older than this one.
pub fn next_older<M: Meta>(meta: &M, fs: u32) -> Option<u32>
    ensures { result ≡ next_older (M.table meta.now) fs }
{
    let mut found = None;
    let mut at = 0;
    while let Some(id) = meta.next_fileset(at) {
        if id >= fs {
            break;
        }
        if is_live(meta, id) {
            found = Some(id);
        }
        at = id;
    }
    found
}

// Tidies the checkpoint at the key, unless it is gone.
fn tidy_live<M: Meta>(meta: &mut M, fs: u32, key: &Key)
    requires orderly { IsOrderly (M.table meta.old) }
    ensures tidied { let t = M.table meta.old in
        M.table meta.new ≡ (if is_live t fs then tidied t fs key.now else t) }
    ensures orderly { IsOrderly (M.table meta.new) }
{
    if is_live(meta, fs) {
        tidy(meta, fs, key);
    }
}

/// Tidies the checkpoints between these two at the key, the newest of them first.
pub fn tidy_between<M: Meta>(meta: &mut M, at: u32, end: u32, key: &Key)
    requires orderly { IsOrderly (M.table meta.old) }
    ensures tidied { let t = M.table meta.old in
        M.table meta.new ≡ tidied_each t key.now (filter (is_older t end) (newer t at)) }
    ensures orderly { IsOrderly (M.table meta.new) }
{
    if let Some(id) = meta.next_fileset(at) {
        if id < end {
            tidy_between(meta, id, end, key);
            tidy_live(meta, id, key);
        }
    }
}
