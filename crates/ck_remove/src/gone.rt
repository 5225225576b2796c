ghost use Rattle.std.specs.Prelude.{◌≡◌, ℕ, IfNone, IfSome, true, false};
ghost use Rattle.ck_model.specs.Chain.{is_gone};
ghost use Rattle.ck_remove.specs.Gone.{entry_count, left_of, oldest_gone, work_of};

use ck_model::{Key, Meta};

/// An entry of a checkpoint that is gone, which is removed next: the checkpoint's id, and the key.
/// There is no key where the checkpoint has no entry any more.
#[derive(Clone, Copy, Debug, PartialEq, Eq)]
pub struct GoneEntry {
    pub id: u32,
    pub key: Option<Key>,
}

fn is_gone<M: Meta>(meta: &M, fs: u32) -> bool
    ensures { result ≡ is_gone (M.table meta.now) fs }
{
    meta.fileset(fs).is_some_and(|fileset| fileset.gone)
}

fn oldest_gone<M: Meta>(meta: &M) -> Option<u32>
    ensures { result ≡ oldest_gone (M.table meta.now) }
{
    let mut at = 0;
    while let Some(id) = meta.next_fileset(at) {
        if is_gone(meta, id) {
            return Some(id);
        }
        at = id;
    }
    None
}

/// What a step removes next: the least entry of the oldest checkpoint that is gone.
pub fn work<M: Meta>(meta: &M) -> Option<GoneEntry>
    ensures work { result ≡ work_of (M.table meta.now) }
    ensures some { IfSome result (λ item. is_gone (M.table meta.now) item.id ≡ true) }
    ensures none { IfNone result ((fs : ℕ) → is_gone (M.table meta.now) fs ≡ false) }
{
    let id = oldest_gone(meta)?;
    Some(GoneEntry {
        id,
        key: meta.next(id, None),
    })
}

fn entry_count<M: Meta>(meta: &M, fs: u32) -> u64
    ensures { result ≡ entry_count (M.table meta.now) fs }
{
    let mut count = 0;
    let mut after = None;
    while let Some(key) = meta.next(fs, after.as_ref()) {
        count += 1;
        after = Some(key);
    }
    count
}

/// How many steps are left: the checkpoints that are gone, and their entries.
pub fn left<M: Meta>(meta: &M) -> u64
    ensures { result ≡ left_of (M.table meta.now) }
{
    let mut count = 0;
    let mut at = 0;
    while let Some(id) = meta.next_fileset(at) {
        if is_gone(meta, id) {
            count += 1 + entry_count(meta, id);
        }
        at = id;
    }
    count
}
