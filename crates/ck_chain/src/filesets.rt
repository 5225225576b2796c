ghost use Rattle.std.specs.Prelude.{◌≡◌};
ghost use Rattle.ck_model.specs.Chain.{is_live, is_live_data, keeps_data, newest_live_of};

use ck_model::{Kind, Meta};

/// Whether the checkpoint is in the table and isn't gone.
pub fn is_live<M: Meta>(meta: &M, fs: u32) -> bool
    ensures { result ≡ is_live (M.table meta.now) fs }
{
    meta.fileset(fs).is_some_and(|fileset| !fileset.gone)
}

// Whether it isn't gone and keeps its files.
fn is_live_data<M: Meta>(meta: &M, fs: u32) -> bool
    ensures { result ≡ is_live_data (M.table meta.now) fs }
{
    meta.fileset(fs)
        .is_some_and(|fileset| !fileset.gone && fileset.kind == Kind::Keeping)
}

/// The newest checkpoint that isn't gone, if there is one.
pub fn newest_live<M: Meta>(meta: &M) -> Option<u32>
    ensures { result ≡ newest_live_of (M.table meta.now) }
{
    let mut found = None;
    let mut at = 0;
    while let Some(id) = meta.next_fileset(at) {
        if is_live(meta, id) {
            found = Some(id);
        }
        at = id;
    }
    found
}

/// Whether the files of the checkpoint are kept: it or an older one is a data checkpoint that isn't
/// gone.
pub fn keeps<M: Meta>(meta: &M, fs: u32) -> bool
    ensures { result ≡ keeps_data (M.table meta.now) fs }
{
    let mut at = 0;
    while let Some(id) = meta.next_fileset(at) {
        if id <= fs && is_live_data(meta, id) {
            return true;
        }
        at = id;
    }
    false
}
