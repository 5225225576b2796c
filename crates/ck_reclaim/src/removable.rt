ghost use Rattle.std.specs.Prelude.{◌≡◌, ℕ, IfNone, IfSome, true, false};
ghost use Rattle.ck_model.specs.World.{keeps_files};
ghost use Rattle.ck_reclaim.specs.Removable.{is_removable, may_leave, oldest_of, pick_of};

use ck_model::{Kind, Meta};

// Whether the checkpoint isn't gone, may be given up, and is of this kind.
fn may_leave<M: Meta>(meta: &M, kind: Kind, id: u32) -> bool
    ensures { result ≡ may_leave (M.table meta.now) (keeps_files kind) id }
{
    match meta.fileset(id) {
        Some(fileset) => !fileset.gone && fileset.removable && fileset.kind == kind,
        None => false,
    }
}

fn oldest_of<M: Meta>(meta: &M, kind: Kind) -> Option<u32>
    ensures { result ≡ oldest_of (M.table meta.now) (keeps_files kind) }
{
    let mut at = 0;
    while let Some(id) = meta.next_fileset(at) {
        if may_leave(meta, kind, id) {
            return Some(id);
        }
        at = id;
    }
    None
}

/// What is given up first where space runs out: the oldest removable checkpoint that keeps its
/// files, else the oldest other one. None is gone already.
pub fn pick<M: Meta>(meta: &M) -> Option<u32>
    ensures pick { result ≡ pick_of (M.table meta.now) }
    ensures some { IfSome result (λ id. is_removable (M.table meta.now) id ≡ true) }
    ensures none { IfNone result ((id : ℕ) → is_removable (M.table meta.now) id ≡ false) }
{
    oldest_of(meta, Kind::Keeping).or(oldest_of(meta, Kind::Nodata))
}
