ghost use Rattle.std.specs.Prelude.{◌≡◌};
ghost use Rattle.ck_model.specs.Chain.{is_live_data};

use ck_model::{Kind, Meta};

/// Whether a checkpoint isn't gone and keeps its files.
pub fn keeps_files<M: Meta>(meta: &M, ckpt: u32) -> bool
    ensures { result ≡ is_live_data (M.table meta.now) ckpt }
{
    meta.fileset(ckpt)
        .is_some_and(|fileset| !fileset.gone && fileset.kind == Kind::Keeping)
}
