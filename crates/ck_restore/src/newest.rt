ghost use Rattle.std.specs.Prelude.{◌≡◌, [], IfNone, IfSome};
ghost use Rattle.ck_model.specs.Table.{newer};
ghost use Rattle.ck_restore.specs.Entries.{IsNewest};

use ck_model::Meta;

/// The newest fileset that is newer than the checkpoint, gone ones too.
pub fn newest_above<M: Meta>(meta: &M, id: u32) -> Option<u32>
    ensures newest { IfSome result (IsNewest (M.table meta.now) id) }
    ensures none { IfNone result (newer (M.table meta.now) id ≡ []) }
{
    let mut found = None;
    let mut at = id;
    while let Some(fs) = meta.next_fileset(at) {
        found = Some(fs);
        at = fs;
    }
    found
}
