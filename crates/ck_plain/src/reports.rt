ghost use Rattle.std.specs.Prelude.{◌≡◌, ◌∷◌, [], false, IfOk, map as list_map};
ghost use Rattle.ck_model.specs.ReadCalls.{state_of, lines_of, listing_of, info_of};
ghost use Rattle.ck_plain.specs.Plain.{checkpoint_of, world_of};

use crate::space::{held_beside, keeps_files, records_beside};
use crate::{Plain, PlainCheckpoint};
use ck_model::{CkptLine, CkptLines, NoMemory, Reply, State};
use std::alloc::Global;

fn state_of(older: bool, checkpoint: &PlainCheckpoint) -> State
    ensures { result ≡ state_of older (checkpoint_of checkpoint.now) }
{
    if keeps_files(checkpoint.kind) {
        State::Keeping
    } else if older {
        State::Delayed
    } else {
        State::Nodata
    }
}

/// The line of a checkpoint, where an older one keeps data or not.
fn line_of(older: bool, checkpoint: &PlainCheckpoint) -> CkptLine
    ensures { lines_of older (checkpoint_of checkpoint.now ∷ []) ≡ result ∷ [] }
{
    CkptLine {
        id: checkpoint.id,
        state: state_of(older, checkpoint),
        removable: checkpoint.removable,
        ctime: checkpoint.ctime,
        name: checkpoint.name,
    }
}

fn lines_of(alloc: Global, checkpoints: &[PlainCheckpoint]) -> Result<Vec<CkptLine>, NoMemory>
    ensures { IfOk result (λ lines. lines.items ≡ lines_of false (list_map checkpoint_of checkpoints.now)) }
{
    let mut lines = Vec::with_capacity(alloc, checkpoints.len())?;
    let mut older = false;
    for checkpoint in checkpoints {
        lines.push(line_of(older, checkpoint))?;
        older = older || keeps_files(checkpoint.kind);
    }
    Ok(lines)
}

/// The listing of the checkpoints.
pub fn listing_of(plain: &Plain) -> Result<Reply, NoMemory>
    ensures { IfOk result (λ reply. reply ≡ listing_of (world_of plain.now)) }
{
    let lines = lines_of(plain.alloc, &plain.checkpoints)?;
    Ok(Reply::Listing(CkptLines::of(lines)))
}

/// What is in use.
pub fn info_of(plain: &Plain) -> Reply
    ensures { result ≡ info_of (world_of plain.now) }
{
    Reply::Info(
        held_beside(&plain.primary, &plain.checkpoints),
        u64::from(plain.limits.blocks),
        records_beside(&plain.primary, &plain.checkpoints),
        u64::from(plain.limits.records),
        plain.checkpoints.len() as u32,
    )
}
