ghost use Rattle.std.specs.Prelude.{◌≡◌, IfOk};
ghost use Rattle.ck_model.specs.World.{Mounts};
ghost use Rattle.ck_model.specs.ReadCalls.{info_of, listing_of};
ghost use Rattle.ck_model.specs.Values.{Store};
ghost use Rattle.ck_model.specs.TableWorld.{extent_count, world_on};
ghost use Rattle.ck_files.specs.Drained.{IsDrained};
ghost use Rattle.ck_files.specs.Files.{IsOurs};
ghost use Rattle.ck_files.specs.Reports.{limits_of, line_on, standing_at, state_shown};

use ck_model::{CkptLine, CkptLines, Fileset, Kind, Limits, Meta, NoMemory, Reply, State};
use ck_table::count_live;
use std::alloc::Global;

fn shown(older: bool, kind: Kind) -> State
    ensures { result ≡ state_shown older kind }
{
    match kind {
        Kind::Keeping => State::Keeping,
        Kind::Nodata if older => State::Delayed,
        Kind::Nodata => State::Nodata,
    }
}

fn line(older: bool, id: u32, fileset: &Fileset) -> CkptLine
    ensures { result ≡ line_on older id fileset.now }
{
    CkptLine {
        id,
        state: shown(older, fileset.kind),
        removable: fileset.removable,
        ctime: fileset.ctime,
        name: fileset.name,
    }
}

/// The record of a checkpoint that stands.
pub fn standing<M: Meta>(meta: &M, id: u32) -> Option<Fileset>
    ensures { result ≡ standing_at (M.table meta.now) id }
{
    meta.fileset(id).filter(|fileset| !fileset.gone)
}

/// The checkpoints, oldest first.
pub fn ckpts<M: Meta>(alloc: Global, meta: &M) -> Result<Reply, NoMemory>
    requires { IsOurs (M.table meta.now) }
    ensures { IfOk result (λ reply. (store : Store) (mounts : Mounts) →
        reply ≡ listing_of (world_on store mounts (M.table meta.now))) }
{
    let mut lines = Vec::new(alloc);
    let mut older = false;
    let mut at = 0;
    while let Some(id) = meta.next_fileset(at) {
        if let Some(fileset) = standing(meta, id) {
            lines.push(line(older, id, &fileset))?;
            older = older || fileset.kind == Kind::Keeping;
        }
        at = id;
    }
    Ok(Reply::Listing(CkptLines::of(lines)))
}

/// How much room the volume takes, where so many of its data blocks are in use and nothing is left to
/// remove or to strip.
pub fn info<M: Meta>(meta: &M, limits: Limits, used: u32) -> Reply
    requires ours { IsOurs (M.table meta.now) }
    requires drained { IsDrained (M.table meta.now) }
    requires limits { limits ≡ limits_of (M.table meta.now) }
    requires used { used ≡ extent_count (M.table meta.now) }
    ensures { (store : Store) (mounts : Mounts) →
        result ≡ info_of (world_on store mounts (M.table meta.now)) }
{
    let records = limits.records - meta.spare();
    Reply::Info(
        u64::from(used),
        u64::from(limits.blocks),
        u64::from(records),
        u64::from(limits.records),
        count_live(meta),
    )
}
