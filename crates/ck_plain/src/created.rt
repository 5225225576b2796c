ghost use Rattle.std.specs.Prelude.{◌≡◌, ◌<◌, IfOk, OnOk, OnErr, vec_len, vec_capacity};
ghost use Rattle.ck_model.specs.World.{shown_by};
ghost use Rattle.ck_model.specs.CheckpointCalls.{kind_of, new_id, frozen_world};
ghost use Rattle.ck_model.specs.Step.{with_room, created};
ghost use Rattle.ck_plain.specs.Plain.{world_of};
ghost use Rattle.ck_plain.specs.Outcome.{outcome_with};

use crate::frozen::{any_named, kind_of};
use crate::given::{fits, give_up, no_space};
use crate::room::Room;
use crate::{Answer, Plain, PlainCheckpoint, PlainMap};
use ck_model::{Kind, NameBytes, NoMemory, Reply};
use std::alloc::Global;

/// What a checkpoint of this kind shows of a map.
fn shown_by(alloc: Global, kind: Kind, cells: &PlainMap) -> Result<PlainMap, NoMemory>
    ensures { IfOk result (λ shown. shown ≡ shown_by kind cells.now) }
{
    let mut shown = cells.copy(alloc)?;
    match kind {
        Kind::Keeping => {}
        Kind::Nodata => shown.mark(),
    }
    Ok(shown)
}

impl Plain {
    fn new_id(&self, name: &NameBytes) -> Result<u32, Reply>
        ensures { result ≡ new_id (world_of self.now) name.now }
    {
        if any_named(&self.checkpoints, name) {
            return Err(Reply::Exists);
        }
        if self.limits.checkpoints as usize <= self.checkpoints.len() {
            return Err(Reply::TooMany(self.limits.checkpoints));
        }
        if self.next.id == u32::MAX {
            return Err(Reply::Spent);
        }
        Ok(self.next.id)
    }

    /// Puts a new checkpoint with these cells where there is room for it, once others are given up.
    fn freeze(
        &mut self,
        name: &NameBytes,
        nodata: bool,
        removable: bool,
        at: u64,
        cells: PlainMap,
    ) -> Answer
        requires reserved { vec_len self.old.checkpoints < vec_capacity self.old.checkpoints }
        requires few { vec_len self.old.checkpoints < self.old.limits.checkpoints }
        requires id { self.old.next.id < 4294967295 }
        requires shows { cells ≡ shown_by (kind_of nodata) self.old.primary }
        ensures { with_room (world_of self.old) (frozen_world name.now nodata removable at) 0 (Reply.Created self.old.next.id) ≡ outcome_with result (world_of self.new) }
    {
        let id = self.next.id;
        let room = Room {
            limits: self.limits,
            primary: &self.primary,
            next: &self.primary,
            records: 1,
            blocks: 0,
        };
        let given = give_up(&room, &mut self.checkpoints);
        if !fits(&room, &self.checkpoints) {
            let reply = no_space(&room, &self.checkpoints);
            return Answer { reply, given };
        }
        self.checkpoints.push_reserved(PlainCheckpoint {
            id,
            name: *name,
            kind: kind_of(nodata),
            removable,
            ctime: at,
            cells,
        });
        self.next.id = id + 1;
        Answer {
            reply: Reply::Created(id),
            given,
        }
    }

    /// Freezes a checkpoint.
    pub fn create(
        &mut self,
        name: &NameBytes,
        nodata: bool,
        removable: bool,
        at: u64,
    ) -> Result<Answer, NoMemory>
        ensures ok { IfOk result (λ answer. created (world_of self.old) name.now nodata removable at ≡ outcome_with answer (world_of self.new)) }
        ensures err { OnErr result (world_of self.new ≡ world_of self.old) }
    {
        if let Err(reply) = self.new_id(name) {
            return Ok(Answer::told(reply));
        }
        let cells = shown_by(self.alloc, kind_of(nodata), &self.primary)?;
        self.checkpoints.reserve(1)?;
        Ok(self.freeze(name, nodata, removable, at, cells))
    }
}
