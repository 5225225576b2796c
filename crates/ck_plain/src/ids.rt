ghost use Rattle.std.specs.Prelude.{◌≡◌, find, map as list_map};
ghost use Rattle.std.specs.Option.{option_map};
ghost use Rattle.ck_model.specs.World.{is_named};
ghost use Rattle.ck_model.specs.CheckpointCalls.{dropped, with_flag, restored};
ghost use Rattle.ck_model.specs.Step.{done, converted};
ghost use Rattle.ck_plain.specs.Plain.{checkpoint_of, world_of};
ghost use Rattle.ck_plain.specs.Outcome.{outcome_with};

use crate::frozen::{convert, find_named, older_keeps, place_named, set_flags};
use crate::space::{drop_id, keeps_files};
use crate::{Answer, Plain, PlainCheckpoint};
use ck_model::{NameBytes, Reply};

/// The id of the checkpoint with this name.
pub fn id_named(checkpoints: &[PlainCheckpoint], name: &NameBytes) -> Option<u32>
    ensures { result ≡ option_map (λ checkpoint. checkpoint.id) (find (is_named name.now) (list_map checkpoint_of checkpoints.now)) }
{
    match find_named(checkpoints, name) {
        None => None,
        Some(checkpoint) => Some(checkpoint.id),
    }
}

impl Plain {
    /// Removes a checkpoint.
    pub fn remove(&mut self, name: &NameBytes) -> Answer
        ensures { done (world_of self.old) (dropped (world_of self.old) name.now) ≡ outcome_with result (world_of self.new) }
    {
        match id_named(&self.checkpoints, name) {
            None => Answer::told(Reply::NoCkpt),
            Some(id) => {
                drop_id(&mut self.checkpoints, id);
                Answer::told(Reply::Done)
            }
        }
    }

    /// Makes a checkpoint nodata.
    pub fn nodata(&mut self, name: &NameBytes) -> Answer
        ensures { converted (world_of self.old) name.now ≡ outcome_with result (world_of self.new) }
    {
        if id_named(&self.checkpoints, name).is_none() {
            return Answer::told(Reply::NoCkpt);
        }
        let delayed = older_keeps(&self.checkpoints, name);
        convert(&mut self.checkpoints, name);
        Answer::told(if delayed { Reply::Delayed } else { Reply::Done })
    }

    /// Makes a checkpoint removable, or not.
    pub fn set_removable(&mut self, name: &NameBytes, on: bool) -> Answer
        ensures { done (world_of self.old) (with_flag (world_of self.old) name.now on) ≡ outcome_with result (world_of self.new) }
    {
        if id_named(&self.checkpoints, name).is_none() {
            return Answer::told(Reply::NoCkpt);
        }
        set_flags(&mut self.checkpoints, name, on);
        Answer::told(Reply::Done)
    }

    /// Makes a checkpoint's files the primary ones. It and all newer ones leave.
    pub fn restore(&mut self, name: &NameBytes) -> Answer
        ensures { done (world_of self.old) (restored (world_of self.old) name.now) ≡ outcome_with result (world_of self.new) }
    {
        let place = place_named(&self.checkpoints, name);
        if place == self.checkpoints.len() {
            return Answer::told(Reply::NoCkpt);
        }
        if !keeps_files(self.checkpoints[place].kind) {
            return Answer::told(Reply::NotData);
        }
        let checkpoint = self.checkpoints.remove(place);
        self.checkpoints.truncate(place);
        self.primary = checkpoint.cells;
        Answer::told(Reply::Done)
    }
}
