ghost use Rattle.std.specs.Prelude.{◌≡◌, ◌≤◌, Ok, Err, IfOk, OnErr, MatchResult};
ghost use Rattle.ck_model.specs.Limits.{file_limit};
ghost use Rattle.ck_model.specs.CheckpointCalls.{mounted, dismounted, mounted_checkpoint};
ghost use Rattle.ck_model.specs.ReadCalls.{checkpoint_read, checkpoint_names};
ghost use Rattle.ck_model.specs.Step.{done, answered};
ghost use Rattle.ck_plain.specs.Plain.{checkpoint_of, world_of};
ghost use Rattle.ck_plain.specs.Answered.{reply_of};
ghost use Rattle.ck_plain.specs.Outcome.{outcome_with};

use crate::frozen::find_id;
use crate::ids::id_named;
use crate::space::keeps_files;
use crate::{Answer, Plain, PlainCheckpoint, names_listed, range_read};
use ck_model::{NameBytes, NoMemory, Path, Reply};

impl Plain {
    /// Lets a letter of the actor's stand for a checkpoint.
    pub fn mount(&mut self, actor: u32, letter: u8, name: &NameBytes) -> Result<Answer, NoMemory>
        ensures ok { IfOk result (λ answer. done (world_of self.old) (mounted (world_of self.old) actor letter name.now) ≡ outcome_with answer (world_of self.new)) }
        ensures err { OnErr result (world_of self.new ≡ world_of self.old) }
    {
        match id_named(&self.checkpoints, name) {
            None => Ok(Answer::told(Reply::NoCkpt)),
            Some(id) => {
                if self.mounts.contains_key(actor, letter) {
                    return Ok(Answer::told(Reply::InUse));
                }
                self.mounts.insert(actor, letter, id)?;
                Ok(Answer::told(Reply::Done))
            }
        }
    }

    /// Frees a letter of the actor's.
    pub fn umount(&mut self, actor: u32, letter: u8) -> Answer
        ensures { done (world_of self.old) (dismounted (world_of self.old) actor letter) ≡ outcome_with result (world_of self.new) }
    {
        if !self.mounts.contains_key(actor, letter) {
            return Answer::told(Reply::NotMounted);
        }
        self.mounts.remove(actor, letter);
        Answer::told(Reply::Done)
    }

    fn mounted_checkpoint(&self, actor: u32, letter: u8) -> Result<&PlainCheckpoint, Reply>
        ensures { MatchResult result
            (λ checkpoint. mounted_checkpoint (world_of self.now) actor letter ≡ Ok (checkpoint_of checkpoint.now))
            (λ reply. mounted_checkpoint (world_of self.now) actor letter ≡ Err reply) }
    {
        match self.mounts.get(actor, letter) {
            None => Err(Reply::NotMounted),
            Some(id) => match find_id(&self.checkpoints, id) {
                None => Err(Reply::Gone(id)),
                Some(checkpoint) => Ok(checkpoint),
            },
        }
    }

    /// Reads a file of a mounted checkpoint, or says why not.
    pub fn cread(
        &self,
        actor: u32,
        letter: u8,
        path: &Path,
        at: u64,
        len: u32,
    ) -> Result<Reply, NoMemory>
        requires { at ≤ file_limit }
        ensures { IfOk result (λ reply. reply_of (checkpoint_read (world_of self.now) actor letter path.now at len) ≡ reply) }
    {
        match self.mounted_checkpoint(actor, letter) {
            Err(reply) => Ok(reply),
            Ok(checkpoint) => {
                if !keeps_files(checkpoint.kind) {
                    return Ok(Reply::NoData(checkpoint.id));
                }
                range_read(self.alloc, &checkpoint.cells, path, at, len)
            }
        }
    }

    /// The names of a directory of a mounted checkpoint, or says why not.
    pub fn clist(&self, actor: u32, letter: u8, path: &Path) -> Result<Reply, NoMemory>
        ensures { IfOk result (λ reply. reply_of (checkpoint_names (world_of self.now) actor letter path.now) ≡ reply) }
    {
        match self.mounted_checkpoint(actor, letter) {
            Err(reply) => Ok(reply),
            Ok(checkpoint) => names_listed(self.alloc, &checkpoint.cells, path),
        }
    }
}
