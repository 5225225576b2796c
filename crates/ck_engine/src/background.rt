ghost use Rattle.std.specs.Prelude.{◌≡◌, ◌+◌, true, false};
ghost use Rattle.ck_nodata.specs.StripItem.{unstripped_count};
ghost use Rattle.ck_table.specs.Names.{id_named};
ghost use Rattle.ck_files.specs.Drained.{IsDrained, IsOver, IsStepped};
ghost use Rattle.ck_engine.specs.Engine.{disk_of, table_of, world_of, IsWhole, GoesOn, IsAttempt, IsUnnoticed};

use crate::engine::Engine;
use ck_disk::Disk;
use ck_files::{drain, step, strip_of};
use ck_model::NameBytes;
use ck_table::find;

impl<D: Disk> Engine<D> {
    /// Takes one step of what is left to do in the background, which nobody sees: of a removal, or, where
    /// no checkpoint is gone, a strip. `false` where nothing is left.
    pub fn step(&mut self) -> bool
        requires whole { IsWhole (D.means (disk_of self.old)) self.old }
        ensures unnoticed { IsUnnoticed self.old self.new }
        ensures whole { IsWhole (D.means (disk_of self.old)) self.new }
        ensures attempt { IsAttempt (D.means (disk_of self.old)) (D.means (disk_of self.old)) self.old self.new }
        ensures goes_on { GoesOn (D.means (disk_of self.old)) (D.means (disk_of self.old)) self.old self.new }
        ensures world { world_of (D.means (disk_of self.old)).shows self.new ≡ world_of (D.means (disk_of self.old)).shows self.old }
        ensures stepped { result ≡ true → IsStepped (table_of self.old) (table_of self.new) }
        ensures drained { result ≡ false → IsDrained (table_of self.new) }
    {
        step(&mut self.slots, &mut self.blocks, &mut self.stripped)
    }

    /// Takes all steps that are left.
    pub fn drain(&mut self)
        requires whole { IsWhole (D.means (disk_of self.old)) self.old }
        ensures unnoticed { IsUnnoticed self.old self.new }
        ensures whole { IsWhole (D.means (disk_of self.old)) self.new }
        ensures attempt { IsAttempt (D.means (disk_of self.old)) (D.means (disk_of self.old)) self.old self.new }
        ensures goes_on { GoesOn (D.means (disk_of self.old)) (D.means (disk_of self.old)) self.old self.new }
        ensures world { world_of (D.means (disk_of self.old)).shows self.new ≡ world_of (D.means (disk_of self.old)).shows self.old }
        ensures drained { IsDrained (table_of self.new) }
    {
        drain(&mut self.slots, &mut self.blocks, &mut self.stripped);
    }

    /// Strips one data block, where one of this checkpoint is left to strip, and tells whether another one
    /// of it is left. Nobody sees it.
    pub fn strip(&mut self, id: u32) -> bool
        requires whole { IsWhole (D.means (disk_of self.old)) self.old }
        ensures unnoticed { IsUnnoticed self.old self.new }
        ensures whole { IsWhole (D.means (disk_of self.old)) self.new }
        ensures attempt { IsAttempt (D.means (disk_of self.old)) (D.means (disk_of self.old)) self.old self.new }
        ensures goes_on { GoesOn (D.means (disk_of self.old)) (D.means (disk_of self.old)) self.old self.new }
        ensures world { world_of (D.means (disk_of self.old)).shows self.new ≡ world_of (D.means (disk_of self.old)).shows self.old }
        ensures left { result ≡ true → unstripped_count (table_of self.new) + 1 ≡ unstripped_count (table_of self.old) }
        ensures over { result ≡ false → IsOver (table_of self.new) id }
    {
        strip_of(&mut self.slots, &mut self.blocks, &mut self.stripped, id)
    }

    /// The id of the checkpoint with this name.
    pub fn find(&self, name: &NameBytes) -> Option<u32>
        ensures { result ≡ id_named (table_of self.now) name.now }
    {
        find(&self.slots, name)
    }
}
