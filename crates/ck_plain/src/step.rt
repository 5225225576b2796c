ghost use Rattle.std.specs.Prelude.{◌≡◌, ◌≤◌, ◌<◌, ◌^◌, ◌↔◌, IsTrue, IfOk, OnErr};
ghost use Rattle.std.specs.FinMap as map;
ghost use Rattle.ck_model.specs.World.{empty_world};
ghost use Rattle.ck_model.specs.Space.{new_block_count};
ghost use Rattle.ck_model.specs.Streams.{Texts};
ghost use Rattle.ck_model.specs.Step.{with_room, changing, step};
ghost use Rattle.ck_plain.specs.Plain.{world_of};
ghost use Rattle.ck_plain.specs.Changed.{with_next};
ghost use Rattle.ck_model.specs.FileCalls.{IsChanging, changed_by};
ghost use Rattle.ck_plain.specs.Outcome.{IsPlainCall, outcome_with, with_files};

use crate::given::{fits, give_up, no_space};
use crate::reports::{info_of, listing_of};
use crate::room::Room;
use crate::{Answer, Next, Plain, PlainMap, changed, names_listed, range_read, status_of};
use ck_model::{Call, Cell, Counters, FILE_LIMIT, Key, Limits, Mounts, NoMemory, Payload, Reply};
use std::alloc::Global;

/// The plain program answers this call: its places and sizes are within the limit, and it asks for no stream.
pub fn is_plain_call(call: &Call) -> bool
    ensures { IsTrue result ↔ IsPlainCall call.now }
{
    match call {
        Call::Write(_, at, _) => *at <= FILE_LIMIT,
        Call::Fill(_, at, _, _) => *at <= FILE_LIMIT,
        Call::Trunc(_, size) => *size <= FILE_LIMIT,
        Call::Read(_, at, _) => *at <= FILE_LIMIT,
        Call::Cread(_, _, at, _) => *at <= FILE_LIMIT,
        Call::Backup(_, _) => false,
        Call::Full(_) => false,
        _ => true,
    }
}

impl Plain {
    /// The root directory alone.
    pub fn new(alloc: Global, limits: Limits) -> Result<Plain, NoMemory>
        requires records { limits.records < 2 ^ 31 }
        requires checkpoints { limits.checkpoints < 2 ^ 31 }
        ensures { IfOk result (λ plain. world_of plain ≡ empty_world limits) }
    {
        let mut primary = PlainMap::new(alloc);
        let root = Cell {
            stamp: 0,
            payload: Some(Payload::Dir),
        };
        primary.put(Key::Node(0), root)?;
        Ok(Plain {
            limits,
            primary,
            checkpoints: Vec::new(alloc),
            next: Counters {
                stamp: 1,
                id: 1,
                number: 1,
            },
            mounts: Mounts::new(alloc),
            alloc,
        })
    }

    /// Puts these files where there is room for them, once checkpoints are given up.
    fn put_files(&mut self, next: Next) -> Answer
        requires cells { map.len next.primary < 2 ^ 32 }
        requires stamp { next.next.stamp ≤ 2 ^ 63 }
        ensures { with_room (world_of self.old) (with_files (with_next (world_of self.old) next)) (new_block_count self.old.next.stamp next.primary) Reply.Done ≡ outcome_with result (world_of self.new) }
    {
        let room = Room {
            limits: self.limits,
            primary: &self.primary,
            next: &next.primary,
            records: 0,
            blocks: next.primary.new_block_count(self.next.stamp) as u64,
        };
        let given = give_up(&room, &mut self.checkpoints);
        if !fits(&room, &self.checkpoints) {
            let reply = no_space(&room, &self.checkpoints);
            return Answer { reply, given };
        }
        self.primary = next.primary;
        self.next = next.next;
        Answer {
            reply: Reply::Done,
            given,
        }
    }

    fn change(&mut self, call: &Call) -> Result<Answer, NoMemory>
        requires { IsChanging call.now }
        ensures ok { IfOk result (λ answer. changing (world_of self.old) (changed_by (world_of self.old) call.now) ≡ outcome_with answer (world_of self.new)) }
        ensures err { OnErr result (world_of self.new ≡ world_of self.old) }
    {
        match changed(self, call)? {
            Ok(next) => Ok(self.put_files(next)),
            Err(reply) => Ok(Answer::told(reply)),
        }
    }

    /// Does a call. A refusal for want of memory changes nothing.
    pub fn step(&mut self, actor: u32, at: u64, call: &Call) -> Result<Answer, NoMemory>
        requires { IsPlainCall call.now }
        ensures ok { IfOk result (λ answer. (texts : Texts) → step texts (world_of self.old) actor at call.now ≡ outcome_with answer (world_of self.new)) }
        ensures err { OnErr result (world_of self.new ≡ world_of self.old) }
    {
        match call {
            Call::Make(_)
            | Call::Mkdir(_)
            | Call::Rm(_)
            | Call::Rmdir(_)
            | Call::Mv(_, _)
            | Call::Write(_, _, _)
            | Call::Fill(_, _, _, _)
            | Call::Trunc(_, _) => self.change(call),
            Call::Read(path, place, len) => Ok(Answer::told(range_read(
                self.alloc,
                &self.primary,
                path,
                *place,
                *len,
            )?)),
            Call::List(path) => Ok(Answer::told(names_listed(self.alloc, &self.primary, path)?)),
            Call::Stat(path) => Ok(Answer::told(status_of(self.alloc, &self.primary, path)?)),
            Call::Create(name, nodata, removable) => self.create(name, *nodata, *removable, at),
            Call::Remove(name) => Ok(self.remove(name)),
            Call::Nodata(name, _) => Ok(self.nodata(name)),
            Call::Removable(name, on) => Ok(self.set_removable(name, *on)),
            Call::Ckpts => Ok(Answer::told(listing_of(self)?)),
            Call::Mount(letter, name) => self.mount(actor, *letter, name),
            Call::Umount(letter) => Ok(self.umount(actor, *letter)),
            Call::Cread(letter, path, place, len) => {
                Ok(Answer::told(self.cread(actor, *letter, path, *place, *len)?))
            }
            Call::Clist(letter, path) => Ok(Answer::told(self.clist(actor, *letter, path)?)),
            Call::Restore(name) => Ok(self.restore(name)),
            Call::Info => Ok(Answer::told(info_of(self))),
            Call::Sync => Ok(Answer::told(Reply::Done)),
            Call::Backup(_, _) => unreachable!(),
            Call::Full(_) => unreachable!(),
        }
    }
}
