ghost use Rattle.std.specs.Prelude.{◌≡◌, ◌≤◌, ◌<◌, ◌++◌, ◌∷◌, [], not, filter, OnOk, OnErr, vec_len, vec_capacity};
ghost use Rattle.std.specs.Ordering.{eq_by_cmp};
ghost use Rattle.std.specs.FinMap as map;
ghost use Rattle.ck_model.specs.World.{mount_cmp};

use crate::NoMemory;
use std::alloc::Global;
use std::marker::Model;

/// Which checkpoint, by its id, an actor's letter stands for.
#[derive(Drop)]
pub struct Mounts {
    mounts: Vec<((u32, u8), u32)>,
}

impl Model for Mounts {
    ghost use Rattle.std.specs.FinMap as map;
    ghost use Rattle.std.specs.Coded.{coded_ℕ, coded×};
    ghost use Rattle.ck_model.specs.World.{Mounts};

    ghost Value = { Mounts };

    ghost coded = { map.code (coded× coded_ℕ coded_ℕ) coded_ℕ };

    ghost view = { λ list. map.from_entries list.mounts.items };
}

fn is_mount(a: &(u32, u8), b: &(u32, u8)) -> bool
    ensures { result ≡ eq_by_cmp mount_cmp a.now b.now }
{
    a.0 == b.0 && a.1 == b.1
}

fn drop_mount(mounts: &mut Vec<((u32, u8), u32)>, mount: &(u32, u8))
    ensures others { mounts.new.items ≡ filter (λ e. not (eq_by_cmp mount_cmp mount.now e.0)) mounts.old.items }
    ensures len { vec_len mounts.new ≤ vec_len mounts.old }
    ensures capacity { vec_capacity mounts.new ≡ vec_capacity mounts.old }
{
    mounts.retain(|entry| !is_mount(mount, &entry.0));
}

fn put_mount(mounts: &mut Vec<((u32, u8), u32)>, mount: (u32, u8), id: u32)
    requires { vec_len mounts.old < vec_capacity mounts.old }
    ensures { mounts.new.items ≡ filter (λ e. not (eq_by_cmp mount_cmp mount e.0)) mounts.old.items ++ (mount, id) ∷ [] }
{
    drop_mount(mounts, &mount);
    mounts.push_reserved((mount, id));
}

impl Mounts {
    pub fn new(alloc: Global) -> Mounts
        ensures { result ≡ map.empty }
    {
        Mounts {
            mounts: Vec::new(alloc),
        }
    }

    pub fn get(&self, actor: u32, letter: u8) -> Option<u32>
        ensures { result ≡ map.get self.now (actor, letter) }
    {
        let mount = (actor, letter);
        for entry in &self.mounts {
            if is_mount(&mount, &entry.0) {
                return Some(entry.1);
            }
        }
        None
    }

    pub fn contains_key(&self, actor: u32, letter: u8) -> bool
        ensures { result ≡ map.contains_key self.now (actor, letter) }
    {
        self.get(actor, letter).is_some()
    }

    /// Lets a letter stand for a checkpoint. A refusal changes nothing.
    pub fn insert(&mut self, actor: u32, letter: u8, id: u32) -> Result<(), NoMemory>
        ensures ok { OnOk result (self.new ≡ map.insert self.old (actor, letter) id) }
        ensures err { OnErr result (self.new ≡ self.old) }
    {
        self.mounts.reserve(1)?;
        put_mount(&mut self.mounts, (actor, letter), id);
        Ok(())
    }

    pub fn remove(&mut self, actor: u32, letter: u8)
        ensures { self.new ≡ map.remove self.old (actor, letter) }
    {
        drop_mount(&mut self.mounts, &(actor, letter));
    }
}
