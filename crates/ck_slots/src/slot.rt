use ck_model::{Held, Key};

/// An entry of a table: what a fileset holds at a key.
#[derive(Clone, Copy)]
pub struct Slot {
    pub fileset: u32,
    pub key: Key,
    pub held: Held,
}
