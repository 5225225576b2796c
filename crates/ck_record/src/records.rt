use ck_model::{Counters, Fileset, Held, Key};

/// What a slot of a table holds.
#[derive(Clone, Copy, Debug, PartialEq, Eq)]
pub enum Record {
    Free,
    Counters(Counters),
    /// A checkpoint's id, and what is kept of it.
    Fileset(u32, Fileset),
    /// What a fileset says of a key. Fileset 0 is the primary.
    Entry(u32, Key, Held),
}
