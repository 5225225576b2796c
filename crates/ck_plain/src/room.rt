ghost use Rattle.std.specs.Prelude.{◌≡◌, ◌≤◌, ◌<◌, ◌^◌, length, map as list_map};
ghost use Rattle.std.specs.FinMap as map;

use crate::PlainMap;
use ck_model::Limits;

/// What a call asks for: the primary map before it and after it, the records that it takes beside
/// those of the maps and checkpoints, and its new blocks.
#[derive(Clone, Copy)]
pub struct Room<'a> {
    pub limits: Limits,
    pub primary: &'a PlainMap,
    pub next: &'a PlainMap,
    pub records: u64,
    pub blocks: u64,
    pub ghost few_cells: { map.len primary.now < 2 ^ 32 },
    pub ghost few_next: { map.len next.now < 2 ^ 32 },
    pub ghost few_records: { records ≤ 1 },
    pub ghost few_blocks: { blocks < 2 ^ 32 },
}
