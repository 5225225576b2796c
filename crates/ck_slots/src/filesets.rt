ghost use Rattle.std.specs.Prelude.{◌≡◌, ◌≤◌, ◌<◌, ◌∷◌, ◌⊎◌, [], true, vec_len, vec_capacity};
ghost use Rattle.std.specs.Prelude.{IsSome, IfOk, IfErr, IfSome, MatchOption};
ghost use Rattle.std.specs.Ordering.{nat_cmp};
ghost use Rattle.std.specs.FinMap.{is_sorted};
ghost use Rattle.std.specs.FinMap as map;
ghost use Rattle.ck_model.specs.Ordered.{IsFoundAt, IsGapAt, Edits};
ghost use Rattle.ck_slots.specs.Recorded.{filesets_of, ids_behind};

use ck_model::Fileset;

// The place of a checkpoint's record, or the place where it would go.
fn search(filesets: &[(u32, Fileset)], id: u32) -> Result<usize, usize>
    requires { is_sorted nat_cmp filesets.now ≡ true }
    ensures found { IfOk result (IsFoundAt nat_cmp id filesets.now) }
    ensures absent { IfErr result (IsGapAt nat_cmp id filesets.now) }
{
    let at = filesets.partition_point(|entry| entry.0 < id);
    if at < filesets.len() && filesets[at].0 == id {
        Ok(at)
    } else {
        Err(at)
    }
}

pub fn look(filesets: &[(u32, Fileset)], id: u32) -> Option<Fileset>
    requires { is_sorted nat_cmp filesets.now ≡ true }
    ensures { result ≡ map.get (filesets_of filesets.now) id }
{
    match search(filesets, id) {
        Ok(at) => Some(filesets[at].1),
        Err(_) => None,
    }
}

pub fn set(filesets: &mut Vec<(u32, Fileset)>, id: u32, fileset: Fileset)
    requires sorted { is_sorted nat_cmp filesets.old.items ≡ true }
    requires room { IsSome (map.get (filesets_of filesets.old.items) id)
        ⊎ (vec_len filesets.old < vec_capacity filesets.old) }
    ensures set { Edits nat_cmp filesets.new.items
        (map.insert (filesets_of filesets.old.items) id fileset) }
    ensures capacity { vec_capacity filesets.old ≤ vec_capacity filesets.new }
{
    match search(filesets, id) {
        Ok(at) => filesets[at].1 = fileset,
        Err(at) => filesets.insert(at, (id, fileset)).unwrap(),
    }
}

pub fn unset(filesets: &mut Vec<(u32, Fileset)>, id: u32)
    requires { is_sorted nat_cmp filesets.old.items ≡ true }
    ensures unset { Edits nat_cmp filesets.new.items
        (map.remove (filesets_of filesets.old.items) id) }
    ensures capacity { vec_capacity filesets.new ≡ vec_capacity filesets.old }
{
    if let Ok(at) = search(filesets, id) {
        filesets.remove(at);
    }
}

/// The least id above this number.
pub fn next_id(filesets: &[(u32, Fileset)], after: u32) -> Option<u32>
    requires { is_sorted nat_cmp filesets.now ≡ true }
    ensures next { MatchOption result (ids_behind filesets.now after ≡ [])
        (λ id. ids_behind filesets.now after ≡ id ∷ ids_behind filesets.now id) }
    ensures above { IfSome result (λ id. after < id) }
{
    let at = filesets.partition_point(|entry| entry.0 <= after);
    if at < filesets.len() {
        Some(filesets[at].0)
    } else {
        None
    }
}
