ghost use Rattle.std.specs.Prelude.{◌≡◌, IfOk, length, nat_eq, map as list_map, ◌&&◌};
ghost use Rattle.std.specs.Ordering.{eq_by_cmp};
ghost use Rattle.std.specs.Cmp.Lexicographic.{pointwise};
ghost use Rattle.ck_model.specs.Key.{key_cmp, entry_cmp};
ghost use Rattle.ck_area.specs.Firsts.{IsFirst, repeats};
ghost use Rattle.ck_area.specs.Parts.{place_in, version_in, named_in, id_in, live_name_in};

use crate::parts::{id_in, live_name_in, named_in, place_in, version_in};
use crate::repeats::first_repeat;
use ck_model::{Key, NameBytes, NoMemory};
use ck_record::Record;
use std::alloc::Global;

fn places(alloc: Global, area: &[Option<Record>]) -> Result<Vec<Option<(u32, Key)>>, NoMemory>
    ensures { IfOk result (λ parts. parts.items ≡ list_map place_in area.now) }
{
    Ok(area.iter().map(place_in).collect(alloc)?)
}

fn versions(alloc: Global, area: &[Option<Record>]) -> Result<Vec<Option<(Key, u64)>>, NoMemory>
    ensures { IfOk result (λ parts. parts.items ≡ list_map version_in area.now) }
{
    Ok(area.iter().map(version_in).collect(alloc)?)
}

fn named(alloc: Global, area: &[Option<Record>]) -> Result<Vec<Option<u32>>, NoMemory>
    ensures { IfOk result (λ parts. parts.items ≡ list_map named_in area.now) }
{
    Ok(area.iter().map(named_in).collect(alloc)?)
}

fn ids(alloc: Global, area: &[Option<Record>]) -> Result<Vec<Option<u32>>, NoMemory>
    ensures { IfOk result (λ parts. parts.items ≡ list_map id_in area.now) }
{
    Ok(area.iter().map(id_in).collect(alloc)?)
}

fn live_names(alloc: Global, area: &[Option<Record>]) -> Result<Vec<Option<NameBytes>>, NoMemory>
    ensures { IfOk result (λ parts. parts.items ≡ list_map live_name_in area.now) }
{
    Ok(area.iter().map(live_name_in).collect(alloc)?)
}

/// The first slot with the fileset and key of a lower one.
pub fn repeated_place(alloc: Global, area: &[Option<Record>]) -> Result<Option<usize>, NoMemory>
    ensures { IfOk result
        (IsFirst (repeats (eq_by_cmp entry_cmp) (list_map place_in area.now)) (length area.now)) }
{
    first_repeat(alloc, &places(alloc, area)?)
}

/// The first slot with the key and stamp of a lower one, whatever their filesets.
pub fn repeated_version(alloc: Global, area: &[Option<Record>]) -> Result<Option<usize>, NoMemory>
    ensures { IfOk result
        (IsFirst (repeats (λ x y. eq_by_cmp key_cmp x.0 y.0 && nat_eq x.1 y.1) (list_map version_in area.now))
        (length area.now)) }
{
    first_repeat(alloc, &versions(alloc, area)?)
}

/// The first slot that names the data block of a lower one.
pub fn repeated_block(alloc: Global, area: &[Option<Record>]) -> Result<Option<usize>, NoMemory>
    ensures { IfOk result
        (IsFirst (repeats nat_eq (list_map named_in area.now)) (length area.now)) }
{
    first_repeat(alloc, &named(alloc, area)?)
}

/// The first slot with the id of a lower one.
pub fn repeated_id(alloc: Global, area: &[Option<Record>]) -> Result<Option<usize>, NoMemory>
    ensures { IfOk result
        (IsFirst (repeats nat_eq (list_map id_in area.now)) (length area.now)) }
{
    first_repeat(alloc, &ids(alloc, area)?)
}

/// The first slot with the name of a lower one, where neither checkpoint is gone.
pub fn repeated_name(alloc: Global, area: &[Option<Record>]) -> Result<Option<usize>, NoMemory>
    ensures { IfOk result
        (IsFirst (repeats (pointwise nat_eq) (list_map live_name_in area.now)) (length area.now)) }
{
    first_repeat(alloc, &live_names(alloc, area)?)
}
