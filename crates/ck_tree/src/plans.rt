ghost use Rattle.std.specs.Prelude.{◌≡◌, ◌≤◌, ◌⊎◌, ◌^◌, ℕ, List, length, IfOk, IfErr, Ok, Err, nat_eq, if◌then◌else◌};
ghost use Rattle.ck_model.specs.declared.call.Call.TheVariants as call;
ghost use Rattle.ck_model.specs.declared.held.Small.TheVariants as small;
ghost use Rattle.ck_model.specs.Limits.{file_limit};
ghost use Rattle.ck_model.specs.Rules.{IsOrderly};
ghost use Rattle.ck_tree.specs.declared.fault.TreeFault.TheVariants as fault;
ghost use Rattle.ck_tree.specs.Plan.{IsPlan, IsRefusal, making};
ghost use Rattle.ck_model.specs.FileCalls.{IsChanging};

use crate::deletions::delete_file;
use crate::directory::has_names;
use crate::fault::TreeFault;
use crate::lookup::{find_directory, find_file, find_name, find_new_name};
use crate::nodes::size_at;
use crate::numbers::draw;
use crate::sizes::resize;
use crate::writes::write_bytes;
use ck_model::{Call, Change, FILE_LIMIT, Key, Meta, Path, Small};
use std::alloc::Global;

/// The stamp at which none is left.
const LAST_STAMP: u64 = 1 << 63;

/// That a stamp is left.
fn check_stamp<M: Meta>(meta: &M) -> Result<(), TreeFault>
    ensures { result ≡ (if nat_eq (M.table meta.now).counters.stamp (2 ^ 63) then Err fault.Spent else Ok tt) }
{
    if meta.counters().stamp == LAST_STAMP {
        Err(TreeFault::Spent)
    } else {
        Ok(())
    }
}

/// A new file or directory.
fn plan_new<M: Meta>(
    alloc: Global,
    meta: &M,
    path: &Path,
    kind: Small,
) -> Result<Vec<Change>, TreeFault>
    requires kind { (kind ≡ small.File 0) ⊎ (kind ≡ small.Dir) }
    requires orderly { IsOrderly (M.table meta.now) }
    ensures plan { IfOk result (λ changes. IsPlan (M.table meta.now) (making kind path.now) changes.items) }
    ensures refusal { IfErr result (IsRefusal (M.table meta.now) (making kind path.now)) }
{
    let name = find_new_name(meta, 0, path.items())?;
    check_stamp(meta)?;
    let number = draw(meta).ok_or(TreeFault::Spent)?;
    let changes = [
        Change::Put(Key::Node(number), kind),
        Change::Put(name, Small::To(number)),
    ];
    Ok(Vec::from_slice(alloc, &changes)?)
}

/// A file that goes.
fn plan_removal<M: Meta>(alloc: Global, meta: &M, path: &Path) -> Result<Vec<Change>, TreeFault>
    requires { IsOrderly (M.table meta.now) }
    ensures plan { IfOk result (λ changes. IsPlan (M.table meta.now) (call.Rm path.now) changes.items) }
    ensures refusal { IfErr result (IsRefusal (M.table meta.now) (call.Rm path.now)) }
{
    let node = find_file(meta, 0, path.items())?;
    let name = find_name(meta, 0, TreeFault::IsDir, path.items())?;
    check_stamp(meta)?;
    Ok(delete_file(alloc, meta, &name, node)?)
}

/// An empty directory that goes.
fn plan_directory_removal<M: Meta>(
    alloc: Global,
    meta: &M,
    path: &Path,
) -> Result<Vec<Change>, TreeFault>
    requires { IsOrderly (M.table meta.now) }
    ensures plan { IfOk result (λ changes. IsPlan (M.table meta.now) (call.Rmdir path.now) changes.items) }
    ensures refusal { IfErr result (IsRefusal (M.table meta.now) (call.Rmdir path.now)) }
{
    let name = find_name(meta, 0, TreeFault::Root, path.items())?;
    let node = find_directory(meta, 0, path.items())?;
    if has_names(meta, 0, node) {
        return Err(TreeFault::NotEmpty);
    }
    check_stamp(meta)?;
    let changes = [Change::Del(Key::Node(node)), Change::Del(name)];
    Ok(Vec::from_slice(alloc, &changes)?)
}

/// A file that gets another name.
fn plan_move<M: Meta>(
    alloc: Global,
    meta: &M,
    path: &Path,
    new_path: &Path,
) -> Result<Vec<Change>, TreeFault>
    requires { IsOrderly (M.table meta.now) }
    ensures plan { IfOk result (λ changes. IsPlan (M.table meta.now) (call.Mv path.now new_path.now) changes.items) }
    ensures refusal { IfErr result (IsRefusal (M.table meta.now) (call.Mv path.now new_path.now)) }
{
    let node = find_file(meta, 0, path.items())?;
    let to = find_new_name(meta, 0, new_path.items())?;
    check_stamp(meta)?;
    let from = find_name(meta, 0, TreeFault::IsDir, path.items())?;
    let changes = [Change::Del(from), Change::Put(to, Small::To(node))];
    Ok(Vec::from_slice(alloc, &changes)?)
}

/// A file that gets another size.
fn plan_size<M: Meta>(
    alloc: Global,
    meta: &M,
    path: &Path,
    size: u64,
) -> Result<Vec<Change>, TreeFault>
    requires limit { size ≤ file_limit }
    requires orderly { IsOrderly (M.table meta.now) }
    ensures plan { IfOk result (λ changes. IsPlan (M.table meta.now) (call.Trunc path.now size) changes.items) }
    ensures refusal { IfErr result (IsRefusal (M.table meta.now) (call.Trunc path.now size)) }
{
    let node = find_file(meta, 0, path.items())?;
    check_stamp(meta)?;
    let old = size_at(meta, 0, node);
    Ok(resize(alloc, meta, node, old, size)?)
}

/// Bytes, so many of them, that are written to a file at a place.
fn plan_write<M: Meta>(
    alloc: Global,
    meta: &M,
    path: &Path,
    at: u64,
    len: u64,
) -> Result<Vec<Change>, TreeFault>
    requires place { at ≤ file_limit }
    requires len { len ≤ 2 ^ 63 }
    requires orderly { IsOrderly (M.table meta.now) }
    ensures plan { IfOk result (λ changes. (bytes : List ℕ) → length bytes ≡ len →
        IsPlan (M.table meta.now) (call.Write path.now at bytes) changes.items) }
    ensures refusal { IfErr result (λ fault. (bytes : List ℕ) → length bytes ≡ len →
        IsRefusal (M.table meta.now) (call.Write path.now at bytes) fault) }
{
    let node = find_file(meta, 0, path.items())?;
    if len > 0 && at + len > FILE_LIMIT {
        return Err(TreeFault::TooBig(at + len, FILE_LIMIT));
    }
    check_stamp(meta)?;
    if len == 0 {
        return Ok(Vec::new(alloc));
    }
    let old = size_at(meta, 0, node);
    Ok(write_bytes(alloc, node, old, at, len)?)
}

/// What a call is to change of the primary: the deletions first, and no key twice. The data block
/// of a block that is written is 0 here.
pub fn plan<M: Meta>(alloc: Global, meta: &M, call: &Call) -> Result<Vec<Change>, TreeFault>
    requires call { IsChanging call.now }
    requires orderly { IsOrderly (M.table meta.now) }
    ensures plan { IfOk result (λ changes. IsPlan (M.table meta.now) call.now changes.items) }
    ensures refusal { IfErr result (IsRefusal (M.table meta.now) call.now) }
{
    match call {
        Call::Make(path) => plan_new(alloc, meta, path, Small::File(0)),
        Call::Mkdir(path) => plan_new(alloc, meta, path, Small::Dir),
        Call::Rm(path) => plan_removal(alloc, meta, path),
        Call::Rmdir(path) => plan_directory_removal(alloc, meta, path),
        Call::Mv(path, new_path) => plan_move(alloc, meta, path, new_path),
        Call::Write(path, at, bytes) => {
            plan_write(alloc, meta, path, *at, bytes.items().len() as u64)
        }
        Call::Fill(path, at, len, _) => plan_write(alloc, meta, path, *at, u64::from(*len)),
        Call::Trunc(path, size) => plan_size(alloc, meta, path, *size),
        _ => unreachable!(),
    }
}
