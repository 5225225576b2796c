ghost use Rattle.std.specs.Prelude.{◌≡◌, ◌≢◌, ◌<◌, ◌≤◌, ◌++◌, ◌∷◌, List, ℕ, ◌+◌, length, take, drop, slice_index, All, IfOk, IfSome, IfNone};
ghost use Rattle.ck_model.specs.Name.{IsFileName};
ghost use Rattle.ck_model.specs.Path.{IsPath, joined, path_text};

use crate::{NameBytes, NoMemory};
use std::alloc::Global;
use std::marker::Model;

/// The longest text of a path, in bytes.
const LONGEST_PATH: usize = 1024;

/// What stands before each name of a path.
const SLASH: u8 = b'/';

/// Why a path leads to no node.
#[derive(Clone, Copy, Debug, PartialEq, Eq)]
pub enum WalkFault {
    NotFound,
    NotDir,
}

/// The file names of a path from the root, which has none.
#[derive(Debug, Drop)]
pub struct Path {
    names: Vec<NameBytes>,
}

impl Model for Path {
    ghost use Rattle.std.specs.Prelude.{List, ℕ};

    ghost Value = { List (List ℕ) };

    ghost use Rattle.ck_model.specs.Path.{IsPath};

    ghost view = { λ path. path.names.items };

    ghost invariant = { λ path. IsPath path.names.items };
}

impl Path {
    pub fn of(items: Vec<NameBytes>) -> Path
        requires { IsPath items.items }
        ensures { result ≡ items.items }
    {
        Path { names: items }
    }

    /// The path with this text: a slash alone for the root, or else a slash before each name.
    pub fn read(alloc: Global, bytes: &[u8]) -> Result<Option<Path>, NoMemory>
        ensures value { IfOk result (λ found. IfSome found (λ path. path_text path ≡ bytes.now)) }
        ensures path { IfOk result (λ found. IfSome found IsPath) }
        ensures none { IfOk result (λ found. IfNone found
            ((names : List (List ℕ)) → IsPath names → path_text names ≢ bytes.now)) }
    {
        if bytes.is_empty() || bytes.len() > LONGEST_PATH {
            return Ok(None);
        }
        if bytes == b"/".as_slice() {
            return Ok(Some(Path {
                names: Vec::new(alloc),
            }));
        }
        match read_names(alloc, bytes)? {
            Some(names) => Ok(Some(Path { names })),
            None => Ok(None),
        }
    }

    pub fn items(&self) -> &[NameBytes]
        ensures names { result.now ≡ self.now }
        ensures path { IsPath self.now }
    {
        &self.names
    }

    pub fn into_vec(self) -> Vec<NameBytes>
        ensures names { result.items ≡ self }
        ensures path { IsPath self }
    {
        self.names
    }
}

/// The names of a text in which each has a slash before it.
fn read_names(alloc: Global, bytes: &[u8]) -> Result<Option<Vec<NameBytes>>, NoMemory>
    ensures text { IfOk result (λ found. IfSome found (λ names. joined names.items ≡ bytes.now)) }
    ensures each { IfOk result (λ found. IfSome found (λ names. All IsFileName names.items)) }
    ensures none { IfOk result (λ found. IfNone found
        ((names : List (List ℕ)) → All IsFileName names → joined names ≢ bytes.now)) }
{
    let mut names = Vec::new(alloc);
    let mut rest = bytes;
    while !rest.is_empty() {
        let Some(name) = first_name(rest) else {
            return Ok(None);
        };
        rest = &rest[1 + name.bytes().len()..];
        names.push(name)?;
    }
    Ok(Some(names))
}

/// The name that the text begins with, behind a slash.
fn first_name(bytes: &[u8]) -> Option<NameBytes>
    ensures name { IfSome result IsFileName }
    ensures text { IfSome result (λ name. bytes.now ≡ SLASH ∷ (name ++ drop (1 + length name) bytes.now)) }
    ensures only { (name : List ℕ) (names : List (List ℕ)) → IsFileName name
        → SLASH ∷ (name ++ joined names) ≡ bytes.now → result ≡ Some name }
{
    let (slash, text) = bytes.split_first()?;
    if *slash != SLASH {
        return None;
    }
    let name = NameBytes::read(before_slash(text))?;
    if name.is_file_name() {
        Some(name)
    } else {
        None
    }
}

/// The text up to its first slash.
fn before_slash(text: &[u8]) -> &[u8]
    ensures text { text.now ≡ result.now ++ drop (length result.now) text.now }
    ensures only { (name : List ℕ) (names : List (List ℕ)) → IsFileName name
        → name ++ joined names ≡ text.now → result.now ≡ name }
{
    &text[..name_end(text)]
}

/// Where the name that the text begins with ends: at the first slash, or at the text's end.
fn name_end(text: &[u8]) -> usize
    ensures within { result ≤ length text.now }
    ensures before { All (λ byte. byte ≢ SLASH) (take result text.now) }
    ensures slash { result < length text.now → slice_index text.now result ≡ SLASH }
{
    text.iter()
        .position(|byte| *byte == SLASH)
        .unwrap_or(text.len())
}
