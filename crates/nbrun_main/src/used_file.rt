//! `UsedFile`, a file that a run uses, as the system sees it.
ghost use Rattle.std.specs.Prelude.{◌≡◌, [], nat_eq, ◌&&◌};
ghost use Rattle.std.specs.List.{list_any};
ghost use Rattle.nbrun_main.specs.SameFiles as spec;

use crate::named::Named;
use jtext::Text;
use world_real::FileId;

/// A file that a run reads or writes, as the system sees it.
#[derive(Drop)]
pub(crate) struct UsedFile {
    /// The file that its path leads to, where there is one.
    pub file: Option<FileId>,
    /// The folder that the path's last name lies in, where there is one.
    pub folder: Option<FileId>,
    /// The path's last name.
    pub name: Text,
    /// Whether the run writes it.
    pub is_written: bool,
    /// What gives its path.
    pub named: Named,
}

/// What gives the first file that is the same as an earlier one, where one of both is written.
pub(crate) fn first_clash(files: &[UsedFile]) -> Option<Named>
    ensures { result ≡ spec.first_clash [] files.now }
{
    for (i, used) in files.iter().enumerate() {
        if clashes_with_one(&files[..i], used) {
            return Some(used.named);
        }
    }
    None
}

fn clashes_with_one(files: &[UsedFile], used: &UsedFile) -> bool
    ensures { result ≡ list_any (spec.clashes used.now) files.now }
{
    files.iter().any(|earlier| clashes(used, earlier))
}

fn clashes(a: &UsedFile, b: &UsedFile) -> bool
    ensures { result ≡ spec.clashes a.now b.now }
{
    (a.is_written || b.is_written) && is_same(a, b)
}

fn is_same(a: &UsedFile, b: &UsedFile) -> bool
    ensures { result ≡ spec.is_same a.now b.now }
{
    is_one(a.file, b.file) || is_one(a.folder, b.folder) && a.name.as_str() == b.name.as_str()
}

// Whether both are there, and are one.
fn is_one(a: Option<FileId>, b: Option<FileId>) -> bool
    ensures { result ≡ spec.is_one a b }
{
    match (a, b) {
        (Some(a), Some(b)) => a.dev == b.dev && a.ino == b.ino,
        _ => false,
    }
}
