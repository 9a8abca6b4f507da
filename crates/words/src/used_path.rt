//! The paths that a batch uses.
ghost use Rattle.std.specs.Prelude.{◌≡◌, ◌++◌, [], IfOk, OnOk, codes};
ghost use Rattle.std.specs.List.{list_any};
ghost use Rattle.words.specs.JobsFaults as fault;
ghost use Rattle.words.specs.JobsFile as spec;
ghost use Rattle.words.specs.declared.member.Member.TheVariants as member;
ghost use Rattle.words.specs.declared.place.Place.TheVariants as place;

use crate::member::Member;
use crate::place::Place;
use jtext::{Json, List, NoMemory, Text, string_at};
use std::alloc::Global;

/// A path, with the value of the jobs file that gives it.
#[derive(Debug, Drop)]
pub(crate) struct UsedPath {
    pub(crate) path: Text,
    pub(crate) place: Place,
}

/// The paths of these jobs and of their file, in the order in which they are compared.
pub(crate) fn paths_of(
    alloc: Global,
    file: &Text,
    jobs: &[Json],
) -> Result<List<UsedPath>, NoMemory>
    ensures { IfOk result (λ r. r ≡ spec.paths_of file.now jobs.now) }
{
    let mut paths = List::new(alloc);
    paths.push(UsedPath {
        path: file.copy(alloc)?,
        place: Place::Whole,
    })?;
    for (i, job) in jobs.iter().enumerate() {
        add_paths(alloc, &mut paths, i, job)?;
    }
    Ok(paths)
}

fn add_paths(
    alloc: Global,
    paths: &mut List<UsedPath>,
    i: usize,
    job: &Json,
) -> Result<(), NoMemory>
    ensures { OnOk result (paths.new ≡ paths.old ++ spec.paths_of_job i job.now) }
{
    paths.push(input_path(alloc, i, job)?)?;
    paths.push(output_path(alloc, i, job)?)?;
    paths.push(path_beside(alloc, i, job, ".nbrun-tmp")?)?;
    paths.push(path_beside(alloc, i, job, ".nbrun-kernel.json")?)?;
    Ok(())
}

fn input_path(alloc: Global, i: usize, job: &Json) -> Result<UsedPath, NoMemory>
    ensures { IfOk result (λ r.
        r ≡ spec.used_path (spec.path_at (codes "input") job.now) (place.Value i member.Input)) }
{
    Ok(UsedPath {
        path: Text::of(alloc, path_at(job, "input"))?,
        place: Place::Value(i, Member::Input),
    })
}

fn output_path(alloc: Global, i: usize, job: &Json) -> Result<UsedPath, NoMemory>
    ensures { IfOk result (λ r.
        r ≡ spec.used_path (spec.path_at (codes "output") job.now) (place.Value i member.Output)) }
{
    Ok(UsedPath {
        path: Text::of(alloc, path_at(job, "output"))?,
        place: Place::Value(i, Member::Output),
    })
}

/// The file beside the output with that ending.
fn path_beside(alloc: Global, i: usize, job: &Json, ending: &str) -> Result<UsedPath, NoMemory>
    ensures { IfOk result (λ r.
        r ≡ spec.used_path (spec.path_at (codes "output") job.now ++ ending.now)
        (place.Value i member.Output)) }
{
    let mut path = String::from_str(alloc, path_at(job, "output"))?;
    path.push_str(ending)?;
    Ok(UsedPath {
        path: Text::of_string(path),
        place: Place::Value(i, Member::Output),
    })
}

/// The path under a key, and the empty text where there is none.
pub(crate) fn path_at<'a>(job: &'a Json, key: &str) -> &'a str
    ensures { result.now ≡ spec.path_at key.now job.now }
{
    match string_at(job, key) {
        Some(path) => path.as_str(),
        None => "",
    }
}

/// The first path that is equal to an earlier one, by the value that gives it.
pub(crate) fn first_equal(paths: &[UsedPath]) -> Option<Place>
    ensures { result ≡ fault.first_equal [] paths.now }
{
    for (i, used) in paths.iter().enumerate() {
        if is_among(&paths[..i], used) {
            return Some(used.place);
        }
    }
    None
}

fn is_among(paths: &[UsedPath], used: &UsedPath) -> bool
    ensures { result ≡ list_any (spec.is_equal used.now) paths.now }
{
    paths
        .iter()
        .any(|earlier| used.path.as_str() == earlier.path.as_str())
}
