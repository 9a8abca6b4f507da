//! Hints for people: one line on the standard error stream that helps, after a status other than 0.
//! Nothing here writes to the standard output, and the status is answered already.
ghost use Rattle.std.specs.Prelude.{◌≡◌};
ghost use Rattle.nbrun_main.specs.Hints as spec;

use crate::same_files::{REPORT_OUTPUT, output_word};
use graph_run::read_graph_words;
use jtext::NoMemory;
use nbrun_top::{graph_words, report_words};
use report_run::read_words;
use std::alloc::Global;
use std::env::{split_paths, var};
use std::fs;
use std::rt::{Env, Files};
use words::{Command, Usage, read};
use world_real::{Complaint, Departure, RealWorld};

/// The system's numbers for too many open files (errno(3), `EMFILE` and `ENFILE`).
const TOO_MANY_FILES: [i32; 2] = [24, 23];

/// Where Jupyter's kernels are described, beside the folders that variables name.
const KERNELS: [&str; 2] = [
    "/usr/share/jupyter/kernels",
    "/usr/local/share/jupyter/kernels",
];

/// The file in the folder of a kernel's name.
const SPEC: &str = "/kernel.json";

/// Gives the hint for this status of these words over that world.
pub(crate) fn give_hint<R: Eprint + Env + Files + Alloc>(
    rt: &R,
    alloc: Global,
    words: &[String],
    status: u8,
    w: &RealWorld<HostRuntime>,
) {
    if let Ok(Some(hint)) = hint_for(rt, alloc, words, status, w) {
        let _ = rt.eprintln(hint.as_str());
    }
}

fn hint_for<R: Env + Files + Alloc>(
    rt: &R,
    alloc: Global,
    words: &[String],
    status: u8,
    w: &RealWorld<HostRuntime>,
) -> Result<Option<String>, NoMemory> {
    match status {
        2 => Ok(Some(hint_for_words(alloc, words)?)),
        3 | 6 | 10 | 14 => hint_for_call(rt, alloc, w.complaint()),
        7 => Ok(Some(String::from_str(
            alloc,
            "nbrun: --start-timeout gives the kernel more seconds",
        )?)),
        8 => hint_for_kernel(alloc, w.departure(), w.has_parted()),
        _ => Ok(None),
    }
}

// ---- words

fn hint_for_words(alloc: Global, words: &[String]) -> Result<String, NoMemory> {
    match refused_word(alloc, words)? {
        Some(word) => Ok(format!(in alloc;
            "nbrun: the word '{word}' is refused; nbrun --help lists what is taken"
        )?),
        None => Ok(String::from_str(
            alloc,
            "nbrun: nbrun --help lists the words, and shows a jobs file",
        )?),
    }
}

// The word that is refused. Words that were taken were refused for their output.
fn refused_word(alloc: Global, words: &[String]) -> Result<Option<&String>, NoMemory> {
    match refused_index(alloc, words)? {
        Some(i) => Ok(words.get(i as usize)),
        None => Ok(None),
    }
}

fn refused_index(alloc: Global, words: &[String]) -> Result<Option<u32>, NoMemory> {
    if let Some(rest) = report_words(words) {
        return Ok(match read_words(alloc, rest) {
            Ok(_) => Some(REPORT_OUTPUT),
            Err(usage) => refused_at(&usage),
        });
    }
    if let Some(rest) = graph_words(words) {
        return Ok(match read_graph_words(alloc, rest) {
            Ok(_) => None,
            Err(usage) => refused_at(&usage),
        });
    }
    match read(alloc, words) {
        Ok(Command::One(ask)) => output_word(alloc, words, &ask),
        Ok(Command::Many { .. }) => Ok(None),
        Ok(Command::Exercise(_)) => Ok(None),
        Err(usage) => Ok(refused_at(&usage)),
    }
}

// The index of the word that is refused.
fn refused_at(usage: &Usage) -> Option<u32>
    ensures { result ≡ spec.refused_at usage.now }
{
    match usage {
        Usage::Unknown { i } => Some(*i),
        Usage::NoValue { i } => Some(*i),
        Usage::BadNumber { i } => Some(*i),
        Usage::Twice { i } => Some(*i),
        Usage::Extra { i } => Some(*i),
        Usage::SamePath { i } => Some(*i),
        Usage::BadName { i } => Some(*i),
        Usage::Missing | Usage::BadJobs { .. } | Usage::NoMemory => None,
    }
}

// ---- calls of the system

fn hint_for_call<R: Env + Files + Alloc>(
    rt: &R,
    alloc: Global,
    complaint: Option<&Complaint>,
) -> Result<Option<String>, NoMemory> {
    let Some(complaint) = complaint else {
        return Ok(None);
    };
    let error = complaint.error;
    if has_too_many_files(error.raw_os_error()) {
        return Ok(Some(format!(in alloc;
            "nbrun: too few file descriptors ({error}); ulimit -n raises their number"
        )?));
    }
    match &complaint.name {
        Some(name) => match kernel_folder(rt, alloc, name.as_str())? {
            Some(folder) => Ok(Some(format!(in alloc;
                "nbrun: --kernel-path {folder} has this kernel"
            )?)),
            None => {
                let name = name.as_str();
                Ok(Some(format!(in alloc; "nbrun: {name}: {error}")?))
            }
        },
        None => Ok(Some(format!(in alloc; "nbrun: {error}")?)),
    }
}

fn has_too_many_files(code: Option<i32>) -> bool {
    match code {
        Some(code) => TOO_MANY_FILES.contains(&code),
        None => false,
    }
}

// ---- kernel specs

// The folder of kernels that has the kernel whose spec was looked for at this path.
fn kernel_folder<R: Env + Files + Alloc>(
    rt: &R,
    alloc: Global,
    path: &str,
) -> Result<Option<String>, NoMemory> {
    let Some(kernel) = kernel_in(path) else {
        return Ok(None);
    };
    for folder in KERNELS {
        if has_kernel(rt, alloc, folder, kernel)? {
            return Ok(Some(String::from_str(alloc, folder)?));
        }
    }
    if let Ok(home) = var(rt, "HOME") {
        let home = home.as_str();
        let folder = format!(in alloc; "{home}/.local/share/jupyter/kernels")?;
        if has_kernel(rt, alloc, folder.as_str(), kernel)? {
            return Ok(Some(folder));
        }
    }
    folder_of_variable(rt, alloc, kernel)
}

// The same among the folders of the variable `JUPYTER_PATH`.
fn folder_of_variable<R: Env + Files + Alloc>(
    rt: &R,
    alloc: Global,
    kernel: &str,
) -> Result<Option<String>, NoMemory> {
    let Ok(paths) = var(rt, "JUPYTER_PATH") else {
        return Ok(None);
    };
    for path in split_paths(paths.as_str()) {
        let path = path.as_str();
        let folder = format!(in alloc; "{path}/kernels")?;
        if has_kernel(rt, alloc, folder.as_str(), kernel)? {
            return Ok(Some(folder));
        }
    }
    Ok(None)
}

// The kernel whose spec has this path.
fn kernel_in(path: &str) -> Option<&str> {
    let folder = path.strip_suffix(SPEC)?;
    match folder.rsplit_once('/') {
        Some((_, kernel)) => Some(kernel),
        None => Some(folder),
    }
}

fn has_kernel<R: Files>(
    rt: &R,
    alloc: Global,
    folder: &str,
    kernel: &str,
) -> Result<bool, NoMemory> {
    let path = format!(in alloc; "{folder}/{kernel}{SPEC}")?;
    Ok(fs::metadata(rt, path.as_str()).is_ok())
}

// ---- kernels that were lost

fn hint_for_kernel(
    alloc: Global,
    departure: Option<Departure>,
    parted: bool,
) -> Result<Option<String>, NoMemory> {
    match departure {
        Some(departure) => Ok(Some(hint_for_end(alloc, departure)?)),
        None if parted => Ok(Some(String::from_str(
            alloc,
            "nbrun: the kernel closed a connection",
        )?)),
        None => Ok(Some(String::from_str(
            alloc,
            "nbrun: ten pings had no answer; some kernels give none while a cell runs: --no-heartbeat",
        )?)),
    }
}

fn hint_for_end(alloc: Global, departure: Departure) -> Result<String, NoMemory> {
    let status = departure.status;
    match departure.taken_port {
        Some(port) => Ok(format!(in alloc;
            "nbrun: the kernel ended with status {status}: another program has taken its port {port}"
        )?),
        None if departure.was_heard => Ok(format!(in alloc;
            "nbrun: the kernel ended with status {status}"
        )?),
        None => Ok(format!(in alloc;
            "nbrun: the kernel ended with status {status} before it was ready"
        )?),
    }
}
