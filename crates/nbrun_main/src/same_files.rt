//! The refusal of words by which a run would write over a file that it uses otherwise too, whatever
//! the paths of both are.
ghost use Rattle.std.specs.Prelude.{◌≡◌, [], option_map, IfOk};
ghost use Rattle.nbrun_main.specs.SameFiles.{first_clash, refusal_of};

use crate::named::Named;
use crate::used_file::{UsedFile, first_clash};
use graph_run::{read_graph_words, workflow_of};
use jtext::{Bytes, NoMemory, Text};
use nbrun_top::{graph_words, report_words};
use report_run::read_words;
use std::alloc::Global;
use std::fs;
use std::rt::Files;
use words::{Ask, Asks, Command, Usage, jobs, read};
use world::{Disk, ReadFile, folder};
use world_real::FileId;

/// The most bytes of a jobs file.
const MOST: u64 = 1_048_576;

/// The ending of the file that becomes an output.
const TEMPORARY: &str = ".nbrun-tmp";

/// The endings of the files that a run writes beside an output.
const BESIDE: [&str; 2] = [TEMPORARY, ".nbrun-kernel.json"];

/// The index of the word that gives the output of a report.
pub(crate) const REPORT_OUTPUT: u32 = 3;

/// The refusal of these words, where an output is the same file as an input or another output. A
/// jobs file is read for it where it is a regular file: another one could be read only once.
pub(crate) fn refusal<R: Files, W: Disk>(
    files: &R,
    alloc: Global,
    words: &[String],
    w: &mut W,
) -> Result<Option<Usage>, NoMemory> {
    if let Some(rest) = report_words(words) {
        return refusal_of_report(files, alloc, rest);
    }
    if let Some(rest) = graph_words(words) {
        return refusal_of_graph(files, alloc, rest, w);
    }
    match read(alloc, words) {
        Ok(Command::One(ask)) => refusal_of_one(files, alloc, words, &ask),
        Ok(Command::Many { file, common }) => {
            let asks = asks_in(files, alloc, &file, &common, w);
            refusal_of_many(files, alloc, &file, asks)
        }
        Ok(Command::Exercise(_)) => Ok(None),
        Err(_) => Ok(None),
    }
}

// The refusal of a report with these words after `report`.
fn refusal_of_report<R: Files>(
    files: &R,
    alloc: Global,
    words: &[String],
) -> Result<Option<Usage>, NoMemory> {
    let Ok(request) = read_words(alloc, words) else {
        return Ok(None);
    };
    let output = Named::Word(REPORT_OUTPUT);
    let mut used = Vec::new(alloc);
    used.push(used_file(files, alloc, &request.input, false, output)?)?;
    used.push(used_file(files, alloc, &request.output, true, output)?)?;
    used.push(beside(files, alloc, &request.output, TEMPORARY, output)?)?;
    refusal_among(alloc, used.as_slice())
}

// The refusal of the one job of these words.
fn refusal_of_one<R: Files>(
    files: &R,
    alloc: Global,
    words: &[String],
    ask: &Ask,
) -> Result<Option<Usage>, NoMemory> {
    let mut used = Vec::new(alloc);
    if let Some(i) = output_word(alloc, words, ask)? {
        let word = Named::Word(i);
        used.push(used_file(files, alloc, &ask.input, false, word)?)?;
        add_output(files, alloc, &mut used, &ask.output, word)?;
    }
    refusal_among(alloc, used.as_slice())
}

// The refusal of a graph with these words after `graph`.
fn refusal_of_graph<R: Files, W: Disk>(
    files: &R,
    alloc: Global,
    words: &[String],
    w: &mut W,
) -> Result<Option<Usage>, NoMemory> {
    let Ok((file, common)) = read_graph_words(alloc, words) else {
        return Ok(None);
    };
    let asks = match bytes_in(files, alloc, &file, w) {
        Some(bytes) => match workflow_of(alloc, bytes.bytes(), &file, &common) {
            Ok(flow) => Some(flow.asks),
            Err(_) => None,
        },
        None => None,
    };
    refusal_of_many(files, alloc, &file, asks)
}

// The refusal of a jobs file with these jobs, where there are any.
fn refusal_of_many<R: Files>(
    files: &R,
    alloc: Global,
    file: &Text,
    asks: Option<Asks>,
) -> Result<Option<Usage>, NoMemory> {
    let mut used = Vec::new(alloc);
    if let Some(asks) = asks {
        used.push(used_file(files, alloc, file, false, Named::JobsFile)?)?;
        for (i, ask) in asks.as_slice().iter().enumerate() {
            used.push(used_file(files, alloc, &ask.input, false, Named::Input(i))?)?;
            add_output(files, alloc, &mut used, &ask.output, Named::Output(i))?;
        }
    }
    refusal_among(alloc, used.as_slice())
}

// The refusal of the first path whose file is the same as an earlier one.
fn refusal_among(alloc: Global, used: &[UsedFile]) -> Result<Option<Usage>, NoMemory>
    ensures { IfOk result (λ usage. usage ≡ option_map refusal_of (first_clash [] used.now)) }
{
    match first_clash(used) {
        Some(named) => Ok(Some(named.refusal(alloc)?)),
        None => Ok(None),
    }
}

// The jobs of a file that can be read again, where they are taken.
fn asks_in<R: Files, W: Disk>(
    files: &R,
    alloc: Global,
    file: &Text,
    common: &Ask,
    w: &mut W,
) -> Option<Asks> {
    let bytes = bytes_in(files, alloc, file, w)?;
    jobs(alloc, bytes.bytes(), file, common).ok()
}

// The bytes of a jobs file that can be read again.
fn bytes_in<R: Files, W: Disk>(files: &R, alloc: Global, file: &Text, w: &mut W) -> Option<Bytes> {
    match fs::metadata(files, file.as_str()) {
        Ok(there) if there.is_file() => {}
        _ => return None,
    }
    match w.read_file(alloc, file, MOST) {
        ReadFile::Whole(bytes) => Some(bytes),
        _ => None,
    }
}

// Adds an output, and the files that are written beside it. These are made anew under their names:
// what stood there before doesn't matter.
fn add_output<R: Files>(
    files: &R,
    alloc: Global,
    used: &mut Vec<UsedFile>,
    path: &Text,
    named: Named,
) -> Result<(), NoMemory> {
    used.push(used_file(files, alloc, path, true, named)?)?;
    for ending in BESIDE {
        used.push(beside(files, alloc, path, ending, named)?)?;
    }
    Ok(())
}

// The file beside an output with this ending.
fn beside<R: Files>(
    files: &R,
    alloc: Global,
    path: &Text,
    ending: &str,
    named: Named,
) -> Result<UsedFile, NoMemory> {
    let name = name_in(path.as_str());
    Ok(UsedFile {
        file: None,
        folder: file_at(files, folder(path.as_str())),
        name: Text::of_string(format!(in alloc; "{name}{ending}")?),
        is_written: true,
        named,
    })
}

fn used_file<R: Files>(
    files: &R,
    alloc: Global,
    path: &Text,
    is_written: bool,
    named: Named,
) -> Result<UsedFile, NoMemory> {
    Ok(UsedFile {
        file: file_at(files, path.as_str()),
        folder: file_at(files, folder(path.as_str())),
        name: Text::of(alloc, name_in(path.as_str()))?,
        is_written,
        named,
    })
}

// The file that the path leads to, where there is one.
fn file_at<R: Files>(files: &R, path: &str) -> Option<FileId> {
    match fs::metadata(files, path) {
        Ok(said) => Some(FileId::of(&said)),
        Err(_) => None,
    }
}

// The last name of the path.
fn name_in(path: &str) -> &str {
    match path.rfind('/') {
        Some(at) => &path[at + 1..],
        None => path,
    }
}

/// The index of the word that gives the output of this job: with the input in its place the grammar
/// refuses just this word.
pub(crate) fn output_word(
    alloc: Global,
    words: &[String],
    ask: &Ask,
) -> Result<Option<u32>, NoMemory> {
    for (at, word) in words.iter().enumerate() {
        if word.as_str() == ask.output.as_str() {
            let changed = with_word(alloc, words, at, ask.input.as_str())?;
            if let Err(Usage::SamePath { i }) = read(alloc, changed.as_slice()) {
                return Ok(Some(i));
            }
        }
    }
    Ok(None)
}

// The words, with this one in that place.
fn with_word(
    alloc: Global,
    words: &[String],
    at: usize,
    new: &str,
) -> Result<Vec<String>, NoMemory> {
    let mut changed = Vec::new(alloc);
    for (i, word) in words.iter().enumerate() {
        let text = if i == at { new } else { word.as_str() };
        changed.push(String::from_str(alloc, text)?)?;
    }
    Ok(changed)
}
