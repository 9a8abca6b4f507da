//! Jobs with a toy kernel behind a script.
ghost use Rattle.std.specs.Prelude.{◌≡◌, ◌≤◌, All, IfOk};
ghost use Rattle.toy_core.specs.Toy.{latest_of};

use crate::checks::last_moment;
use crate::jobs::{run_two, run_within, world_of};
use crate::notebooks::two_with;
use crate::octets::{part, place_of};
use crate::rule::Trick;
use crate::scripted::Scripted;
use job_end::Answer;
use jtext::{Bytes, List, NoMemory, Text};
use kernel_talk::identifier;
use samples::notebooks::TWO;
use std::alloc::Global;
use toy_core::Toy;
use world::Entry;
use world_mem::{Kernels, MemWorld};

const DONE: &str =
    "saved 0/2 out.ipynb\nsaved 1/2 out.ipynb\nsaved 2/2 out.ipynb\nout.ipynb: done\n";

/// What a run has left.
#[derive(Drop)]
pub(crate) struct Played {
    answers: List<Answer>,
    said: Bytes,
    out: Bytes,
    got: Bytes,
    /// The last moment of the journal.
    pub(crate) last: u64,
}

impl Played {
    // What a run over this world has left, with its output at this path.
    fn of(
        alloc: Global,
        w: &MemWorld<Scripted>,
        answers: List<Answer>,
        path: &str,
    ) -> Result<Played, NoMemory> {
        let out = match w.file(&Text::of(alloc, path)?) {
            Some(file) => Bytes::of(alloc, file.bytes())?,
            None => Bytes::new(alloc),
        };
        Ok(Played {
            answers,
            said: Bytes::of(alloc, w.said().bytes())?,
            out,
            got: got(alloc, w)?,
            last: last_moment(w),
        })
    }

    /// Whether the job that ended as this one, from 0, has this status.
    pub(crate) fn has_status(&self, place: usize, status: u8) -> bool {
        match self.answers.get(place) {
            Some(answer) => answer.status == status,
            None => false,
        }
    }

    /// Whether this was said last of the job that ended as this one, from 0.
    pub(crate) fn has_line(&self, place: usize, line: &str) -> bool {
        match self.answers.get(place) {
            Some(answer) => answer.line.bytes() == line.as_bytes(),
            None => false,
        }
    }

    /// Whether just this was said.
    pub(crate) fn has_said(&self, text: &str) -> bool {
        self.said.bytes() == text.as_bytes()
    }

    /// Whether the output is that of the notebook of two cells where the first has these outputs.
    pub(crate) fn has_outputs(&self, alloc: Global, outputs: &str) -> Result<bool, NoMemory> {
        let text = two_with(alloc, outputs)?;
        Ok(self.out.bytes() == text.as_bytes())
    }

    /// Whether the job on the notebook of two cells is done, and its first cell has these outputs.
    pub(crate) fn is_done(&self, alloc: Global, outputs: &str) -> Result<bool, NoMemory> {
        Ok(self.has_said(DONE) && self.has_outputs(alloc, outputs)?)
    }

    /// How often this text was said.
    pub(crate) fn says(&self, text: &str) -> usize {
        count(self.said.bytes(), text)
    }

    /// How often this text stands in the output.
    pub(crate) fn has(&self, text: &str) -> usize {
        count(self.out.bytes(), text)
    }

    /// How often this text came.
    pub(crate) fn gets(&self, text: &str) -> usize {
        count(self.got.bytes(), text)
    }

    /// How often this text came before the first reply of a cell.
    pub(crate) fn gets_early(&self, text: &str) -> usize {
        let got = self.got.bytes();
        match place_of(got, "execute_reply") {
            Some(place) => count(part(got, 0, place), text),
            None => 0,
        }
    }
}

// How often this text stands there.
fn count(octets: &[u8], text: &str) -> usize {
    let mut often: usize = 0;
    for place in 0..octets.len() {
        if let Some(rest) = octets.get(place..) {
            if rest.starts_with(text.as_bytes()) {
                often = often.saturating_add(1);
            }
        }
    }
    often
}

// All that came, in its order.
fn got(alloc: Global, w: &MemWorld<Scripted>) -> Result<Bytes, NoMemory> {
    let mut got = Bytes::new(alloc);
    if let Some(entries) = w.journal() {
        for entry in entries.iter() {
            if let Entry::Got { bytes, .. } = entry {
                got.add(bytes.bytes())?;
            }
        }
    }
    Ok(got)
}

/// The kernel of the job with this number, with a trick.
fn kernel(alloc: Global, number: u32, trick: Trick) -> Result<Scripted, NoMemory>
    ensures { IfOk result (λ k. latest_of k.toy ≡ 0) }
{
    let first = 4 * u64::from(number) + 2;
    let key = identifier(alloc, first, first + 1)?;
    let toy = Toy::new(alloc, &key)?;
    Ok(Scripted::new(alloc, toy, key, trick))
}

/// The kernels of two jobs: the first has a trick.
pub(crate) fn pair(alloc: Global, trick: Trick) -> Result<Kernels<Scripted>, NoMemory>
    ensures { IfOk result (All (λ k. latest_of k.toy ≤ 0)) }
{
    let mut kernels = Kernels::new(alloc);
    kernels.push(kernel(alloc, 0, trick)?)?;
    kernels.push(kernel(alloc, 1, Trick::Nothing)?)?;
    Ok(kernels)
}

/// What the job of these words leaves, on this input, with a kernel with this trick, where reads give
/// at most these sizes in turn and there are so many waits.
pub(crate) fn play_within(
    alloc: Global,
    trick: Trick,
    input: &str,
    words: &str,
    pieces: &[u64],
    turns: u64,
) -> Result<Played, NoMemory> {
    let mut w = world_of(alloc, input, pair(alloc, trick)?, pieces, &[])?;
    let played = play_in(alloc, &mut w, words, turns);
    drop(w);
    played
}

fn play_in(
    alloc: Global,
    w: &mut MemWorld<Scripted>,
    words: &str,
    turns: u64,
) -> Result<Played, NoMemory> {
    let answers = run_within(alloc, w, words, turns)?;
    Played::of(alloc, w, answers, "out.ipynb")
}

/// What a job on the notebook of two cells leaves, with a kernel with this trick.
pub(crate) fn play(alloc: Global, trick: Trick) -> Result<Played, NoMemory> {
    play_within(alloc, trick, TWO, "in.ipynb out.ipynb", &[], 100_000)
}

/// What two jobs on the notebook of two cells leave, the first with a kernel with this trick: the
/// output is that of the second.
pub(crate) fn play_two(alloc: Global, trick: Trick) -> Result<Played, NoMemory> {
    let mut w = world_of(alloc, TWO, pair(alloc, trick)?, &[], &[])?;
    let played = play_two_in(alloc, &mut w);
    drop(w);
    played
}

fn play_two_in(alloc: Global, w: &mut MemWorld<Scripted>) -> Result<Played, NoMemory> {
    let answers = run_two(alloc, w, "in.ipynb a.ipynb", "in.ipynb b.ipynb")?;
    Played::of(alloc, w, answers, "b.ipynb")
}
