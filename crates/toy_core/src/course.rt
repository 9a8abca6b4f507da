//! The course of a request: what it brings about, in order.
ghost use Rattle.std.specs.Prelude.{◌≡◌, ◌∷◌, [], IfOk};
ghost use Rattle.toy_lang.specs.ToyOut.{Message, close};
ghost use Rattle.toy_core.specs.Notes as notes;

use crate::appending::append;
use crate::note::{Note, Notes, Saying};
use crate::outputs::{clear, display, error, input, outcome, status, stream};
use crate::reply::{error_reply, fine_reply, kernel_info_reply};
use jtext::{NoMemory, Text};
use std::alloc::Global;
use toy_lang::{Effect, Effects};
use world::Chan;

/// A cell with this code, count and effects, from busy to idle.
pub(crate) fn cell(
    alloc: Global,
    code: &Text,
    count: u64,
    effects: Effects,
) -> Result<Notes, NoMemory>
    ensures { IfOk result (λ ns. ns ≡ notes.cell_notes code.now count effects) }
{
    let last = closing(alloc, count, effects.as_slice())?;
    let mut course = Notes::new(alloc);
    course.push(publish(status(alloc, "busy")?))?;
    course.push(publish(input(alloc, code, count)?))?;
    for effect in effects.into_vec() {
        course.push(note_of(alloc, count, effect)?)?;
    }
    append(&mut course, last)?;
    Ok(course)
}

/// A request for information on the kernel.
pub(crate) fn info(alloc: Global) -> Result<Notes, NoMemory>
    ensures { IfOk result (λ ns. ns ≡ notes.info_notes) }
{
    let mut course = Notes::new(alloc);
    course.push(publish(status(alloc, "busy")?))?;
    course.push(reply(kernel_info_reply(alloc)?))?;
    course.push(publish(status(alloc, "idle")?))?;
    Ok(course)
}

/// What ends an interrupted cell.
pub(crate) fn interrupt_notes(alloc: Global, count: u64) -> Result<Notes, NoMemory>
    ensures { IfOk result (λ ns. ns ≡ notes.interrupted_notes count) }
{
    let ename = Text::of(alloc, "KeyboardInterrupt")?;
    let evalue = Text::new(alloc);
    let mut course = Notes::new(alloc);
    course.push(publish(error(alloc, &ename, &evalue)?))?;
    course.push(reply(error_reply(alloc, count, &ename, &evalue)?))?;
    course.push(publish(status(alloc, "idle")?))?;
    Ok(course)
}

/// One message on control.
pub(crate) fn control(alloc: Global, saying: Saying) -> Result<Notes, NoMemory>
    ensures { IfOk result (λ ns. ns ≡ notes.control_notes saying) }
{
    let chan = Chan::Control;
    Ok(Notes::of_vec(vec![in alloc; Note::Say { chan, saying }]?))
}

/// What an effect does in the cell with this count.
fn note_of(alloc: Global, count: u64, effect: Effect) -> Result<Note, NoMemory>
    ensures { IfOk result (λ n. n ≡ notes.note_of count effect) }
{
    let saying = match effect {
        Effect::Sleep { ms } => return Ok(Note::Rest { ms }),
        Effect::Die => return Ok(Note::Stop { status: 1 }),
        Effect::Print { err, text } => stream(alloc, err, text)?,
        Effect::Show { id, text, update } => display(alloc, id, text, update)?,
        Effect::Clear { later } => clear(alloc, later)?,
        Effect::Outcome { text } => outcome(alloc, count, text)?,
        Effect::Raise { ename, evalue } => error(alloc, &ename, &evalue)?,
    };
    Ok(publish(saying))
}

/// The reply of the cell and what follows it; neither where the kernel ends in the cell.
fn closing(alloc: Global, count: u64, effects: &[Effect]) -> Result<Notes, NoMemory>
    ensures { IfOk result (λ ns. ns ≡ notes.reply_notes (close count effects.now)) }
{
    for effect in effects {
        match effect {
            Effect::Raise { ename, evalue } => {
                return reply_and_idle(alloc, error_reply(alloc, count, ename, evalue)?);
            }
            Effect::Die => return Ok(Notes::new(alloc)),
            _ => {}
        }
    }
    reply_and_idle(alloc, fine_reply(alloc, count)?)
}

/// This reply, and idle.
fn reply_and_idle(alloc: Global, saying: Saying) -> Result<Notes, NoMemory>
    ensures { IfOk result (λ ns. ns ≡ notes.reply saying ∷ notes.idle ∷ []) }
{
    let reply = reply(saying);
    let idle = publish(status(alloc, "idle")?);
    Ok(Notes::of_vec(vec![in alloc; reply, idle]?))
}

/// A message on IOPub.
fn publish(saying: Saying) -> Note
    ensures { result ≡ notes.publish saying }
{
    let chan = Chan::Iopub;
    Note::Say { chan, saying }
}

/// A message on shell.
fn reply(saying: Saying) -> Note
    ensures { result ≡ notes.reply saying }
{
    let chan = Chan::Shell;
    Note::Say { chan, saying }
}
