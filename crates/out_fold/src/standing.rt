//! The outputs that stand in a cell, by its messages and those of the later cells.
ghost use Rattle.std.specs.Prelude.{◌≡◌, ◌++◌, None, IfOk, map};
ghost use Rattle.std.specs.List.{list_any};
ghost use Rattle.std.specs.Option.{option_copied, option_map};
ghost use Rattle.out_fold.specs.Live as live;
ghost use Rattle.out_fold.specs.Shown as spec;
ghost use Rattle.out_fold.specs.Cells.{all_contents};
ghost use Rattle.out_fold.specs.Plain.{contents_of, data_of};

use crate::copies;
use crate::message::Message;
use crate::parts::{appends, clears_later, clears_now, shown_under};
use crate::used::Used;
use jcontent::{Content, Shown};
use jtext::{List, NoMemory, Text, copy};
use std::alloc::Global;

/// The outputs of a request, as they are shown after its own messages and those of the later
/// requests.
pub(crate) fn outputs(
    alloc: Global,
    own: &[Message],
    later: &[Used],
) -> Result<List<Content>, NoMemory>
    ensures { IfOk result (λ r. r ≡ spec.outputs (contents_of own.now) (all_contents later.now)) }
{
    let mut outputs = List::new(alloc);
    for (i, message) in own.iter().enumerate() {
        let after = &own[i + 1..];
        if appends(&message.content) && stays(after) {
            outputs.push(shown_output(alloc, &message.content, after, later)?)?;
        }
    }
    Ok(outputs)
}

/// Whether an output stays under the messages after it.
fn stays(after: &[Message]) -> bool
    ensures { result ≡ live.stays (contents_of after.now) }
{
    for (i, message) in after.iter().enumerate() {
        if clears_now(&message.content) {
            return false;
        }
        if clears_later(&message.content) && one_appends(&after[i + 1..]) {
            return false;
        }
    }
    true
}

fn one_appends(messages: &[Message]) -> bool
    ensures { result ≡ list_any live.appends (contents_of messages.now) }
{
    for message in messages {
        if appends(&message.content) {
            return true;
        }
    }
    false
}

/// An output as it is shown after these messages.
fn shown_output(
    alloc: Global,
    c: &Content,
    after: &[Message],
    later: &[Used],
) -> Result<Content, NoMemory>
    ensures { IfOk result (λ r. r ≡ spec.shown_output c.now
        (contents_of after.now ++ all_contents later.now)) }
{
    match c {
        Content::Display(shown) => Ok(Content::Display(with_last(alloc, shown, after, later)?)),
        Content::Outcome { shown, count } => Ok(Content::Outcome {
            shown: with_last(alloc, shown, after, later)?,
            count: copies::count(alloc, count)?,
        }),
        _ => copies::content(alloc, c),
    }
}

/// What is shown, with the data that these messages showed last under its display id.
fn with_last<'a>(
    alloc: Global,
    shown: &'a Shown,
    after: &'a [Message],
    later: &'a [Used],
) -> Result<Shown, NoMemory>
    ensures { IfOk result (λ r. r ≡ spec.known_to
        (λ id. spec.latest id None (contents_of after.now ++ all_contents later.now)) shown.now) }
{
    let id = copies::date(alloc, shown.id.as_ref())?;
    let from = match &shown.id {
        Some(id) => last_of_all(id, after, later).unwrap_or(shown),
        None => shown,
    };
    let bundle = copies::bundle(alloc, &from.bundle)?;
    let metadata = copy(alloc, &from.metadata)?;
    Ok(Shown {
        bundle,
        metadata,
        id,
    })
}

/// What these messages showed last under the display id.
fn last_of_all<'a>(id: &Text, after: &'a [Message], later: &'a [Used]) -> Option<&'a Shown>
    ensures { data_of (option_copied result)
        ≡ spec.latest id.now None (contents_of after.now ++ all_contents later.now) }
{
    let mut last = last_shown(id, None, after);
    for request in later {
        last = last_shown(id, last, request.own.as_slice());
    }
    last
}

/// What the last of these messages that shows something under the display id shows; where none
/// does, what was shown before.
fn last_shown<'a>(
    id: &Text,
    before: Option<&'a Shown>,
    messages: &'a [Message],
) -> Option<&'a Shown>
    ensures { data_of (option_copied result)
        ≡ spec.latest id.now (data_of (option_copied before.entry)) (contents_of messages.now) }
{
    let mut last = before;
    for message in messages {
        if let Some(shown) = shown_under(id, &message.content) {
            last = Some(shown);
        }
    }
    last
}
