//! From a message's type and content to what it says.
ghost use Rattle.std.specs.Prelude.{◌≡◌, IfOk};
ghost use Rattle.jcontent.specs.Contents as contents;

use crate::reply::execute_reply;
use crate::texts::{count, texts_at};
use crate::{Content, Shown, State};
use jtext::{Json, NoMemory, Text, is_true_at, text_at};
use std::alloc::Global;

/// What a message of that type says by its content. Keys that the type doesn't need are passed
/// over; a content that lacks what its type needs, and one of a type that no executor uses, is
/// `Other`.
pub fn read(alloc: Global, msg_type: &Text, content: &Json) -> Result<Content, NoMemory>
    ensures { IfOk result (λ r. r ≡ contents.content_of msg_type.now content.now) }
{
    let kind = msg_type.as_str();
    if kind == "status" {
        status(alloc, content)
    } else if kind == "execute_input" {
        Ok(Content::Input(count(alloc, content)?))
    } else if kind == "clear_output" {
        let later = is_true_at(content, "wait");
        Ok(Content::Clear { later })
    } else if kind == "execute_reply" {
        execute_reply(alloc, content)
    } else if kind == "kernel_info_reply" {
        Ok(Content::InfoReply)
    } else {
        output(alloc, kind, content)
    }
}

/// The content of a message that makes or changes an output.
fn output(alloc: Global, kind: &str, t: &Json) -> Result<Content, NoMemory>
    ensures { IfOk result (λ r. r ≡ contents.output kind.now t.now) }
{
    if kind == "stream" {
        stream(alloc, t)
    } else if kind == "display_data" {
        display(alloc, t)
    } else if kind == "update_display_data" {
        update(alloc, t)
    } else if kind == "execute_result" {
        outcome(alloc, t)
    } else if kind == "error" {
        error(alloc, t)
    } else {
        Ok(Content::Other)
    }
}

fn status(alloc: Global, t: &Json) -> Result<Content, NoMemory>
    ensures { IfOk result (λ r. r ≡ contents.status t.now) }
{
    let Some(state) = text_at(alloc, t, "execution_state")? else {
        return Ok(Content::Other);
    };
    Ok(Content::Status(State::of_name(state.as_str())))
}

fn stream(alloc: Global, t: &Json) -> Result<Content, NoMemory>
    ensures { IfOk result (λ r. r ≡ contents.stream t.now) }
{
    let Some(name) = text_at(alloc, t, "name")? else {
        return Ok(Content::Other);
    };
    let Some(text) = text_at(alloc, t, "text")? else {
        return Ok(Content::Other);
    };
    Ok(Content::Stream { name, text })
}

fn display(alloc: Global, t: &Json) -> Result<Content, NoMemory>
    ensures { IfOk result (λ r. r ≡ contents.display t.now) }
{
    match Shown::of(alloc, t)? {
        Some(shown) => Ok(Content::Display(shown)),
        None => Ok(Content::Other),
    }
}

fn update(alloc: Global, t: &Json) -> Result<Content, NoMemory>
    ensures { IfOk result (λ r. r ≡ contents.update t.now) }
{
    match Shown::of(alloc, t)? {
        Some(shown) => {
            if shown.id.is_some() {
                Ok(Content::Update(shown))
            } else {
                Ok(Content::Other)
            }
        }
        None => Ok(Content::Other),
    }
}

fn outcome(alloc: Global, t: &Json) -> Result<Content, NoMemory>
    ensures { IfOk result (λ r. r ≡ contents.outcome t.now) }
{
    let Some(shown) = Shown::of(alloc, t)? else {
        return Ok(Content::Other);
    };
    let count = count(alloc, t)?;
    Ok(Content::Outcome { shown, count })
}

fn error(alloc: Global, t: &Json) -> Result<Content, NoMemory>
    ensures { IfOk result (λ r. r ≡ contents.error t.now) }
{
    let Some(ename) = text_at(alloc, t, "ename")? else {
        return Ok(Content::Other);
    };
    let Some(evalue) = text_at(alloc, t, "evalue")? else {
        return Ok(Content::Other);
    };
    let Some(traceback) = texts_at(alloc, t, "traceback")? else {
        return Ok(Content::Other);
    };
    Ok(Content::Error {
        ename,
        evalue,
        traceback,
    })
}
