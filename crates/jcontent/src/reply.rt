//! The reply to a request to execute.
ghost use Rattle.std.specs.Prelude.{◌≡◌, IfOk};
ghost use Rattle.jcontent.specs.Contents as contents;

use crate::Content;
use jtext::{Json, NoMemory, Text, field, text_at};
use std::alloc::Global;

/// How a request to execute ended.
#[derive(Debug, Drop)]
pub enum ReplyIs {
    /// The code raised.
    Error {
        /// The name of the exception; empty where the kernel doesn't tell it.
        ename: Text,
    },
    /// It didn't, as far as the status says; `aborted` is among these.
    Fine,
}

/// The content of an `execute_reply`.
pub(crate) fn execute_reply(alloc: Global, t: &Json) -> Result<Content, NoMemory>
    ensures { IfOk result (λ r. r ≡ contents.execute_reply t.now) }
{
    let Some(status) = text_at(alloc, t, "status")? else {
        return Ok(Content::Other);
    };
    if status.as_str() == "error" {
        error_reply(alloc, t)
    } else {
        Ok(Content::ExecReply(ReplyIs::Fine))
    }
}

fn error_reply(alloc: Global, t: &Json) -> Result<Content, NoMemory>
    ensures { IfOk result (λ r. r ≡ contents.error_reply t.now) }
{
    match field(t, "ename") {
        Some(Json::Str(ename)) => Ok(Content::ExecReply(ReplyIs::Error {
            ename: Text::of(alloc, ename.as_str())?,
        })),
        Some(_) => Ok(Content::Other),
        None => Ok(Content::ExecReply(ReplyIs::Error {
            ename: Text::new(alloc),
        })),
    }
}
