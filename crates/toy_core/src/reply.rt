//! Replies (Jupyter messaging 5.3, "Execution results", "Kernel info", "Kernel interrupt", "Kernel
//! shutdown").
ghost use Rattle.std.specs.Prelude.{◌≡◌, IfOk};
ghost use Rattle.toy_lang.specs.ToyOut as out;
ghost use Rattle.toy_core.specs.Contents as contents;

use crate::note::Saying;
use crate::outputs::{count_pair, put_error};
use jtext::{Fields, Json, NoMemory, Text, object, pair, put_text, text_pair};
use std::alloc::Global;

/// `execute_reply` of a cell without an error.
pub(crate) fn fine_reply(alloc: Global, count: u64) -> Result<Saying, NoMemory>
    ensures { IfOk result (λ m. m ≡ out.fine_reply count) }
{
    let status = text_pair(alloc, "status", "ok")?;
    let count = count_pair(alloc, count)?;
    pair(alloc, "execute_reply", object(alloc, [status, count])?)
}

/// `execute_reply` of a cell with this error.
pub(crate) fn error_reply(
    alloc: Global,
    count: u64,
    ename: &Text,
    evalue: &Text,
) -> Result<Saying, NoMemory>
    ensures { IfOk result (λ m. m ≡ out.error_reply count ename.now evalue.now) }
{
    let mut fields = Fields::new(alloc);
    put_text(alloc, &mut fields, "status", "error")?;
    fields.push(count_pair(alloc, count)?)?;
    put_error(alloc, &mut fields, ename, evalue)?;
    pair(alloc, "execute_reply", Json::Obj(fields))
}

/// `kernel_info_reply`.
pub(crate) fn kernel_info_reply(alloc: Global) -> Result<Saying, NoMemory>
    ensures { IfOk result (λ m. m ≡ contents.kernel_info_reply) }
{
    let mut fields = Fields::new(alloc);
    put_text(alloc, &mut fields, "status", "ok")?;
    put_text(alloc, &mut fields, "protocol_version", "5.3")?;
    put_text(alloc, &mut fields, "implementation", "toy")?;
    put_text(alloc, &mut fields, "implementation_version", "1")?;
    fields.push(pair(alloc, "language_info", language_info(alloc)?)?)?;
    put_text(alloc, &mut fields, "banner", "toy")?;
    pair(alloc, "kernel_info_reply", Json::Obj(fields))
}

fn language_info(alloc: Global) -> Result<Json, NoMemory>
    ensures { IfOk result (λ t. t ≡ contents.language_info) }
{
    let mut fields = Fields::new(alloc);
    put_text(alloc, &mut fields, "name", "toy")?;
    put_text(alloc, &mut fields, "version", "1")?;
    put_text(alloc, &mut fields, "mimetype", "text/plain")?;
    put_text(alloc, &mut fields, "file_extension", ".toy")?;
    Ok(Json::Obj(fields))
}

/// `interrupt_reply`.
pub(crate) fn interrupt_reply(alloc: Global) -> Result<Saying, NoMemory>
    ensures { IfOk result (λ m. m ≡ contents.interrupt_reply) }
{
    let status = text_pair(alloc, "status", "ok")?;
    pair(alloc, "interrupt_reply", object(alloc, [status])?)
}

/// `shutdown_reply`; `restart` is what the request said.
pub(crate) fn shutdown_reply(alloc: Global, restart: bool) -> Result<Saying, NoMemory>
    ensures { IfOk result (λ m. m ≡ contents.shutdown_reply restart) }
{
    let status = text_pair(alloc, "status", "ok")?;
    let restart = pair(alloc, "restart", Json::Bool(restart))?;
    pair(alloc, "shutdown_reply", object(alloc, [status, restart])?)
}
