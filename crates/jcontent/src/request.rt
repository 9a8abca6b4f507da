//! Contents of the messages that an executor sends.
ghost use Rattle.std.specs.Prelude.{◌≡◌, ◌++◌, ◌∷◌, [], IfOk, OnOk};
ghost use Rattle.jtext.specs.declared.json.Json.TheVariants as json;
ghost use Rattle.jcontent.specs.Requests as requests;

use jtext::{Fields, Json, NoMemory, Text, pair};
use std::alloc::Global;

/// The content of an `execute_request` for this code: it is kept in the history, asks for no input
/// and evaluates no further expressions. `stop_on_error` says whether the kernel aborts what is
/// queued behind it where the code raises.
pub fn execute_content(alloc: Global, code: &Text, stop_on_error: bool) -> Result<Json, NoMemory>
    ensures { IfOk result (λ t. t ≡ requests.execute code.now stop_on_error) }
{
    let text = Text::of(alloc, code.as_str())?;
    let mut fields = Fields::new(alloc);
    fields.push(pair(alloc, "code", Json::Str(text))?)?;
    put_flag(alloc, &mut fields, "silent", false)?;
    put_flag(alloc, &mut fields, "store_history", true)?;
    fields.push(pair(alloc, "user_expressions", empty_content(alloc))?)?;
    put_flag(alloc, &mut fields, "allow_stdin", false)?;
    put_flag(alloc, &mut fields, "stop_on_error", stop_on_error)?;
    Ok(Json::Obj(fields))
}

/// Appends a truth value under this key.
fn put_flag(alloc: Global, fields: &mut Fields, key: &str, flag: bool) -> Result<(), NoMemory>
    ensures { OnOk result (fields.new ≡ fields.old ++ (key.now, json.Bool flag) ∷ []) }
{
    fields.push(pair(alloc, key, Json::Bool(flag))?)
}

/// The empty object: the content of a `kernel_info_request` and of an `interrupt_request`.
pub fn empty_content(alloc: Global) -> Json
    ensures { result ≡ requests.empty }
{
    Json::Obj(Fields::new(alloc))
}

/// The content of a `shutdown_request` after which the kernel isn't started again.
pub fn shutdown_content(alloc: Global) -> Result<Json, NoMemory>
    ensures { IfOk result (λ t. t ≡ requests.shutdown) }
{
    let restart = pair(alloc, "restart", Json::Bool(false))?;
    let pairs = vec![in alloc; restart]?;
    Ok(Json::Obj(Fields::of_vec(pairs)))
}
