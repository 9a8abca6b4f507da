//! What is asked, as a line of text.
use jtext::{Fields, Json, Texts};
use std::test::Fail;
use words::Ask;

/// The paths, the kernel, its folders, the six switches, the two times, the names of errors and the parameters.
pub(crate) fn shown(rt: &HostRuntime, ask: &Ask) -> Result<String, Fail> {
    let mut text = paths(rt, ask)?;
    text.push_str(switches(rt, ask)?.as_str())?;
    let start = ask.start_ms;
    let limit = ask.limit_ms.unwrap_or(0);
    text.push_str(format!(in rt.alloc(); " {start} {limit}")?.as_str())?;
    add_names(&mut text, &ask.names)?;
    add_parameters(&mut text, &ask.params)?;
    Ok(text)
}

fn paths(rt: &HostRuntime, ask: &Ask) -> Result<String, Fail> {
    let input = ask.input.as_str();
    let output = ask.output.as_str();
    let kernel = match ask.kernel.as_ref() {
        Some(name) => name.as_str(),
        None => "-",
    };
    let folder = ask.kernel_path.as_str();
    let cwd = ask.cwd.as_str();
    Ok(format!(in rt.alloc(); "{input} {output} {kernel} {folder} {cwd}")?)
}

/// The switches in the order of the fields, as 1 and 0.
fn switches(rt: &HostRuntime, ask: &Ask) -> Result<String, Fail> {
    let mut text = String::from_str(rt.alloc(), " ")?;
    for on in [
        ask.prepare,
        ask.report,
        ask.merge,
        ask.all_errors,
        ask.interrupt,
        ask.heartbeat,
    ] {
        text.push_str(if on { "1" } else { "0" })?;
    }
    Ok(text)
}

fn add_names(text: &mut String, names: &Texts) -> Result<(), Fail> {
    for name in names.as_slice() {
        text.push_str(" ")?;
        text.push_str(name.as_str())?;
    }
    Ok(())
}

/// Each name with its value; strings stand in quotes.
fn add_parameters(text: &mut String, params: &Fields) -> Result<(), Fail> {
    for pair in params.as_slice() {
        text.push_str(" ")?;
        text.push_str(pair.0.as_str())?;
        text.push_str("=")?;
        add_value(text, &pair.1)?;
    }
    Ok(())
}

fn add_value(text: &mut String, value: &Json) -> Result<(), Fail> {
    match value {
        Json::Null => text.push_str("null")?,
        Json::Bool(true) => text.push_str("true")?,
        Json::Bool(false) => text.push_str("false")?,
        Json::Num(n) => text.push_str(n.as_str())?,
        Json::Str(s) => {
            text.push_str("'")?;
            text.push_str(s.as_str())?;
            text.push_str("'")?;
        }
        Json::Arr(_) => text.push_str("[]")?,
        Json::Obj(_) => text.push_str("{}")?,
    }
    Ok(())
}
