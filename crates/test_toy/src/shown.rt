//! What texts do, as lines of text.
use jtext::{NoMemory, Text};
use std::alloc::Global;
use toy_lang::{Effect, State, run};

/// The rows of a table, `TEXT => EFFECTS`, whose texts have other effects, with these. A tilde
/// stands for a line end. In a session the variables stand from one row to the next.
pub(crate) fn odd_rows(alloc: Global, rows: &str, is_session: bool) -> Result<String, NoMemory> {
    let mut out = String::new(alloc);
    let mut state = State::new(alloc);
    for row in rows.split('\n') {
        let (text, effects) = row.split_once(" => ").unwrap_or((row, ""));
        if !is_session {
            state = State::new(alloc);
        }
        let found = effects_of(alloc, &mut state, text)?;
        if found.as_str() != effects {
            put_row(&mut out, text, found.as_str())?;
        }
    }
    Ok(out)
}

/// Adds a row of a table.
pub(crate) fn put_row(out: &mut String, text: &str, effects: &str) -> Result<(), NoMemory> {
    out.push_str(text)?;
    out.push_str(" => ")?;
    out.push_str(effects)?;
    out.push_str("\n")?;
    Ok(())
}

/// The effects of a text where these variables stand: each in brackets, its words parted by bars.
pub(crate) fn effects_of(alloc: Global, s: &mut State, text: &str) -> Result<String, NoMemory> {
    let text = text.replace(alloc, "~", "\n")?;
    let effects = run(s, &Text::of_string(text))?;
    let mut out = String::new(alloc);
    for effect in effects.as_slice() {
        put_effect(alloc, effect, &mut out)?;
    }
    Ok(out.as_str().replace(alloc, "\n", "~")?)
}

fn put_effect(alloc: Global, effect: &Effect, out: &mut String) -> Result<(), NoMemory> {
    match effect {
        Effect::Print { err, text } => put(if *err { "stderr" } else { "stdout" }, "", text, out),
        Effect::Show { id, text, update } => {
            let kind = if *update { "update " } else { "show " };
            put(kind, id.as_str(), text, out)
        }
        Effect::Clear { later } => put_word(if *later { "clear later" } else { "clear" }, out),
        Effect::Outcome { text } => put("result", "", text, out),
        Effect::Raise { ename, evalue } => put("error ", ename.as_str(), evalue, out),
        Effect::Sleep { ms } => put_word(format!(in alloc; "sleep {ms}")?.as_str(), out),
        Effect::Die => put_word("die", out),
    }
}

fn put(kind: &str, name: &str, text: &Text, out: &mut String) -> Result<(), NoMemory> {
    out.push_str("[")?;
    out.push_str(kind)?;
    out.push_str(name)?;
    out.push_str("|")?;
    out.push_str(text.as_str())?;
    out.push_str("]")?;
    Ok(())
}

fn put_word(word: &str, out: &mut String) -> Result<(), NoMemory> {
    out.push_str("[")?;
    out.push_str(word)?;
    out.push_str("]")?;
    Ok(())
}
