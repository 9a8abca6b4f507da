//! Copies of what is held.
ghost use Rattle.std.specs.Prelude.{◌≡◌, [], None, Some, IfOk};
ghost use Rattle.std.specs.Option.{option_copied};
ghost use Rattle.jtext.specs.declared.json.Json.TheVariants as json;
ghost use Rattle.out_fold.specs.Shown.{data_in};
ghost use Rattle.out_fold.specs.Held.{without_data};

use crate::latest::Data;
use jcontent::{Content, ReplyIs, Shown};
use jtext::{Fields, Json, NoMemory, NumText, Text, Texts, copy};
use std::alloc::Global;

pub(crate) fn content(alloc: Global, c: &Content) -> Result<Content, NoMemory>
    ensures { IfOk result (λ r. r ≡ c.now) }
{
    match c {
        Content::Status(state) => Ok(Content::Status(*state)),
        Content::Input(told) => Ok(Content::Input(count(alloc, told)?)),
        Content::Stream { name, text } => Ok(Content::Stream {
            name: Text::of(alloc, name.as_str())?,
            text: Text::of(alloc, text.as_str())?,
        }),
        Content::Display(shown) => Ok(Content::Display(full_copy(alloc, shown)?)),
        Content::Update(shown) => Ok(Content::Update(full_copy(alloc, shown)?)),
        Content::Outcome { shown, count: told } => Ok(Content::Outcome {
            shown: full_copy(alloc, shown)?,
            count: count(alloc, told)?,
        }),
        Content::Error {
            ename,
            evalue,
            traceback,
        } => Ok(Content::Error {
            ename: Text::of(alloc, ename.as_str())?,
            evalue: Text::of(alloc, evalue.as_str())?,
            traceback: texts(alloc, traceback)?,
        }),
        Content::Clear { later } => Ok(Content::Clear { later: *later }),
        Content::ExecReply(reply) => Ok(Content::ExecReply(reply_is(alloc, reply)?)),
        Content::InfoReply => Ok(Content::InfoReply),
        Content::Other => Ok(Content::Other),
    }
}

fn reply_is(alloc: Global, reply: &ReplyIs) -> Result<ReplyIs, NoMemory>
    ensures { IfOk result (λ r. r ≡ reply.now) }
{
    match reply {
        ReplyIs::Error { ename } => Ok(ReplyIs::Error {
            ename: Text::of(alloc, ename.as_str())?,
        }),
        ReplyIs::Fine => Ok(ReplyIs::Fine),
    }
}

fn full_copy(alloc: Global, shown: &Shown) -> Result<Shown, NoMemory>
    ensures { IfOk result (λ r. r ≡ shown.now) }
{
    let bundle = bundle(alloc, &shown.bundle)?;
    let metadata = copy(alloc, &shown.metadata)?;
    let id = date(alloc, shown.id.as_ref())?;
    Ok(Shown {
        bundle,
        metadata,
        id,
    })
}

pub(crate) fn data(alloc: Global, shown: &Shown) -> Result<Data, NoMemory>
    ensures { IfOk result (λ r. r ≡ data_in shown.now) }
{
    let bundle = bundle(alloc, &shown.bundle)?;
    let metadata = copy(alloc, &shown.metadata)?;
    Ok(Data { bundle, metadata })
}

pub(crate) fn bundle(alloc: Global, pairs: &Fields) -> Result<Fields, NoMemory>
    ensures { IfOk result (λ r. r ≡ pairs.now) }
{
    let mut copied = Fields::new(alloc);
    for (key, value) in pairs.as_slice() {
        copied.push((Text::of(alloc, key.as_str())?, copy(alloc, value)?))?;
    }
    Ok(copied)
}

/// What an output holds of what it shows: its data stand under its display id where it has one.
pub(crate) fn shown_held(alloc: Global, shown: &Shown) -> Result<Shown, NoMemory>
    ensures { IfOk result (λ r. r ≡ without_data shown.now.id shown.now) }
{
    match &shown.id {
        Some(id) => with_id(alloc, id),
        None => without_id(alloc, shown),
    }
}

fn with_id(alloc: Global, id: &Text) -> Result<Shown, NoMemory>
    ensures { IfOk result (λ r.
        r ≡ record { bundle = []; metadata = json.Null; id = Some id.now }) }
{
    let id = Text::of(alloc, id.as_str())?;
    Ok(Shown {
        bundle: Fields::new(alloc),
        metadata: Json::Null,
        id: Some(id),
    })
}

fn without_id(alloc: Global, shown: &Shown) -> Result<Shown, NoMemory>
    ensures { IfOk result (λ r. r ≡ record {
      bundle = shown.now.bundle;
      metadata =
          shown.now.metadata;
      id = None;
    }) }
{
    let bundle = bundle(alloc, &shown.bundle)?;
    let metadata = copy(alloc, &shown.metadata)?;
    Ok(Shown {
        bundle,
        metadata,
        id: None,
    })
}

pub(crate) fn count(alloc: Global, count: &Option<NumText>) -> Result<Option<NumText>, NoMemory>
    ensures { IfOk result (λ r. r ≡ count.now) }
{
    match count {
        Some(text) => Ok(Some(NumText::of_number(alloc, text.as_str())?)),
        None => Ok(None),
    }
}

pub(crate) fn date(alloc: Global, date: Option<&Text>) -> Result<Option<Text>, NoMemory>
    ensures { IfOk result (λ r. r ≡ option_copied date.entry) }
{
    match date {
        Some(text) => Ok(Some(Text::of(alloc, text.as_str())?)),
        None => Ok(None),
    }
}

pub(crate) fn texts(alloc: Global, lines: &Texts) -> Result<Texts, NoMemory>
    ensures { IfOk result (λ r. r ≡ lines.now) }
{
    let mut copied = Texts::new(alloc);
    for line in lines.as_slice() {
        copied.push(Text::of(alloc, line.as_str())?)?;
    }
    Ok(copied)
}
