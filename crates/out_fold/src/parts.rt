//! Looking into a content.
ghost use Rattle.std.specs.Prelude.{◌≡◌};
ghost use Rattle.std.specs.Option.{option_copied, option_and_then};
ghost use Rattle.out_fold.specs.Live as live;
ghost use Rattle.out_fold.specs.Names as names;
ghost use Rattle.out_fold.specs.Shown as spec;
ghost use Rattle.out_fold.specs.Cells as cells;
ghost use Rattle.out_fold.specs.Plain as plain;
ghost use Rattle.out_fold.specs.Plain.{data_of};

use crate::kind::Kind;
use jcontent::{Content, Shown, State};
use jtext::{NumText, Text};

/// What the message shows, in an output of its own or in place of what was shown.
pub(crate) fn shown_in(c: &Content) -> Option<&Shown>
    ensures { option_copied result ≡ spec.shown_in c.now }
{
    match c {
        Content::Display(shown) => Some(shown),
        Content::Update(shown) => Some(shown),
        Content::Outcome { shown, count: _ } => Some(shown),
        _ => None,
    }
}

/// The display id under which the message shows something, where it has one.
pub(crate) fn name_of(c: &Content) -> Option<&Text>
    ensures { option_copied result ≡ names.name_of c.now }
{
    match shown_in(c) {
        Some(shown) => shown.id.as_ref(),
        None => None,
    }
}

/// Whether the message makes an output.
pub(crate) fn appends(c: &Content) -> bool
    ensures { result ≡ live.appends c.now }
{
    match c {
        Content::Stream { name: _, text: _ } => true,
        Content::Display(_) => true,
        Content::Outcome { shown: _, count: _ } => true,
        Content::Error {
            ename: _,
            evalue: _,
            traceback: _,
        } => true,
        _ => false,
    }
}

/// What the message shows under this display id, if it does.
pub(crate) fn shown_under<'a>(id: &Text, c: &'a Content) -> Option<&'a Shown>
    ensures { data_of (option_copied result) ≡ spec.shows id.now c.now }
{
    let shown = shown_in(c)?;
    match &shown.id {
        Some(other) if other.as_str() == id.as_str() => Some(shown),
        _ => None,
    }
}

/// The execution count that the message tells.
pub(crate) fn count_in(c: &Content) -> Option<&NumText>
    ensures { option_copied result ≡ cells.count_in c.now }
{
    match c {
        Content::Input(count) => count.as_ref(),
        Content::Outcome { shown: _, count } => count.as_ref(),
        _ => None,
    }
}

/// Whether the message is of that kind.
pub(crate) fn is_of(kind: Kind, c: &Content) -> bool
    ensures { result ≡ plain.is_of kind c.now }
{
    match kind {
        Kind::Input => matches!(c, Content::Input(_)),
        Kind::Busy => matches!(c, Content::Status(State::Busy)),
        Kind::Idle => matches!(c, Content::Status(State::Idle)),
    }
}

/// Whether the message clears its cell at once.
pub(crate) fn clears_now(c: &Content) -> bool
    ensures { result ≡ live.clears_now c.now }
{
    match c {
        Content::Clear { later } => !*later,
        _ => false,
    }
}

/// Whether the message clears its cell before its next output.
pub(crate) fn clears_later(c: &Content) -> bool
    ensures { result ≡ live.clears_later c.now }
{
    match c {
        Content::Clear { later } => *later,
        _ => false,
    }
}
