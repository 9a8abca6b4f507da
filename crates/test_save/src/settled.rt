//! What a notebook becomes when its cells are settled.
ghost use Rattle.std.specs.Prelude.{◌≡◌, ◌+◌, ◌<◌, ◌≤◌, length};
ghost use Rattle.out_fold.specs.Stands.{cells_of, next_of};

use crate::notebooks::{STOPPED, prepared, stopped};
use jcontent::{Content, Shown, State};
use jtext::{Fields, Json, NoMemory, NumText, Text};
use nb_model::Notebook;
use nb_text::text;
use out_fold::Fold;
use progress_save::{Step, settle};
use samples::notebooks::TWO_SAVED;
use std::alloc::Global;
use std::test::Fail;

/// Gives the fold the messages of a cell: busy, its input, this one, idle, and the reply.
fn execute(alloc: Global, fold: &mut Fold, count: &str, content: &Content) -> Result<(), NoMemory>
    requires { 0 < next_of fold.old }
    ensures cells { cells_of fold.new ≡ cells_of fold.old }
    ensures next { next_of fold.new ≡ next_of fold.old }
{
    let date = Text::of(alloc, "2000-01-01T00:00:00.000Z")?;
    let count = NumText::of(alloc, count).ok();
    fold.take(&Content::Status(State::Busy), Some(&date))?;
    fold.take(&Content::Input(count), Some(&date))?;
    fold.take(content, Some(&date))?;
    fold.take(&Content::Status(State::Idle), Some(&date))?;
    fold.reply(Some(&date))
}

fn printed(alloc: Global) -> Result<Content, NoMemory> {
    Ok(Content::Stream {
        name: Text::of(alloc, "stdout")?,
        text: Text::of(alloc, "1\n")?,
    })
}

fn given(alloc: Global) -> Result<Content, NoMemory> {
    let value = Json::Str(Text::of(alloc, "2")?);
    let pair = (Text::of(alloc, "text/plain")?, value);
    Ok(Content::Outcome {
        shown: Shown {
            bundle: Fields::of_vec(vec![in alloc; pair]?),
            metadata: Json::Obj(Fields::new(alloc)),
            id: None,
        },
        count: NumText::of(alloc, "2").ok(),
    })
}

/// Executes the cell, which gets this count and whose request this message answers, and settles it
/// behind those before it.
fn step(
    alloc: Global,
    n: &mut Notebook,
    fold: &mut Fold,
    cell: u32,
    count: &str,
    content: &Content,
) -> Result<(), NoMemory>
    requires small { cell < 2 }
    requires cells { cell < length n.old.cells }
    requires fold { cell < cells_of fold.old }
    requires next { next_of fold.old ≤ cell }
    ensures count { length n.new.cells ≡ length n.old.cells }
    ensures cells { cells_of fold.new ≡ cells_of fold.old }
    ensures next { next_of fold.new ≡ cell + 1 }
{
    fold.start(cell);
    execute(alloc, fold, count, content)?;
    let one = Step {
        from: cell,
        to: cell + 1,
        stop: None,
    };
    settle(alloc, n, fold, one)
}

#[test]
fn two_cells_are_settled_one_after_the_other(rt: HostRuntime) -> Result<(), Fail> {
    let alloc = rt.alloc();
    let mut notebook = prepared(&rt)?;
    let mut fold = Fold::new(alloc, 2, false)?;
    assert_eq!(rt; notebook.cells.len(), 2);
    let first = printed(alloc)?;
    step(alloc, &mut notebook, &mut fold, 0, "1", &first)?;
    let second = given(alloc)?;
    step(alloc, &mut notebook, &mut fold, 1, "2", &second)?;
    assert!(rt; has_text(alloc, &notebook, TWO_SAVED)?);
    Ok(())
}

#[test]
fn a_run_that_stopped_is_marked_so(rt: HostRuntime) -> Result<(), Fail> {
    let notebook = stopped(&rt)?;
    assert!(rt; has_text(rt.alloc(), &notebook, STOPPED)?);
    Ok(())
}

fn has_text(alloc: Global, n: &Notebook, wanted: &str) -> Result<bool, NoMemory> {
    Ok(text(alloc, n)?.bytes() == wanted.as_bytes())
}
