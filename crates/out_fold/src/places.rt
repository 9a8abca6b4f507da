//! What a message tells the index of display ids.
ghost use Rattle.std.specs.Prelude.{◌≡◌, List as Plain, Some, OnOk, OnErr};
ghost use Rattle.std.specs.Option.{option_copied};
ghost use Rattle.display_index.specs.Standing.{Call};
ghost use Rattle.display_index.specs.Held as ids;
ghost use Rattle.out_fold.specs.Names as names;
ghost use Rattle.out_fold.specs.Placing as spec;

use crate::parts::{appends, clears_now};
use display_index::{Index, Place, last_is_in};
use jcontent::Content;
use jtext::{NoMemory, Text};

/// Adds the place of the message's output in the cell, where it has a display id that has none
/// there yet.
pub(crate) fn place(
    index: &mut Index,
    cell: u32,
    at: u32,
    c: &Content,
    name: Option<&Text>,
) -> Result<(), NoMemory>
    requires { option_copied name ≡ names.name_of c.now }
    ensures ok { OnOk result ((calls : Plain Call) → ids.StandsFor index.old calls
        → spec.Placed calls index.new c.now cell) }
    ensures err { OnErr result ((calls : Plain Call) → ids.StandsFor index.old calls
        → spec.Grown calls index.new cell) }
{
    match name {
        Some(id) => place_named(index, cell, at, c, id),
        None => Ok(()),
    }
}

fn place_named(
    index: &mut Index,
    cell: u32,
    at: u32,
    c: &Content,
    id: &Text,
) -> Result<(), NoMemory>
    requires { names.name_of c.now ≡ Some id.now }
    ensures ok { OnOk result ((calls : Plain Call) → ids.StandsFor index.old calls
        → spec.Placed calls index.new c.now cell) }
    ensures err { OnErr result ((calls : Plain Call) → ids.StandsFor index.old calls
        → spec.Grown calls index.new cell) }
{
    if appends(c) {
        place_output(index, cell, at, c, id)
    } else {
        Ok(())
    }
}

fn place_output(
    index: &mut Index,
    cell: u32,
    at: u32,
    c: &Content,
    id: &Text,
) -> Result<(), NoMemory>
    requires { names.name_of c.now ≡ Some id.now }
    ensures ok { OnOk result ((calls : Plain Call) → ids.StandsFor index.old calls
        → spec.Placed calls index.new c.now cell) }
    ensures err { OnErr result ((calls : Plain Call) → ids.StandsFor index.old calls
        → spec.Grown calls index.new cell) }
{
    if last_is_in(index.places(id), cell) {
        Ok(())
    } else {
        index.add(id, Place { cell, at })
    }
}

/// Takes out the places in the cell, where the message clears it at once.
pub(crate) fn settle(index: &mut Index, cell: u32, c: &Content)
    ensures { (calls : Plain Call) → ids.StandsFor index.old calls
        → ids.StandsFor index.new (spec.settle c.now cell calls) }
{
    if clears_now(c) {
        index.clear(cell);
    }
}
