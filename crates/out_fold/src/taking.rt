//! What a message that was used changes.
ghost use Rattle.std.specs.Prelude.{◌≡◌, ◌<◌, ℕ, ◌∷◌, [], ◌++◌, List as Plain, true, IfOk, OnOk, OnErr};
ghost use Rattle.std.specs.Option.{option_copied};
ghost use Rattle.display_index.specs.Standing.{Call};
ghost use Rattle.display_index.specs.Held as ids;
ghost use Rattle.out_fold.specs.Cells.{Used, with_message};
ghost use Rattle.out_fold.specs.Held.{Holds, IsSameShape, next_of};
ghost use Rattle.out_fold.specs.Placing.{named_places, Grown, Settled};
ghost use Rattle.out_fold.specs.Plans.{increases, cells_before, Covers};

use crate::before::Before;
use crate::folds::Folds;
use crate::parts::name_of;
use crate::places::{place, settle};
use crate::plans::touch;
use display_index::{Index, Place};
use jcontent::Content;
use jtext::{NoMemory, Text};
use nb_model::Plan;
use std::alloc::Global;

/// Touches the cell and those where the display id stands. Without memory nothing changes.
pub(crate) fn touch_named(
    alloc: Global,
    touched: &mut Plan,
    index: &Index,
    cell: u32,
    name: Option<&Text>,
) -> Result<Before, NoMemory>
    requires { increases touched.old ≡ true }
    ensures sorted { increases touched.new ≡ true }
    ensures covers { OnOk result ((calls : Plain Call) → ids.StandsFor index.now calls
        → Covers touched.old touched.new cell (named_places calls (option_copied name.entry))) }
    ensures before { IfOk result (λ b. cells_before b touched.new ≡ touched.old) }
    ensures err { OnErr result (touched.new ≡ touched.old) }
{
    touch(alloc, touched, cell, places_of(index, name))
}

fn places_of<'a>(index: &'a Index, name: Option<&Text>) -> &'a [Place]
    ensures { (calls : Plain Call) → ids.StandsFor index.now calls
        → result.now ≡ named_places calls (option_copied name.entry) }
{
    match name {
        Some(id) => index.places(id).as_slice(),
        None => &[],
    }
}

/// Takes the message among what is held and in the index. Without memory what is held is as it was,
/// and what had a place in the index still has one.
pub(crate) fn take_placed(
    held: &mut Folds,
    index: &mut Index,
    cell: u32,
    c: &Content,
    date: Option<&Text>,
) -> Result<(), NoMemory>
    requires { 0 < next_of held.old }
    ensures shape { IsSameShape held.old held.new }
    ensures stands { OnOk result ((us : Plain Used) (u : Used) → Holds held.old (us ++ u ∷ [])
        → Holds held.new (us ++ with_message u c.now (option_copied date.entry) ∷ [])) }
    ensures settled { OnOk result ((calls : Plain Call) → ids.StandsFor index.old calls
        → Settled calls index.new c.now cell) }
    ensures still { OnErr result ((us : Plain Used) → Holds held.old us → Holds held.new us) }
    ensures grown { OnErr result ((calls : Plain Call) → ids.StandsFor index.old calls
        → Grown calls index.new cell) }
{
    let at = held.outputs_held();
    place(index, cell, at, c, name_of(c))?;
    held.take(c, date)?;
    settle(index, cell, c);
    Ok(())
}
