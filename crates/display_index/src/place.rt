//! The place of an output.
ghost use Rattle.std.specs.Prelude.{◌≡◌, ◌==◌, ◌-◌, filter, length, not, true, IsTrue};
ghost use Rattle.std.specs.List.{list_any, slice_get};
ghost use Rattle.jtext.specs.Look.{there_and};

use jtext::List;

/// The output at `at`, counted from 0, among the outputs of a cell.
#[derive(Clone, Copy, Debug, Drop, PartialEq, Eq)]
pub struct Place {
    /// The cell, counted from 0 in the notebook.
    pub cell: u32,
    /// The output, counted from 0 in the cell.
    pub at: u32,
}

/// Places in their order.
pub type Places = List<Place>;

/// Whether the last of the places is in the cell.
pub fn last_is_in(places: &Places, cell: u32) -> bool
    ensures last { result ≡ there_and (λ p. p.cell == cell)
        (slice_get places.now (length places.now - 1)) }
    ensures has_one { IsTrue result → list_any (λ p. p.cell == cell) places.now ≡ true }
{
    match places.as_slice().last() {
        Some(place) => place.cell == cell,
        None => false,
    }
}

/// The places that aren't in the cell. It takes no memory.
pub(crate) fn outside_of(places: Places, cell: u32) -> Places
    ensures { result ≡ filter (λ p. not (p.cell == cell)) places }
{
    let mut left = places.into_vec();
    left.retain(|p| p.cell != cell);
    Places::of_vec(left)
}
