//! Where the outputs of each display id stand: an index from display ids to places (Jupyter
//! messaging 5.3, "Update display data"). Values only; it does no IO.
#![tactic(auto)]

mod by_cell;
mod by_id;
mod index;
mod place;

pub use index::Index;
pub use place::{Place, Places, last_is_in};
