//! A run of the whole program over the world in memory that is watched: a notebook of two cells with a
//! toy kernel, or two notebooks whose cells sleep side by side. What a crash may leave at each moment,
//! whether each child was ended, and which status a failed call makes.
#![tactic(auto)]

mod images;
mod kinds;
mod reference;
mod row;
mod worlds;

pub use images::{acknowledged, each_image_is_safe, is_left_alone};
pub use kinds::is_of_disk;
pub use reference::Reference;
pub use row::Row;
pub use worlds::{ends_its_children, status, world};
