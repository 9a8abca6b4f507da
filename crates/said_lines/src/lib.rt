//! What is said to the user: lines, each ended by a line feed, and the saying of a text while no say
//! has failed. It calls the `Say` that it is lent, and takes memory for lines alone.
#![tactic(auto)]

mod line;
mod voice;

pub use line::{saved_line, spoken_line};
pub use voice::{has_risen, say};
