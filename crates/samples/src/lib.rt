//! What tests and measures read: notebooks with what is saved of them, a world that costs next to
//! nothing and tells no journal, and a kernel that hands out bytes.
#![tactic(auto)]

mod bare;
mod fount;
pub mod notebooks;
mod talk;

pub use bare::BareWorld;
pub use fount::Fount;
pub use talk::Talk;
