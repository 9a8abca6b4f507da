//! The outputs, count and dates of executed cells, folded from the messages that were used for
//! their requests (Jupyter messaging 5.3, nbformat 4.5). Values only; it does no IO.
#![tactic(auto)]

mod before;
mod bundle;
mod copies;
mod fold;
mod folded;
mod folds;
mod joining;
mod kind;
mod latest;
pub mod laws;
mod message;
mod parts;
mod places;
mod plain_fold;
mod plans;
mod render;
mod standing;
mod taking;
mod tree;
mod used;

pub use fold::Fold;
pub use message::Message;
pub use plain_fold::PlainFold;
pub use used::Used;
