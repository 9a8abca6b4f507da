//! What holds of every journal, each law the contract of a function without a body.

pub mod agreement;
pub mod asked;
pub mod causes;
pub mod growth;
pub mod isolation;
pub mod order;
pub mod reading;
pub mod rules;
pub mod safety;
pub mod turns;
