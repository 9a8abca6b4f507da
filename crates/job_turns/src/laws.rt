//! Of the jobs of a run while others are told. Each law is the contract of a function without a
//! body.

pub mod told;
pub mod turns;
pub mod waiting;
