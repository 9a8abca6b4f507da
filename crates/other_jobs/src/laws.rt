//! What the entries of others are for a job. Each law is the contract of a function without a body.

pub mod calls;
pub mod clock;
pub mod connects;
pub mod ended;
pub mod entries;
pub mod first;
pub mod reads;
pub mod refused;
pub mod shut;
pub mod taken;
pub mod turns;
