//! What follows from the rules of the loop for each job that runs: its core wants a last look
//! exactly where the journal calls for one, and has the deadline that the journal has.
//!
//! `specs/` says what holds of a job between two entries. The laws are in `laws`, each the contract
//! of a function without a body. Nothing here does IO.
#![tactic(auto)]

pub mod laws;
