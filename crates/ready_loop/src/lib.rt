//! The readiness loop over up to 64 connections of a world: it begins them, puts out what is queued
//! on each, waits, and reads what a wait reported. Each call adds its entries to the world's journal,
//! and `specs/` says which. It does no IO but by the world that it is lent.
#![tactic(auto)]

mod beginning;
mod conn_place;
mod end;
mod fault;
pub mod laws;
mod link;
mod links;
mod looking;
mod next;
mod offering;
mod queue;
mod queues;
mod readiness;
mod reading;
mod stage;
mod timer;
mod waiting;

pub use conn_place::place_at;
pub use fault::LoopFault;
pub use next::Next;
pub use readiness::Loop;
