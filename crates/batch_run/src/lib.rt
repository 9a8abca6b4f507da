//! Up to 16 jobs side by side over one readiness loop: each is told what its own connections and the
//! clock bring, and what it queues is put out.
#![tactic(auto)]

mod batch;
mod fault;
mod jobs;
mod limits;
mod lines;
mod reading;
mod running;
mod slot;
mod telling;
mod turning;
mod wanted;

pub use batch::run_jobs;
pub use limits::Limits;
