//! One job that runs: it starts its kernel, asks it to execute the cells one after another, and
//! saves after each. It is told what its connections and the clock bring, answers what is to be
//! put out on each connection, and calls the disk, the children and the standard output that it is
//! lent (Jupyter messaging 5.3; nbclient; Papermill).
#![tactic(auto)]

mod agenda;
mod execution;
mod fresh;
mod hearing;
mod histories;
mod job;
mod launching;
pub mod laws;
mod look;
mod outcome;
mod paths;
mod request;
mod starting;
mod stepping;
mod telling;
mod terms;
mod turning;
mod using;

pub use agenda::Agenda;
pub use execution::earlier;
pub use job::Job;
