//! What a job stands for while the others of its run are told what has happened.
//!
//! Up to 16 jobs have one journal, and are told one after another what it has. In between a job
//! stands for the journal but for what is still to be told to it. `laws` says which entries change
//! nothing of that, and what a turn or a read of the loop makes of it. Nothing here does IO.
#![tactic(auto)]

pub mod laws;
