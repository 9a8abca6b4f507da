//! What the parts of a job's execution stand for, by the journal: the core by the events that it
//! was told, each connection by the bytes got and the messages queued on it, the signatures that
//! were seen, the notebook by the messages that were used, the asking, and the count of messages.
//!
//! `specs/` has these relations, over the parts' public types and over `run_journal`. How each goes
//! on, entry by entry and call by call, is in `laws`. A crate that runs a job applies them to its
//! calls; it needs none of the journal's definitions for that. Nothing here does IO.
#![tactic(auto)]

pub mod laws;
