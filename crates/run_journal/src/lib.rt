//! What the journal of a run means for each of its jobs: which messages arrived, which requests
//! stand and what is used for them, why the job stopped, which saves are due, what is queued on
//! each connection, what is said, and the exit status. `specs/` has the definitions; what holds of
//! every journal is in `laws`. Nothing here does IO.
#![tactic(auto)]

pub mod laws;
