//! Many saves of one output: what a crash leaves over a whole run, by what each save adds to the
//! journal. There is no code, only definitions and laws.
#![tactic(auto)]

pub mod laws;
