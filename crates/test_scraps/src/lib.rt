//! Tests of scraps by the public call of the crate that finds them.
#![tactic(auto)]

#[cfg(test)]
mod bundles;
#[cfg(test)]
mod found;
#[cfg(test)]
mod rows;
