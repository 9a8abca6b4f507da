//! Tests of what a notebook becomes when its cells are settled, and of the saves of it over a disk in
//! memory, by public calls alone.
#![tactic(auto)]

#[cfg(test)]
mod kept_texts;
#[cfg(test)]
mod notebooks;
#[cfg(test)]
mod saves;
#[cfg(test)]
mod seen;
#[cfg(test)]
mod settled;
