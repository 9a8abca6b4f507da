//! Tests of the language of the toy kernel, and of the kernel.
#![tactic(auto)]

#[cfg(test)]
mod broken;
#[cfg(test)]
mod ends;
#[cfg(test)]
mod host;
#[cfg(test)]
mod moments;
#[cfg(test)]
mod pair;
#[cfg(test)]
mod requests;
#[cfg(test)]
mod script;
#[cfg(test)]
mod sessions;
#[cfg(test)]
mod shown;
#[cfg(test)]
mod spelling;
#[cfg(test)]
mod texts;
