//! Tests of the crates that read and write texts: JSON, command lines and jobs files.
#![tactic(auto)]

// JSON.
#[cfg(test)]
mod editing;
#[cfg(test)]
mod lists;
#[cfg(test)]
mod looking;
#[cfg(test)]
mod notebooks;
#[cfg(test)]
mod reading;
#[cfg(test)]
mod writing;

// Command lines and jobs files.
#[cfg(test)]
mod batches;
#[cfg(test)]
mod command_lines;
#[cfg(test)]
mod commands;
#[cfg(test)]
mod jobs_files;
#[cfg(test)]
mod options;
#[cfg(test)]
mod shown;

// Kernel specs.
#[cfg(test)]
mod kernel_specs;
