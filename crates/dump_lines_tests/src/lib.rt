//! A caller of `dump_lines`, and tests of it: readers, writers and memory that fail, long inputs, and what a stored run
//! of the program cannot hold.
#![tactic(auto)]

pub mod callers;
#[cfg(test)]
mod inputs;
#[cfg(test)]
mod memory;
#[cfg(test)]
mod reading;
#[cfg(test)]
mod writing;
