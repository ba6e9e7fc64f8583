//! Tests of the public calls of `wtf8`, and examples and checks that the tests of several crates share.
#![tactic(auto)]

#[cfg(test)]
mod append_units;
#[cfg(test)]
mod calls;
#[cfg(test)]
mod comparing;
#[cfg(test)]
mod debugging;
#[cfg(test)]
mod displaying;
#[cfg(test)]
mod encoding;
pub mod examples;
#[cfg(test)]
mod hexadecimal;
#[cfg(test)]
mod marks;
#[cfg(test)]
mod replaced_units;
pub mod room;
pub mod sinks;
#[cfg(test)]
mod unit_cuts;
pub mod unit_edits;
#[cfg(test)]
mod utf8_bytes;
pub mod wrong;
