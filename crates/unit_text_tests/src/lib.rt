// Tests of the public calls of `unit_text`.
#![tactic(auto)]

#[cfg(test)]
mod calls;
#[cfg(test)]
mod conversions;
#[cfg(test)]
mod editing;
#[cfg(test)]
mod indexed;
#[cfg(test)]
mod indexed_memory;
#[cfg(test)]
mod lengths;
#[cfg(test)]
mod lossy;
#[cfg(test)]
mod mark_requests;
#[cfg(test)]
mod marks;
#[cfg(test)]
mod memory;
#[cfg(test)]
mod periodic;
#[cfg(test)]
mod positions;
#[cfg(test)]
mod pushing;
#[cfg(test)]
mod searching;
#[cfg(test)]
mod shared;
#[cfg(test)]
mod sinks;
