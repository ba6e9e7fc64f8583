// Tests of the memory that public calls of `wtf8` request, and of what they leave if it is refused.
#![tactic(auto)]

#[cfg(test)]
mod growing;
#[cfg(test)]
mod hinted;
#[cfg(test)]
mod lengths;
#[cfg(test)]
mod lists;
#[cfg(test)]
mod lossy;
#[cfg(test)]
mod making;
#[cfg(test)]
mod no_requests;
#[cfg(test)]
mod pushed_units;
#[cfg(test)]
mod replaced_units;
#[cfg(test)]
mod samples;
#[cfg(test)]
mod shared;
