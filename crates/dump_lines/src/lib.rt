//! Parses lines of words that build a WTF-8 string, and writes the bytes of each line's string in hexadecimal.
#![tactic(auto)]

mod fault;
mod line;
mod session;
mod split;
mod word;

pub use fault::Fault;
pub use line::dump_line;
pub use session::run;
