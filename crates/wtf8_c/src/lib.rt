//! The strings of `wtf8` for programs in C: `c/wtf8.h` says what each call does.
#![tactic(auto)]

mod appending;
mod asking;
mod codes;
mod comparing;
mod cutting;
mod editing;
mod handle;
mod hashing;
mod latin1;
mod latin1_out;
mod making;
mod points_in;
mod points_out;
mod searching;
mod units_out;
mod walking;
