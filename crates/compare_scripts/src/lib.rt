//! Interpreter of short scripts of calls on strings: writes a transcript of what each call returns.
//!
//! A script is bytes: one call after another, each an opcode and its operands. It works on four strings, two
//! `UnitText`s and one `IndexedBuf`, the indexed string, all empty at the start. `opcodes` lists the calls. A
//! transcript is lines of text, at least one for each call but `apply` of an empty list, and none from a call of
//! `Silence` on.
#![tactic(auto)]

mod build_calls;
mod building;
mod comparing;
mod engine;
mod hinted;
mod indexed;
mod iterators;
mod json;
mod machine;
mod opcodes;
mod positions;
mod reader;
mod recorder;
mod stop;
mod tape;
mod texts;
mod views;

pub use machine::run_script;
