//! Example callers of `wtf8` and `unit_text`, each proved from the contracts of these libraries.
#![tactic(auto)]

pub mod appending;
pub mod ascii_case;
pub mod cursor;
pub mod cuts;
pub mod editor;
pub mod environment;
pub mod file_names;
pub mod interner;
pub mod joining;
pub mod json;
pub mod json_reader;
pub mod line_columns;
pub mod maps;
pub mod paths;
pub mod points;
pub mod reading;
pub mod refusals;
pub mod round_trips;
pub mod sorting;
pub mod string_prototype;
pub mod table;
pub mod unit_slices;
pub mod units;
pub mod well_formed;
