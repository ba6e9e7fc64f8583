// Tests of the proved callers in `wtf8_uses`. Expected values are worked out by hand from the encoding's tables, unless
// a module names another source.
#![tactic(auto)]

#[cfg(test)]
mod appending;
#[cfg(test)]
mod conversions;
#[cfg(test)]
mod cursor;
#[cfg(test)]
mod cuts;
#[cfg(test)]
mod editor;
#[cfg(test)]
mod file_names;
#[cfg(test)]
mod interner;
#[cfg(test)]
mod json_reader;
#[cfg(test)]
mod line_columns;
#[cfg(test)]
mod points;
#[cfg(test)]
mod reading;
#[cfg(test)]
mod refusals;
#[cfg(test)]
mod replacing;
#[cfg(test)]
mod shared;
#[cfg(test)]
mod sorting;
