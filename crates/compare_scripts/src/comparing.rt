// What comparisons return.
use crate::tape::Tape;
use std::cmp::Ordering;

/// Writes the results of all comparisons of two values.
pub fn write_comparisons<T: Ord>(tape: &mut Tape<'_>, word: &str, own: &T, other: &T) {
    write_equality(tape, word, own, other);
    write_inequalities(tape, word, own, other);
}

/// Writes the results of `==`, `!=`, `cmp` and `partial_cmp`.
fn write_equality<T: Ord>(tape: &mut Tape<'_>, word: &str, own: &T, other: &T) {
    tape.write_word(word);
    tape.write_flag(" eq", own == other);
    tape.write_flag(" ne", own != other);
    tape.write_between(" cmp ", name_of(own.cmp(other)), " partial ");
    tape.write_line(name_of_partial(own.partial_cmp(other)));
}

/// Writes the results of `<`, `<=`, `>` and `>=`.
fn write_inequalities<T: Ord>(tape: &mut Tape<'_>, word: &str, own: &T, other: &T) {
    tape.write_word(word);
    tape.write_flag(" lt", own < other);
    tape.write_flag(" le", own <= other);
    tape.write_flag(" gt", own > other);
    tape.write_truth(" ge", own >= other);
}

/// The word for what `partial_cmp` returns.
fn name_of_partial(order: Option<Ordering>) -> &'static str {
    match order {
        Some(order) => name_of(order),
        None => "none",
    }
}

/// The word for an order in a transcript.
pub fn name_of(order: Ordering) -> &'static str {
    match order {
        Ordering::Less => "less",
        Ordering::Equal => "equal",
        Ordering::Greater => "greater",
    }
}
