// The steps of an iterator.
ghost use Rattle.std.specs.Iterator.{IsFinite};

use crate::opcodes::{CloneStep, Step};
use crate::stop::Stop;
use crate::tape::{Shown, Tape};
use std::alloc::AllocError;

/// The word for the end of an iterator.
const END: &str = "end";

/// Runs the script's next steps on an iterator and writes what each returns, then the remaining items, and ends the
/// line. Calls `next` after the end too.
pub fn write_steps<T: Shown, I: Iterator<Item = T> + Clone>(tape: &mut Tape<'_>, mut items: I)
    requires { (state : I) → I.can_next state × IsFinite (I.remaining state) }
{
    for step in tape.reader.bytes() {
        write_step(Step::from_byte(*step), tape, &mut items);
    }
    drain(tape, items);
    tape.end_line();
}

/// Runs a step on an iterator, and writes what it returns. `None` is no step, and a fault.
fn write_step<T: Shown, I: Iterator<Item = T> + Clone>(
    step: Option<Step>,
    tape: &mut Tape<'_>,
    items: &mut I,
)
    requires { (state : I) → I.can_next state × IsFinite (I.remaining state) }
{
    match step {
        Some(Step::Next) => tape.write_item(items.next(), END),
        Some(Step::Nth) => tape.write_item(items.nth(1), END),
        Some(Step::SizeHint) => write_hint(tape, items.size_hint()),
        Some(Step::Replace) => replace_by_clone(tape, items),
        Some(Step::OnClone(step)) => write_step_of_clone(step, tape, items),
        None => tape.write_stop(Stop::Malformed),
    }
}

/// Replaces an iterator by its clone.
fn replace_by_clone<I: Clone + Drop>(tape: &mut Tape<'_>, items: &mut I) {
    match items.clone() {
        Ok(copy) => *items = copy,
        Err(_) => tape.write_stop(Stop::Memory),
    }
}

/// Runs a step on a clone of an iterator, and writes what it returns.
fn write_step_of_clone<T: Shown, I: Iterator<Item = T> + Clone>(
    step: CloneStep,
    tape: &mut Tape<'_>,
    items: &I,
)
    requires { (state : I) → I.can_next state × IsFinite (I.remaining state) }
{
    let Ok(items) = items.clone() else {
        return tape.write_stop(Stop::Memory);
    };
    match step {
        CloneStep::Drain => drain(tape, items),
        CloneStep::Last => tape.write_item(items.last(), END),
        CloneStep::Skip => tape.write_item(items.skip(2).next(), END),
        CloneStep::Collect => write_collected(tape, items),
    }
}

/// Collects the items, and writes their number and each item.
fn write_collected<T: Shown, I: Iterator<Item = T>>(tape: &mut Tape<'_>, items: I)
    requires { (state : I) → I.can_next state × IsFinite (I.remaining state) }
{
    let collected: Result<Vec<T>, AllocError> = items.collect(tape.alloc);
    match collected {
        Ok(items) => write_counted(tape, items.as_slice()),
        Err(_) => tape.write_stop(Stop::Memory),
    }
}

/// Writes the number of items and each item.
fn write_counted<T: Shown>(tape: &mut Tape<'_>, items: &[T]) {
    items.len().show(tape);
    tape.write_word(" items");
    for item in items {
        item.show(tape);
    }
}

/// Writes the remaining items in brackets, a size hint before each, and calls `next` once more after the end.
pub fn drain<T: Shown, I: Iterator<Item = T>>(tape: &mut Tape<'_>, mut items: I)
    requires { (state : I) → I.can_next state × IsFinite (I.remaining state) }
{
    tape.write_word(" [");
    write_hint(tape, items.size_hint());
    while let Some(item) = items.next() {
        item.show(tape);
        write_hint(tape, items.size_hint());
    }
    tape.write_item(items.next(), END);
    tape.write_word(" ]");
}

fn write_hint(tape: &mut Tape<'_>, hint: (usize, Option<usize>)) {
    let (low, high) = hint;
    match high {
        Some(high) => write!(tape, " {low}..{high}"),
        None => write!(tape, " {low}.."),
    }
}
