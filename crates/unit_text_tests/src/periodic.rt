// Lists of units that repeat, found in texts that repeat, where a search keeps most of what it has compared.
use crate::shared::{Buf, buf_of};
use std::alloc::Global;

/// How a text of two units goes on: after the list that begins it come, for each of its units from index 1 on, `first`
/// if that is the first unit of all, else `other`.
type Rule = (&'static [u16], &'static [u16]);

/// One unit alone, two by turns, Fibonacci's word of letters and of surrogates, surrogates by turns, and the word of Thue
/// and Morse.
static RULES: [Rule; 6] = [
    (&[0x61, 0x61], &[0x61]),
    (&[0x61, 0x62], &[0x61, 0x62]),
    (&[0x61, 0x62], &[0x61]),
    (&[0xD83D, 0xDCA9], &[0xD83D]),
    (&[0xDCA9, 0xD83D], &[0xDCA9, 0xD83D]),
    (&[0x3042, 0x61], &[0x61, 0x3042]),
];

/// The first `n` units by a rule; fewer if memory is refused.
fn word(alloc: Global, &(first, other): &Rule, n: usize) -> Vec<u16> {
    let mut units = Vec::new(alloc);
    let _ = units.extend_from_slice(first);
    for index in 1..n {
        let is_first = units.get(index) == first.first();
        let next = if is_first { first } else { other };
        let _ = units.extend_from_slice(next);
    }
    units.truncate(n);
    units
}

/// The numbers of units that are searched for, and the indexes in the word at which they begin.
static LENGTHS: [usize; 12] = [1, 2, 8, 21, 63, 64, 65, 130, 255, 256, 257, 300];

static BEGINS: [usize; 2] = [0, 7];

/// The index from which and up to which they are searched for, inside a pair in some of the texts.
const MIDDLE: usize = 351;

/// What the table has where there is no index.
const NONE: usize = 999;

/// For each rule the text is the first 700 units of its word, "b" and the first 100. For each number of units and each
/// begin, without and with "b" after them: JavaScript's `indexOf` from 0 and from the middle, and its `lastIndexOf` from
/// the middle and from the end.
static FOUND: [usize; 1152] = [
    0, 351, 351, 800, 699, 699, 999, 699, 0, 351, 351, 800, 699, 699, 999, 699, 0, 351, 351, 799,
    698, 698, 999, 698, 0, 351, 351, 799, 698, 698, 999, 698, 0, 351, 351, 793, 692, 692, 999, 692,
    0, 351, 351, 793, 692, 692, 999, 692, 0, 351, 351, 780, 679, 679, 999, 679, 0, 351, 351, 780,
    679, 679, 999, 679, 0, 351, 351, 738, 637, 637, 999, 637, 0, 351, 351, 738, 637, 637, 999, 637,
    0, 351, 351, 737, 636, 636, 999, 636, 0, 351, 351, 737, 636, 636, 999, 636, 0, 351, 351, 736,
    635, 635, 999, 635, 0, 351, 351, 736, 635, 635, 999, 635, 0, 351, 351, 570, 570, 570, 999, 570,
    0, 351, 351, 570, 570, 570, 999, 570, 0, 351, 351, 445, 445, 445, 999, 445, 0, 351, 351, 445,
    445, 445, 999, 445, 0, 351, 351, 444, 444, 444, 999, 444, 0, 351, 351, 444, 444, 444, 999, 444,
    0, 351, 351, 443, 443, 443, 999, 443, 0, 351, 351, 443, 443, 443, 999, 443, 0, 351, 351, 400,
    400, 400, 999, 400, 0, 351, 351, 400, 400, 400, 999, 400, 0, 352, 350, 799, 0, 352, 350, 799,
    1, 351, 351, 800, 699, 699, 999, 699, 0, 352, 350, 799, 698, 698, 999, 698, 1, 351, 351, 798,
    1, 351, 351, 798, 0, 352, 350, 793, 692, 692, 999, 692, 1, 351, 351, 792, 1, 351, 351, 792, 0,
    352, 350, 779, 0, 352, 350, 779, 1, 351, 351, 780, 679, 679, 999, 679, 0, 352, 350, 737, 0,
    352, 350, 737, 1, 351, 351, 738, 637, 637, 999, 637, 0, 352, 350, 737, 636, 636, 999, 636, 1,
    351, 351, 736, 1, 351, 351, 736, 0, 352, 350, 735, 0, 352, 350, 735, 1, 351, 351, 736, 635,
    635, 999, 635, 0, 352, 350, 570, 570, 570, 999, 570, 1, 351, 351, 569, 1, 351, 351, 569, 0,
    352, 350, 444, 0, 352, 350, 444, 1, 351, 351, 445, 445, 445, 999, 445, 0, 352, 350, 444, 444,
    444, 999, 444, 1, 351, 351, 443, 1, 351, 351, 443, 0, 352, 350, 442, 0, 352, 350, 442, 1, 351,
    351, 443, 443, 443, 999, 443, 0, 352, 350, 400, 400, 400, 999, 400, 1, 351, 351, 399, 1, 351,
    351, 399, 0, 351, 351, 800, 0, 351, 351, 798, 0, 351, 351, 800, 0, 351, 351, 798, 0, 351, 351,
    798, 999, 999, 999, 999, 2, 353, 350, 797, 2, 353, 350, 797, 0, 351, 351, 790, 694, 694, 999,
    694, 7, 363, 350, 784, 999, 999, 999, 999, 0, 356, 343, 777, 999, 999, 999, 999, 7, 363, 350,
    763, 999, 999, 999, 999, 0, 377, 322, 701, 999, 999, 999, 999, 7, 384, 329, 708, 999, 999, 999,
    999, 0, 377, 322, 701, 0, 377, 322, 701, 7, 384, 329, 708, 999, 999, 999, 999, 0, 377, 322,
    701, 999, 999, 999, 999, 7, 384, 329, 708, 7, 384, 329, 708, 0, 377, 322, 521, 999, 999, 999,
    999, 7, 384, 329, 528, 7, 384, 329, 528, 0, 377, 233, 377, 0, 377, 233, 377, 7, 384, 240, 384,
    999, 999, 999, 999, 0, 377, 233, 377, 999, 999, 999, 999, 7, 384, 240, 384, 7, 384, 240, 384,
    0, 377, 233, 377, 999, 999, 999, 999, 7, 384, 240, 384, 999, 999, 999, 999, 0, 377, 233, 377,
    0, 377, 233, 377, 7, 384, 240, 384, 7, 384, 240, 384, 0, 351, 351, 800, 699, 699, 999, 699, 0,
    351, 351, 800, 699, 699, 999, 699, 0, 351, 351, 798, 999, 999, 999, 999, 2, 353, 350, 797, 999,
    999, 999, 999, 0, 351, 351, 790, 999, 999, 999, 999, 7, 363, 350, 784, 999, 999, 999, 999, 0,
    356, 343, 777, 999, 999, 999, 999, 7, 363, 350, 763, 999, 999, 999, 999, 0, 377, 322, 701, 999,
    999, 999, 999, 7, 384, 329, 708, 999, 999, 999, 999, 0, 377, 322, 701, 999, 999, 999, 999, 7,
    384, 329, 708, 999, 999, 999, 999, 0, 377, 322, 701, 999, 999, 999, 999, 7, 384, 329, 708, 999,
    999, 999, 999, 0, 377, 322, 521, 999, 999, 999, 999, 7, 384, 329, 528, 999, 999, 999, 999, 0,
    377, 233, 377, 999, 999, 999, 999, 7, 384, 240, 384, 999, 999, 999, 999, 0, 377, 233, 377, 999,
    999, 999, 999, 7, 384, 240, 384, 999, 999, 999, 999, 0, 377, 233, 377, 999, 999, 999, 999, 7,
    384, 240, 384, 999, 999, 999, 999, 0, 377, 233, 377, 999, 999, 999, 999, 7, 384, 240, 384, 999,
    999, 999, 999, 0, 352, 350, 799, 999, 999, 999, 999, 1, 351, 351, 800, 699, 699, 999, 699, 0,
    352, 350, 799, 698, 698, 999, 698, 1, 351, 351, 798, 999, 999, 999, 999, 0, 352, 350, 793, 692,
    692, 999, 692, 1, 351, 351, 792, 999, 999, 999, 999, 0, 352, 350, 779, 999, 999, 999, 999, 1,
    351, 351, 780, 679, 679, 999, 679, 0, 352, 350, 737, 999, 999, 999, 999, 1, 351, 351, 738, 637,
    637, 999, 637, 0, 352, 350, 737, 636, 636, 999, 636, 1, 351, 351, 736, 999, 999, 999, 999, 0,
    352, 350, 735, 999, 999, 999, 999, 1, 351, 351, 736, 635, 635, 999, 635, 0, 352, 350, 570, 570,
    570, 999, 570, 1, 351, 351, 569, 999, 999, 999, 999, 0, 352, 350, 444, 999, 999, 999, 999, 1,
    351, 351, 445, 445, 445, 999, 445, 0, 352, 350, 444, 444, 444, 999, 444, 1, 351, 351, 443, 999,
    999, 999, 999, 0, 352, 350, 442, 999, 999, 999, 999, 1, 351, 351, 443, 443, 443, 999, 443, 0,
    352, 350, 400, 400, 400, 999, 400, 1, 351, 351, 399, 999, 999, 999, 999, 0, 353, 350, 800, 999,
    999, 999, 999, 1, 351, 351, 799, 699, 699, 999, 699, 0, 354, 350, 797, 698, 698, 999, 698, 1,
    351, 351, 798, 999, 999, 999, 999, 0, 360, 344, 781, 999, 999, 999, 999, 7, 351, 351, 788, 999,
    999, 999, 999, 0, 384, 320, 749, 999, 999, 999, 999, 7, 391, 327, 756, 999, 999, 999, 999, 0,
    384, 320, 701, 999, 999, 999, 999, 7, 391, 199, 708, 999, 999, 999, 999, 0, 384, 320, 701, 999,
    999, 999, 999, 7, 391, 199, 708, 999, 999, 999, 999, 0, 384, 192, 701, 999, 999, 999, 999, 7,
    391, 199, 708, 999, 999, 999, 999, 0, 384, 0, 384, 999, 999, 999, 999, 7, 391, 7, 391, 999,
    999, 999, 999, 0, 384, 0, 384, 999, 999, 999, 999, 7, 999, 7, 7, 999, 999, 999, 999, 0, 384, 0,
    384, 999, 999, 999, 999, 7, 999, 7, 7, 999, 999, 999, 999, 0, 999, 0, 0, 999, 999, 999, 999, 7,
    999, 7, 7, 999, 999, 999, 999, 0, 999, 0, 0, 999, 999, 999, 999, 7, 999, 7, 7, 999, 999, 999,
    999,
];

/// Whether a search returned entry `at` of the table.
fn is_entry(found: Option<usize>, at: usize) -> bool {
    match FOUND.get(at) {
        Some(index) => found.unwrap_or(NONE) == *index,
        None => false,
    }
}

/// Whether each call finds these units where entries `at` to `at + 3` of the table say.
fn are_entries(buf: &Buf, units: &[u16], other: &Buf, at: usize) -> bool {
    let second = at.wrapping_add(1);
    let third = at.wrapping_add(2);
    let last = at.wrapping_add(3);
    is_entry(buf.find_units(0, units), at)
        && is_entry(buf.find(0, other), at)
        && is_entry(buf.find_units(MIDDLE, units), second)
        && is_entry(buf.find(MIDDLE, other), second)
        && is_entry(buf.rfind_units(MIDDLE, units), third)
        && is_entry(buf.rfind(MIDDLE, other), third)
        && is_entry(buf.rfind_units(usize::MAX, units), last)
        && is_entry(buf.rfind(usize::MAX, other), last)
}

/// Whether `n` units of the word from `begin` on, without and with "b" after them, are found as the table says.
fn are_found(alloc: Global, buf: &Buf, word: &[u16], begin: usize, n: usize, at: usize) -> bool {
    let Some(part) = word.get(begin..begin.saturating_add(n)) else {
        return false;
    };
    let mut units = Vec::new(alloc);
    units.extend_from_slice(part).is_ok()
        && are_entries(buf, &units, &buf_of(alloc, &units), at)
        && units.push(0x62).is_ok()
        && are_entries(buf, &units, &buf_of(alloc, &units), at.wrapping_add(4))
}

/// Whether all is found in the text of a rule as the table says from entry `at` on.
fn is_rule_right(alloc: Global, buf: &Buf, word: &[u16], at: usize) -> bool {
    let mut at = at;
    for n in &LENGTHS {
        for begin in &BEGINS {
            if !are_found(alloc, buf, word, *begin, *n, at) {
                return false;
            }
            at = at.wrapping_add(8);
        }
    }
    true
}

/// The text of a rule.
fn text_of_word(alloc: Global, word: &[u16]) -> Buf {
    let mut text = Vec::new(alloc);
    let _ = text.extend_from_slice(word);
    let _ = text.push(0x62);
    let _ = text.extend_from_slice(word.get(..100).unwrap_or(&[]));
    buf_of(alloc, &text)
}

#[test]
fn units_that_repeat_are_found(rt: HostRuntime) {
    let mut at = 0usize;
    for rule in &RULES {
        let word = word(rt.alloc(), rule, 700);
        let mut buf = text_of_word(rt.alloc(), &word);
        assert!(rt; is_rule_right(rt.alloc(), &buf, &word, at), "from {at}");
        buf.mark_units(rt.alloc());
        assert!(rt;
            is_rule_right(rt.alloc(), &buf, &word, at),
            "with marks, from {at}"
        );
        at = at.wrapping_add(192);
    }
}
