// Replaces code units in the middle of well-formed bytes: the bytes after them move once, and what is new is written into
// the gap.
ghost use Rattle.std.specs.Prelude.{◌≡◌, ℕ, List, [], ◌++◌, ◌+◌, ◌-◌, ◌≤◌, ◌<◌, length, take, drop, IsOk, OnOk, OnErr, IfSome, vec_capacity};
ghost use Rattle.std.specs.Option.{option_to_list};
ghost use Rattle.wtf8.specs.Concatenation.{MeetsAsPair};
ghost use Rattle.wtf8.specs.Form.{IsForm};
ghost use Rattle.wtf8.specs.private.EncodedBytes.{BecomesOrKeeps};
ghost use Rattle.wtf8.specs.private.Middles.{middle_units};
ghost use Rattle.wtf8.specs.Unicode.{IsLead, IsTrail};

use crate::from_utf16::encoded_len::encoded_len;
use crate::lanes::moves::{move_down, move_to_end};
use crate::strings::middle::{Middle, SCRATCH_BYTES, write_units};
use std::alloc::{AllocError, Allocator};

/// Replaces the bytes from index `begin` to before `end` by `n` bytes of any values.
fn open_gap<A: Allocator>(
    bytes: &mut Vec<u8, A>,
    begin: usize,
    end: usize,
    n: usize,
) -> Result<(), AllocError>
    requires order { begin ≤ end }
    requires within { end ≤ length bytes.old.items }
    ensures front { OnOk result (take begin bytes.new.items ≡ take begin bytes.old.items) }
    ensures back { OnOk result (drop (begin + n) bytes.new.items ≡ drop end bytes.old.items) }
    ensures len { OnOk result (length bytes.new.items + (end - begin) ≡ length bytes.old.items + n) }
    ensures kept { OnErr result (bytes.new.items ≡ bytes.old.items) }
    ensures room { length bytes.old.items + n ≤ vec_capacity bytes.old + (end - begin) → IsOk result }
    ensures capacity { vec_capacity bytes.old ≤ vec_capacity bytes.new }
{
    let len = bytes.len();
    let removed = end - begin;
    if removed == n {
        return Ok(());
    }
    if removed < n {
        let by = n - removed;
        bytes.reserve(by)?;
        bytes.resize(len + by, 0)?;
        move_to_end(bytes.as_mut_slice(), end, by);
    } else {
        let by = removed - n;
        move_down(bytes.as_mut_slice(), end, by);
        bytes.truncate(len - by);
    }
    Ok(())
}

/// Replaces the bytes from index `begin` to before `end` by the forms of three lists of units, one after the other.
fn replace_bytes<A: Allocator>(
    bytes: &mut Vec<u8, A>,
    begin: usize,
    end: usize,
    first: &[u16],
    middle: Middle<'_>,
    last: &[u16],
) -> Result<(), AllocError>
    requires order { begin ≤ end }
    requires within { end ≤ length bytes.old.items }
    requires few { (length first.now ≤ 2) × (length last.now ≤ 2) }
    ensures { (x y z : List ℕ) → IsForm x first.now → IsForm y (middle_units middle.entry) → IsForm z last.now → BecomesOrKeeps bytes.old (take begin bytes.old.items ++ ((x ++ (y ++ z)) ++ drop end bytes.old.items)) bytes.new result }
{
    let first_len = encoded_len(first);
    let two_len = first_len + middle.encoded_len();
    open_gap(bytes, begin, end, two_len + encoded_len(last))?;
    let out = bytes.as_mut_slice();
    let mut scratch = [0; SCRATCH_BYTES];
    write_units(out, begin, first, &mut scratch);
    middle.write(out, begin + first_len, &mut scratch);
    write_units(out, begin + two_len, last, &mut scratch);
    Ok(())
}

/// At most two code units.
#[derive(Clone, Copy)]
struct FewUnits {
    units: [u16; 2],
    len: usize,
}

/// The units of both options, in order.
fn both(first: Option<u16>, second: Option<u16>) -> FewUnits
    ensures units { take result.len result.units ≡ option_to_list first ++ option_to_list second }
    ensures few { result.len ≤ 2 }
{
    match (first, second) {
        (Some(first), Some(second)) => FewUnits {
            units: [first, second],
            len: 2,
        },
        (Some(unit), None) | (None, Some(unit)) => FewUnits {
            units: [unit, 0],
            len: 1,
        },
        (None, None) => FewUnits {
            units: [0, 0],
            len: 0,
        },
    }
}

/// Divides `head` followed by the units where no pair is divided: after the pair that `head` forms, if it forms one.
fn take_pair_before(head: Option<u16>, middle: Middle<'_>) -> (FewUnits, Middle<'_>)
    requires lead { IfSome head (λ l. IsLead l) }
    requires some { ¬ (middle_units middle ≡ []) }
    ensures joined { take result.0.len result.0.units ++ middle_units result.1 ≡ option_to_list head ++ middle_units middle.entry }
    ensures apart { (x : List ℕ) → ¬ (MeetsAsPair (take result.0.len result.0.units) (middle_units result.1 ++ x)) }
    ensures few { result.0.len ≤ 2 }
{
    if head.is_some() {
        if let Some((trail, rest)) = middle.split_initial_trail() {
            return (both(head, Some(trail)), rest);
        }
    }
    (both(head, None), middle)
}

/// Divides the units followed by `tail` where no pair is divided: before the pair that `tail` forms, if it forms one.
fn take_pair_after(middle: Middle<'_>, tail: Option<u16>) -> (Middle<'_>, FewUnits)
    requires trail { IfSome tail (λ t. IsTrail t) }
    ensures joined { middle_units result.0 ++ take result.1.len result.1.units ≡ middle_units middle.entry ++ option_to_list tail }
    ensures apart { ¬ (MeetsAsPair (middle_units result.0) (take result.1.len result.1.units)) }
    ensures few { result.1.len ≤ 2 }
{
    if tail.is_some() {
        if let Some((rest, lead)) = middle.split_final_lead() {
            return (rest, both(Some(lead), tail));
        }
    }
    (middle, both(None, tail))
}

/// Replaces the bytes from index `begin` to before `end` by the form of `head`, the units of `middle` and `tail`. If memory
/// is refused, the bytes are unchanged.
pub(crate) fn replace<A: Allocator>(
    bytes: &mut Vec<u8, A>,
    begin: usize,
    end: usize,
    head: Option<u16>,
    middle: Middle<'_>,
    tail: Option<u16>,
) -> Result<(), AllocError>
    requires order { begin ≤ end }
    requires within { end ≤ length bytes.old.items }
    requires head { IfSome head (λ l. IsLead l) }
    requires tail { IfSome tail (λ t. IsTrail t) }
    ensures { (m : List ℕ) → IsForm m (option_to_list head ++ (middle_units middle.entry ++ option_to_list tail)) → BecomesOrKeeps bytes.old (take begin bytes.old.items ++ (m ++ drop end bytes.old.items)) bytes.new result }
{
    if middle.is_empty() {
        let joined = both(head, tail);
        return replace_bytes(bytes, begin, end, &joined.units[..joined.len], middle, &[]);
    }
    let (first, rest) = take_pair_before(head, middle);
    let (middle, last) = take_pair_after(rest, tail);
    let (first, last) = (&first.units[..first.len], &last.units[..last.len]);
    replace_bytes(bytes, begin, end, first, middle, last)
}
