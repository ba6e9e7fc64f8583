// What replaces the middle of a string: code units, which are encoded, or a view, whose bytes are copied.
ghost use Rattle.std.specs.Prelude.{◌≡◌, ℕ, List, [], ◌∷◌, ◌++◌, ◌+◌, ◌*◌, ◌^◌, ◌≤◌, ◌<◌, ◌↔◌, length, take, drop, IsTrue, IfSome, IfNone};
ghost use Rattle.wtf8.specs.Form.{IsForm};
ghost use Rattle.wtf8.specs.Unicode.{IsLead, IsTrail};

use crate::codec::code_point::{FIRST_LEAD, LAST_LEAD, is_trail};
use crate::from_utf16::encoded_len::encoded_len;
use crate::from_utf16::front::encode_front;
use crate::strings::view::Wtf8;

/// The size in bytes of the scratch buffer in which units are encoded, since a gap has no room for whole blocks at its end.
pub(crate) const SCRATCH_BYTES: usize = 512;

/// Code units, paired or not, as a list or as a view.
#[derive(Clone, Copy)]
pub(crate) enum Middle<'a> {
    Units(&'a [u16]),
    View(Wtf8<'a>),
}

/// Writes the form of the units at index `at`, which must have room for it. It is encoded in `scratch`, part by part.
pub(crate) fn write_units(out: &mut [u8], at: usize, v: &[u16], scratch: &mut [u8; SCRATCH_BYTES])
    requires { (w : List ℕ) → IsForm w v.now → at + length w ≤ length out.old }
    ensures { (w : List ℕ) → IsForm w v.now → out.new ≡ take at out.old ++ (w ++ drop (at + length w) out.old) }
{
    let mut read = 0;
    let mut to = at;
    while read < v.len() {
        let front = encode_front(&v[read..], scratch);
        out[to..to + front.bytes].copy_from_slice(&scratch[..front.bytes]);
        read += front.units;
        to += front.bytes;
    }
}

/// `encoded_len`, with a bound that the memory of the units gives.
fn bounded_len(v: &[u16]) -> usize
    ensures len { (w : List ℕ) → IsForm w v.now → result ≡ length w }
    ensures bound { result + 12 < 2 ^ 64 }
{
    encoded_len(v)
}

impl<'a> Middle<'a> {
    ghost use Rattle.wtf8.specs.private.Middles.{middle_units};

    pub(crate) fn is_empty(self) -> bool
        ensures { IsTrue result ↔ middle_units self.entry ≡ [] }
    {
        match self {
            Middle::Units(units) => units.is_empty(),
            Middle::View(view) => view.is_empty(),
        }
    }

    /// The number of bytes of the form of the units.
    pub(crate) fn encoded_len(self) -> usize
        ensures len { (w : List ℕ) → IsForm w (middle_units self.entry) → result ≡ length w }
        ensures bound { result + 12 < 2 ^ 64 }
    {
        match self {
            Middle::Units(units) => bounded_len(units),
            Middle::View(view) => view.len(),
        }
    }

    /// Writes the form of the units at index `at`, which must have room for it. A view is copied, units are encoded in
    /// `scratch`.
    pub(crate) fn write(self, out: &mut [u8], at: usize, scratch: &mut [u8; SCRATCH_BYTES])
        requires { (w : List ℕ) → IsForm w (middle_units self) → at + length w ≤ length out.old }
        ensures { (w : List ℕ) → IsForm w (middle_units self.entry) → out.new ≡ take at out.old ++ (w ++ drop (at + length w) out.old) }
    {
        match self {
            Middle::Units(units) => write_units(out, at, units, scratch),
            Middle::View(view) => out[at..at + view.len()].copy_from_slice(view.bytes),
        }
    }

    /// The trail surrogate that is the first unit, and the units after it.
    pub(crate) fn split_initial_trail(self) -> Option<(u16, Middle<'a>)>
        ensures trail { IfSome result (λ x. IsTrail x.0) }
        ensures joined { IfSome result (λ x. middle_units self.entry ≡ x.0 ∷ middle_units x.1) }
        ensures none { IfNone result ((t : ℕ) (r : List ℕ) → IsTrail t → middle_units self.entry ≡ t ∷ r → ⊥) }
    {
        match self {
            Middle::Units(units) => match units.split_first() {
                Some((unit, rest)) if is_trail(u32::from(*unit)) => {
                    Some((*unit, Middle::Units(rest)))
                }
                _ => None,
            },
            Middle::View(view) => {
                let (trail, rest) = view.split_initial_trail()?;
                Some((trail, Middle::View(rest)))
            }
        }
    }

    /// The lead surrogate that is the last unit, and the units before it.
    pub(crate) fn split_final_lead(self) -> Option<(Middle<'a>, u16)>
        ensures lead { IfSome result (λ x. IsLead x.1) }
        ensures joined { IfSome result (λ x. middle_units self.entry ≡ middle_units x.0 ++ x.1 ∷ []) }
        ensures none { IfNone result ((f : List ℕ) (l : ℕ) → IsLead l → middle_units self.entry ≡ f ++ l ∷ [] → ⊥) }
    {
        match self {
            Middle::Units(units) => match units.split_last() {
                Some((unit, rest)) if FIRST_LEAD <= *unit && *unit <= LAST_LEAD => {
                    Some((Middle::Units(rest), *unit))
                }
                _ => None,
            },
            Middle::View(view) => {
                let (rest, lead) = view.split_final_lead()?;
                Some((Middle::View(rest), lead))
            }
        }
    }
}
