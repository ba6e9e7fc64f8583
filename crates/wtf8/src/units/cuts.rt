// Cuts of a view at a number of code units, next to which other units may be put.
ghost use Rattle.std.specs.Prelude.{◌≡◌, ◌≤◌, IfSome, length};
ghost use Rattle.std.specs.Option.{option_to_list};
ghost use Rattle.wtf8.specs.Unicode.{IsLead, IsTrail};
ghost use Rattle.wtf8.specs.UnitMark.{IsMarkOf, RoundsDownTo};
ghost use Rattle.wtf8.specs.View.{view_points, view_units};
ghost use Rattle.wtf8.specs.private.Cuts.{CutsBefore, CutsAfter};

use crate::codec::encoding;
use crate::strings::view::Wtf8;
use crate::units::marks::UnitMark;

/// A code point boundary, and the surrogate between it and a cut, if any, which may form a pair with a unit at the cut.
#[derive(Clone, Copy)]
pub(crate) struct Cut {
    pub(crate) position: usize,
    pub(crate) surrogate: Option<u16>,
}

impl<'a> Wtf8<'a> {
    /// The boundary before the cut after `n` units. The lead surrogate directly before the cut, if there is one, lone or of
    /// the pair that the cut splits, is after the boundary.
    pub(crate) fn cut_before(self, mark: UnitMark, n: usize) -> Cut
        requires mark { IsMarkOf self mark }
        requires last { RoundsDownTo (view_units self) n mark.units }
        ensures cut { CutsBefore (view_points self.entry) n result.position (option_to_list result.surrogate) }
        ensures lead { IfSome result.surrogate (λ l. IsLead l) }
        ensures order { result.position ≤ mark.position }
    {
        let position = mark.position;
        let (front, pair) = self.bytes.split_at(position);
        if mark.units != n {
            let surrogate = Some(encoding::read_lead(pair));
            return Cut {
                position,
                surrogate,
            };
        }
        match Wtf8::from_well_formed(front).final_lead_surrogate() {
            Some(lead) => Cut {
                position: position - 3,
                surrogate: Some(lead as u16),
            },
            None => Cut {
                position,
                surrogate: None,
            },
        }
    }

    /// The boundary after the cut after `n` units. The trail surrogate directly after the cut, if there is one, lone or of
    /// the pair that the cut splits, is before the boundary.
    pub(crate) fn cut_after(self, mark: UnitMark, n: usize) -> Cut
        requires mark { IsMarkOf self mark }
        requires last { RoundsDownTo (view_units self) n mark.units }
        ensures cut { CutsAfter (view_points self.entry) n result.position (option_to_list result.surrogate) }
        ensures trail { IfSome result.surrogate (λ t. IsTrail t) }
        ensures order { mark.position ≤ result.position }
        ensures within { result.position ≤ length self.entry.bytes.now }
    {
        let position = mark.position;
        if mark.units != n {
            let (_, last_two) = self.bytes.split_at(position + 2);
            return Cut {
                position: position + 4,
                surrogate: Some(encoding::read_trail(last_two)),
            };
        }
        match self.slice_from_mark(mark).initial_trail_surrogate() {
            Some(trail) => Cut {
                position: position + 3,
                surrogate: Some(trail as u16),
            },
            None => Cut {
                position,
                surrogate: None,
            },
        }
    }
}
