// Laws of the encoding: functions that do nothing, whose contracts are theorems. `PROVING.md` says how they are used.
#![tactic(auto, using(crate::proofs::lemmas::laws::ViewLaws::laws))]

ghost use Rattle.std.specs.Cmp.Lexicographic.{slice_cmp};
ghost use Rattle.std.specs.List.{All, HoldsAt};
ghost use Rattle.std.specs.List.Sorted.{IsBinarySearchResult, IsSorted};
ghost use Rattle.std.specs.Ordering.{nat_cmp, on};
ghost use Rattle.std.specs.Prelude.{◌≡◌, ◌≢◌, ◌<◌, ◌≤◌, ◌+◌, ◌-◌, ◌*◌, ◌^◌, ℕ, List, ◌∷◌, ◌++◌, length, take, drop, slice_index, Err, ◌↔◌};
ghost use Rattle.std.specs.Str.{chars};
ghost use Rattle.wtf8.specs.Laws.{UnitsHaveOneReading, ReadingsAreOfUnits, UnitsHaveOneForm, FormsAreOfOneList, EqualFormsHaveEqualUnits};
ghost use Rattle.wtf8.specs.Laws.{NoEncodingBeginsAnother, BytesBeginWithOnePoint, EqualBytesAreOfEqualPoints, ByteOrderIsPointOrder, GlueMakesPair};
ghost use Rattle.wtf8.specs.Laws.{GlueKeepsOthers, GlueReadsBoth, GlueFormsBoth, PairFormsBoth, OthersFormBoth, GlueIsAssociative};
ghost use Rattle.wtf8.specs.Laws.{EmptyFrontIsNeutral, EmptyBackIsNeutral, FrontAndBackAreWhole, FirstUnitsAndRestAreWhole};
ghost use Rattle.wtf8.specs.EncodingLaws.{AsciiIsOneByte, ScalarsAreInUtf8, LowPointsAreOneUnit, PairsAreTwoUnits};
ghost use Rattle.wtf8.specs.PositionLaws.{EqualBoundariesHaveEqualFronts, BoundariesAreInOneOrder, BoundariesDivideNoPair, StartIsBoundary};
ghost use Rattle.wtf8.specs.PositionLaws.{EndIsBoundary, NoneIsBeyondEnd, AsciiIsBetweenBoundaries, AsciiIsOneUnit, AsciiIsNoOtherUnit};
ghost use Rattle.wtf8.specs.PositionLaws.{FrontBoundariesAreOfWhole, WholeBoundariesAreOfFront, WholeBoundariesAreOfBack, BackBoundariesAreOfWhole};
ghost use Rattle.wtf8.specs.PositionLaws.{BeginningsAreNoLonger, BothAreNoLonger, PointsHaveOneToFourBytes, ListsHaveLengths};
ghost use Rattle.wtf8.specs.StringLaws.{EqualBuffersHaveEqualUnits, EqualBufferAndViewHaveEqualUnits, EqualViewsHaveEqualUnits, StringsAreJoined};
ghost use Rattle.wtf8.specs.StringLaws.{StringsArePaired, BytesCompareAsPoints, EqualBuffersCompareEqual, EqualViewsCompareEqual, ComparisonIsOrder};
ghost use Rattle.wtf8.specs.StringLaws.{RoomLeftIsFound, ScalarsStay, FormsAreOfBuffers, FormsAreOfViews, WhatFitsIsFound, CharactersComeBack};
ghost use Rattle.wtf8.specs.Building.{CallsRunOnce, RunsAddUp, Run};
ghost use Rattle.wtf8.specs.CodePoint.{number};
ghost use Rattle.wtf8.specs.Form.{Reads, bytes, encoding};
ghost use Rattle.wtf8.specs.PointLaws.{DrainedPointsAreLeft, DrainedPointsAreTaken, DrainedPointsAreAfterSkip, CollectedPointsAreLeft, CollectedPointsAreTaken, CollectedPointsAreAfterSkip};
ghost use Rattle.wtf8.specs.Position.{IsBoundary, IsFront, IsBack};
ghost use Rattle.wtf8.specs.Surrogates.{AreScalar, lossy_points};
ghost use Rattle.wtf8.specs.UnitMark.{IsMark, IsMarkOf, RoundsDownTo, EqualCountsAreMarks, MarksStay, MarksStayInFront, MarksDivideNoPair};
ghost use Rattle.wtf8.specs.UnitMark.{EqualMarksHaveEqualUnits, MarksAreInOneOrder, MarksAreFoundAgain, BoundariesAreMarks};
ghost use Rattle.wtf8.specs.Unicode.{IsLead, IsTrail};
ghost use Rattle.wtf8.specs.UnitPosition.{DividesPair};
ghost use Rattle.wtf8.specs.View.{view_points, view_units};

use crate::buffers::buf::Wtf8Buf;
use crate::buffers::build::Build;
use crate::codec::code_point::CodePoint;
use crate::strings::view::Wtf8;
use crate::units::marks::UnitMark;
use std::alloc::Allocator;
use std::cmp::Ordering;

/// Each list of 16-bit units has exactly one reading: a list of code points with these units, in which no lead
/// surrogate is directly before a trail surrogate. Only lists of 16-bit units have a reading.
pub fn law_one_reading()
    ensures unique { UnitsHaveOneReading }
    ensures of_units { ReadingsAreOfUnits }
{}

/// Each list of 16-bit units has exactly one WTF-8 form, and well-formed bytes are the form of exactly one list. So two
/// strings have equal bytes if and only if they have equal units.
pub fn law_one_form()
    ensures unique { UnitsHaveOneForm }
    ensures back { FormsAreOfOneList }
    ensures equal { EqualFormsHaveEqualUnits }
{}

/// No code point's encoding is a prefix of another's, so bytes can be decoded from the front in one way only.
pub fn law_prefix_free()
    ensures begins { NoEncodingBeginsAnother }
    ensures reads { BytesBeginWithOnePoint }
{}

/// Byte order is code point order: two lists of code points are equal, or one comes before the other, if and only if
/// the same is true of their bytes. The standard library's comparison of slices gives this order for both, and `Equal`
/// for two buffers or two views if and only if their units are equal.
pub fn law_byte_order()
    ensures same { EqualBytesAreOfEqualPoints }
    ensures before { ByteOrderIsPointOrder }
    ensures compares { BytesCompareAsPoints }
    ensures order { ComparisonIsOrder }
    ensures equal_buffers { EqualBuffersCompareEqual }
    ensures equal_views { EqualViewsCompareEqual }
{}

/// What `binary_search` for `string` in a table that `sort` sorted says of units: at an index that it finds is a buffer
/// with the units of `string`, and if it finds none, no buffer of the table has these units.
pub fn law_binary_search<A: Allocator>(table: &[Wtf8Buf<A>], string: &Wtf8Buf<A>)
    ensures found { (i : ℕ) → HoldsAt (λ s. slice_cmp nat_cmp s.bytes string.now.bytes ≡ Ordering.Equal) table.now i → HoldsAt (λ s. s.units ≡ string.now.units) table.now i }
    ensures absent { (i : ℕ) → IsSorted (on (λ s. s.bytes) (slice_cmp nat_cmp)) table.now → IsBinarySearchResult (λ s. slice_cmp nat_cmp s.bytes string.now.bytes) table.now (Err i) → All (λ s. s.units ≢ string.now.units) table.now }
{}

/// The form of two concatenated lists of units is the concatenation of their forms, unless a lead surrogate ends the
/// first list and a trail surrogate begins the second: then the four bytes of the pair replace the six of the two
/// surrogates. This holds for every cut of a list in two, even inside a pair.
pub fn law_concat()
    ensures pair { GlueMakesPair }
    ensures others { GlueKeepsOthers }
    ensures reads { GlueReadsBoth }
    ensures form { GlueFormsBoth }
    ensures pair_bytes { PairFormsBoth }
    ensures other_bytes { OthersFormBoth }
{}

/// Appending is associative, and the empty string changes nothing at either end. A string that is cut at a code point
/// boundary, or after a number of units, is whole again if its parts are appended.
pub fn law_append()
    ensures associative { GlueIsAssociative }
    ensures empty_front { EmptyFrontIsNeutral }
    ensures empty_back { EmptyBackIsNeutral }
    ensures whole { FrontAndBackAreWhole }
    ensures cut { FirstUnitsAndRestAreWhole }
{}

/// From each list of units, a list of building calls has exactly one outcome and one count of refused truncations.
pub fn law_one_run()
    ensures { CallsRunOnce }
{}

/// Running two lists of calls in turn is running their concatenation, and their counts of refused truncations add up.
pub fn law_runs_add_up()
    ensures { RunsAddUp }
{}

/// The start, the end and both sides of an ASCII byte are code point boundaries, and none is past the end. The
/// boundaries of the part before or after a cut are those of the whole that lie in it, counted from the start or from
/// the cut. An ASCII byte is one unit, and an ASCII value that does not occur in the bytes does not occur in the units.
pub fn law_positions()
    ensures start { StartIsBoundary }
    ensures end { EndIsBoundary }
    ensures beyond { NoneIsBeyondEnd }
    ensures ascii { AsciiIsBetweenBoundaries }
    ensures unit { AsciiIsOneUnit }
    ensures none { AsciiIsNoOtherUnit }
    ensures front_in_whole { FrontBoundariesAreOfWhole }
    ensures whole_in_front { WholeBoundariesAreOfFront }
    ensures whole_in_back { WholeBoundariesAreOfBack }
    ensures back_in_whole { BackBoundariesAreOfWhole }
{}

/// Two boundaries of a string are equal if and only if the units before them are, and they have one order by positions
/// and by numbers of units. A cut at a boundary divides no pair, and a boundary is a mark of the number of units before
/// it.
pub fn law_fronts()
    ensures same { EqualBoundariesHaveEqualFronts }
    ensures order { BoundariesAreInOneOrder }
    ensures no_pair { BoundariesDivideNoPair }
    ensures mark { BoundariesAreMarks }
{}

/// What `law_fronts` says of a code point boundary of this view, which is at most its end. `within` needs no citation.
pub fn law_boundary(view: Wtf8<'_>, position: usize)
    requires { IsBoundary (view_units view) position }
    ensures within { position ≤ length view.entry.bytes.now }
    ensures front { (v : List ℕ) → IsFront (view_units view.entry) position v → v ≡ take (length v) (view_units view.entry) }
    ensures no_pair { (v : List ℕ) → IsFront (view_units view.entry) position v → ¬ (DividesPair (view_units view.entry) (length v)) }
    ensures mark { (v : List ℕ) → IsFront (view_units view.entry) position v → IsMark view.entry.bytes.now (view_units view.entry) position (length v) }
    ensures same { (v : List ℕ) (k : ℕ) → IsFront (view_units view.entry) position v → IsFront (view_units view.entry) k v → k ≡ position }
{}

/// If a string has as many bytes as units, every byte position is a mark. A mark before the last unit is still a mark
/// after units are appended, even if the last unit becomes part of a pair, and a mark within the first units is still
/// one after a truncation to these. A cut at a mark divides no pair, and two marks of a string have one order by
/// positions and by numbers of units, so the mark that is found for the number of units of another one is at its
/// position.
pub fn law_marks()
    ensures equal { EqualCountsAreMarks }
    ensures kept { MarksStay }
    ensures cut { MarksStayInFront }
    ensures no_pair { MarksDivideNoPair }
    ensures same { EqualMarksHaveEqualUnits }
    ensures order { MarksAreInOneOrder }
    ensures found { MarksAreFoundAgain }
{}

/// The position of a mark of this view is a code point boundary: exactly the units that the mark counts are before it,
/// and the others after it. A cut there divides no pair. Another mark of this view with the same number of units, as
/// `mark_at` finds it for that number, is at the same position. `boundary`, `before`, `after` and `no_pair` need no
/// citation; `front` and `back` are cited with their units, and `same`, `order` and `found` with the other mark.
pub fn law_mark(view: Wtf8<'_>, mark: UnitMark)
    requires { IsMarkOf view mark }
    ensures boundary { IsBoundary (view_units view.entry) mark.position }
    ensures before { IsFront (view_units view.entry) mark.position (take mark.units (view_units view.entry)) }
    ensures after { IsBack (view_units view.entry) mark.position (drop mark.units (view_units view.entry)) }
    ensures front { (v : List ℕ) → IsFront (view_units view.entry) mark.position v → v ≡ take mark.units (view_units view.entry) }
    ensures back { (v : List ℕ) → IsBack (view_units view.entry) mark.position v → v ≡ drop mark.units (view_units view.entry) }
    ensures no_pair { ¬ (DividesPair (view_units view.entry) mark.units) }
    ensures same { (other : UnitMark) → IsMarkOf view.entry other → (other.position ≡ mark.position) ↔ (other.units ≡ mark.units) }
    ensures order { (other : UnitMark) → IsMarkOf view.entry other → (other.position ≤ mark.position) ↔ (other.units ≤ mark.units) }
    ensures found { (other : UnitMark) → IsMarkOf view.entry other → RoundsDownTo (view_units view.entry) mark.units other.units → other.position ≡ mark.position }
{}

/// If a pair of this view is divided after `units` units, a lead is directly before the cut and a trail after it.
pub fn law_divided_pair(view: Wtf8<'_>, units: usize)
    ensures inside { DividesPair (view_units view.entry) units → (0 < units) × (units < length (view_units view.entry)) }
    ensures lead { DividesPair (view_units view.entry) units → IsLead (slice_index (view_units view.entry) (units - 1)) }
    ensures trail { DividesPair (view_units view.entry) units → IsTrail (slice_index (view_units view.entry) units) }
{}

/// The form of the first units of a list is no longer than that of the list, and the form of two concatenated lists no
/// longer than their two forms together. So there is room to append units to a string if their form fits into its spare
/// capacity.
pub fn law_room()
    ensures beginning { BeginningsAreNoLonger }
    ensures both { BothAreNoLonger }
    ensures found { RoomLeftIsFound }
    ensures fits { WhatFitsIsFound }
{}

/// A code point has one to four bytes. A list of code points has no more code points than units, no more units than
/// bytes, and at most three bytes for each unit.
pub fn law_lengths()
    ensures encoding { PointsHaveOneToFourBytes }
    ensures lists { ListsHaveLengths }
{}

/// Two buffers, a buffer and a view, or two views have equal bytes if and only if they have equal units. The form of a
/// string's units is its bytes.
pub fn law_equal_strings()
    ensures buffers { EqualBuffersHaveEqualUnits }
    ensures buffer_and_view { EqualBufferAndViewHaveEqualUnits }
    ensures views { EqualViewsHaveEqualUnits }
    ensures form_of_buffer { FormsAreOfBuffers }
    ensures form_of_view { FormsAreOfViews }
{}

/// These two views have equal bytes if and only if they have equal units.
pub fn law_equal_views(first: Wtf8<'_>, second: Wtf8<'_>)
    ensures { (first.entry.bytes.now ≡ second.entry.bytes.now) ↔ (view_units first.entry ≡ view_units second.entry) }
{}

/// An ASCII value that does not occur in this view's bytes does not occur in its units.
pub fn law_no_ascii(view: Wtf8<'_>, byte: u8)
    requires { byte < 0x80 }
    ensures { ((j : ℕ) → j < length view.entry.bytes.now → slice_index view.entry.bytes.now j ≢ byte) → All (λ x. x ≢ byte) (view_units view.entry) }
{}

/// The start and the end of this view, and both sides of each of its ASCII bytes, are code point boundaries.
pub fn law_boundaries(view: Wtf8<'_>)
    ensures start { IsBoundary (view_units view.entry) 0 }
    ensures end { IsBoundary (view_units view.entry) (length view.entry.bytes.now) }
    ensures before { (k : ℕ) → k < length view.entry.bytes.now → slice_index view.entry.bytes.now k < 0x80 → IsBoundary (view_units view.entry) k }
    ensures after { (k : ℕ) → k < length view.entry.bytes.now → slice_index view.entry.bytes.now k < 0x80 → IsBoundary (view_units view.entry) (k + 1) }
{}

/// The code points of this view are a reading of its units, and the only one.
pub fn law_view_reading(view: Wtf8<'_>)
    ensures reads { Reads (view_points view.entry) (view_units view.entry) }
    ensures unique { (c : List ℕ) → Reads c (view_units view.entry) → c ≡ view_points view.entry }
{}

/// This view has no more code points than units, no more units than bytes, and at most three bytes for each unit. It
/// has fewer than 2⁶⁴ units, and fewer than 2⁶⁴ bytes.
pub fn law_view_lengths(view: Wtf8<'_>)
    ensures points { length (view_points view.entry) ≤ length (view_units view.entry) }
    ensures units { length (view_units view.entry) ≤ length view.entry.bytes.now }
    ensures bytes { length view.entry.bytes.now ≤ 3 * length (view_units view.entry) }
    ensures fits { length view.entry.bytes.now < 2 ^ 64 }
    ensures units_fit { length (view_units view.entry) < 2 ^ 64 }
{
    prove!(view.len() <= usize::MAX);
}

/// The encoded length of this code point: one byte below 0x80, two below 0x800, three below 0x10000, else four.
#[tactic(auto, using(crate::proofs::lemmas::codec::Encoding::rows))]
pub fn law_encoding_length(code_point: CodePoint)
    ensures one { number code_point < 0x80 → length (encoding (number code_point)) ≡ 1 }
    ensures two { 0x80 ≤ number code_point → number code_point < 0x800 → length (encoding (number code_point)) ≡ 2 }
    ensures three { 0x800 ≤ number code_point → number code_point < 0x10000 → length (encoding (number code_point)) ≡ 3 }
    ensures four { 0x10000 ≤ number code_point → length (encoding (number code_point)) ≡ 4 }
    ensures at_least_one { 1 ≤ length (encoding (number code_point)) }
    ensures at_most_four { length (encoding (number code_point)) ≤ 4 }
{}

/// A code point below 0x80 is one byte of its value, a scalar value its UTF-8, and a code point below 0x10000 one unit
/// of its value. The code point of a lead and a trail is these two units.
pub fn law_encoding()
    ensures ascii { AsciiIsOneByte }
    ensures scalar { ScalarsAreInUtf8 }
    ensures one_unit { LowPointsAreOneUnit }
    ensures pair { PairsAreTwoUnits }
{}

/// `whole` has the units of `front`, the ASCII unit `separator` and the units of `back`, in turn, if and only if it has
/// the bytes of `front`, the byte `separator` and the bytes of `back`, in turn.
pub fn law_parted_by_ascii(whole: Wtf8<'_>, front: Wtf8<'_>, separator: u8, back: Wtf8<'_>)
    requires { separator < 0x80 }
    ensures { (whole.entry.bytes.now ≡ front.entry.bytes.now ++ separator ∷ back.entry.bytes.now) ↔ (view_units whole.entry ≡ view_units front.entry ++ separator ∷ view_units back.entry) }
{}

/// If the units of `whole` begin with the units of `front` and the ASCII unit `separator`, its bytes begin with the
/// bytes of `front` and the byte `separator`, and the units after that byte are the rest of its units.
pub fn law_begins_by_ascii(whole: Wtf8<'_>, front: Wtf8<'_>, separator: u8)
    requires { separator < 0x80 }
    ensures inside { (rest : List ℕ) → view_units whole.entry ≡ view_units front.entry ++ separator ∷ rest → length front.entry.bytes.now < length whole.entry.bytes.now }
    ensures front { (rest : List ℕ) → view_units whole.entry ≡ view_units front.entry ++ separator ∷ rest → take (length front.entry.bytes.now) whole.entry.bytes.now ≡ front.entry.bytes.now }
    ensures separator { (rest : List ℕ) → view_units whole.entry ≡ view_units front.entry ++ separator ∷ rest → slice_index whole.entry.bytes.now (length front.entry.bytes.now) ≡ separator }
    ensures after { (rest : List ℕ) → view_units whole.entry ≡ view_units front.entry ++ separator ∷ rest → IsBack (view_units whole.entry) (length front.entry.bytes.now + 1) rest }
{}

/// If this view holds no surrogate, the characters of its bytes, read as UTF-8, are its code points. The characters of
/// its lossy text are its code points with U+FFFD in place of each surrogate.
pub fn law_view_characters(view: Wtf8<'_>)
    ensures text { AreScalar (view_points view.entry) → chars view.entry.bytes.now ≡ view_points view.entry }
    ensures lossy_text { chars (bytes (lossy_points (view_points view.entry))) ≡ lossy_points (view_points view.entry) }
{}

/// The characters of an encoded list of scalar values, read as UTF-8, are that list.
pub fn law_characters()
    ensures { CharactersComeBack }
{}

/// From the same units this list of calls leads to the same units, with the same count of refused truncations.
#[tactic(auto, using(crate::proofs::lemmas::laws::ViewLaws::same_run))]
pub fn law_same_run(calls: &[Build<'_>])
    ensures units { (u v w : List ℕ) (m n : ℕ) → Run u calls.now v m → Run u calls.now w n → v ≡ w }
    ensures refused { (u v w : List ℕ) (m n : ℕ) → Run u calls.now v m → Run u calls.now w n → m ≡ n }
{}

/// An iterator over code points that is called until it returns `None` yields all that it had left. With `take` or
/// `skip` it yields the first of these, or the rest.
pub fn law_drained_points()
    ensures all { DrainedPointsAreLeft }
    ensures first { DrainedPointsAreTaken }
    ensures rest { DrainedPointsAreAfterSkip }
{}

/// `collect` of an iterator over code points makes its collection of all that the iterator had left. With `take` or
/// `skip` it makes it of the first of these, or of the rest.
pub fn law_collected_points()
    ensures all { CollectedPointsAreLeft }
    ensures first { CollectedPointsAreTaken }
    ensures rest { CollectedPointsAreAfterSkip }
{}

/// A string with the units of two others, one after the other, has their bytes, one after the other, unless a lead ends
/// the first and a trail begins the second: then the four bytes of that pair replace the six of the two surrogates.
pub fn law_joined_strings()
    ensures joined { StringsAreJoined }
    ensures paired { StringsArePaired }
{}

/// Making a list of scalar values lossy does not change it, so a text is its own lossy text.
pub fn law_lossy()
    ensures { ScalarsStay }
{}
