// `Wtf8Buf`, the owned string.
ghost use Rattle.std.specs.Prelude.{◌≡◌, ℕ, List, [], ◌∷◌, ◌++◌, ◌+◌, ◌*◌, ◌<◌, ◌≤◌, length, take, IsTrue, OnOk, OnErr, IsOk, IfOk, IfErr, ◌↔◌, vec_capacity, if◌then◌else◌};
ghost use Rattle.std.specs.List.{All};
ghost use Rattle.std.specs.Str.{chars};
ghost use Rattle.std.specs.String.{string_bytes};
ghost use Rattle.wtf8.specs.Appending.{AppendsUnits, KeepsContents, HasRoomFor, AddsLength, FitWithin};
ghost use Rattle.wtf8.specs.Building.{Truncates};
ghost use Rattle.wtf8.specs.CodePoint.{number};
ghost use Rattle.wtf8.specs.Editing.{spliced};
ghost use Rattle.wtf8.specs.Form.{IsWellFormed, IsForm, Reads, bytes, encoding};
ghost use Rattle.wtf8.specs.OneForm.{IsWellFormed-prop, form_of};
ghost use Rattle.wtf8.specs.Position.{IsBoundary, IsFront};
ghost use Rattle.wtf8.specs.Surrogates.{AreScalar, lossy_points};
ghost use Rattle.wtf8.specs.private.Middles.{middle_units};
ghost use Rattle.wtf8.specs.private.Prefixes.{AreScalarTo, AreScalarTo-prop};
ghost use Rattle.wtf8.specs.private.Search.{IsFirst, SurrogateAt};
ghost use Rattle.wtf8.specs.Unicode.{IsUnit, units, units_of};
ghost use Rattle.std.specs.Option.{option_to_list};
ghost use Rattle.wtf8.specs.UnitMark.{IsMark, RoundsDownTo};
ghost use Rattle.wtf8.specs.UnitPosition.{units_of_slice, TruncatesUnits};
ghost use Rattle.wtf8.specs.UnitString.{UnitString, unit_string_code};
ghost use Rattle.wtf8.specs.Utf8.{LeavesUnfinished, lossy_chars};
ghost use Rattle.wtf8.specs.View.{view_points, view_units};

use crate::codec::code_point::CodePoint;
use crate::codec::encoding;
use crate::from_utf16::transcode;
use crate::lanes::search;
use crate::strings::lossy::{self, replace_surrogates};
use crate::strings::middle::Middle;
use crate::strings::utf8_prefix::Utf8Prefix;
use crate::strings::view::Wtf8;
use crate::strings::{appending, editing};
use crate::units::counts::UnitCursor;
use crate::units::marks::UnitMark;
use crate::units::positions::find_cut;
use crate::units::slices::UnitSlice;
use crate::vec;
use std::alloc::{AllocError, Allocator};
use std::marker::Model;

/// An owned string of well-formed WTF-8 that can grow.
///
/// Contracts see its code units, its bytes, which are the well-formed form of these units, and its capacity.
/// They do not see how much of it is known to hold no surrogate. That knowledge saves `into_string` and
/// `into_string_lossy` a search; equality, order, hash, display and debug text ignore it.
///
/// ```
/// use std::alloc::{AllocError, Global};
/// use wtf8::Wtf8Buf;
///
/// /// Makes a file name from any code units and an extension.
/// fn with_ending(alloc: Global, name: &[u16]) -> Result<Wtf8Buf<Global>, AllocError> {
///     let mut file = Wtf8Buf::from_ill_formed_utf16(alloc, name)?;
///     if file.is_empty() {
///         file.push_str("unnamed")?;
///     }
///     // If memory is refused, `push_str` leaves `file` unchanged.
///     file.push_str(".txt")?;
///     Ok(file)
/// }
/// ```
#[derive(Drop)]
pub struct Wtf8Buf<A: Allocator> {
    bytes: Vec<u8, A>,

    utf8_prefix: Utf8Prefix,
    ghost well_formed: { IsWellFormed bytes.items } by { IsWellFormed-prop bytes.items },
    ghost scalar_prefix: { AreScalarTo utf8_prefix.len well_formed.points } by { AreScalarTo-prop utf8_prefix.len well_formed.points },
}

impl<A: Allocator> Model for Wtf8Buf<A> {
    ghost Value = { UnitString };

    ghost coded = { unit_string_code };

    ghost view = { λ b. record {
      units = units b.well_formed.points;
      bytes = b.bytes.items;
      form = form_of b.well_formed;
      capacity = vec_capacity b.bytes;
      fits = rw (← b.bytes.ok.0) b.bytes.ok.1;
    } };
}

fn from_well_formed<A: Allocator>(bytes: Vec<u8, A>, utf8_prefix: Utf8Prefix) -> Wtf8Buf<A>
    requires well_formed { IsWellFormed bytes.items }
    requires scalar { (h : IsWellFormed bytes.items) → AreScalarTo utf8_prefix.len h.points }
    ensures bytes { result.bytes ≡ bytes.items }
    ensures units { (h : IsWellFormed bytes.items) → result.units ≡ units h.points }
    ensures capacity { result.capacity ≡ vec_capacity bytes }
{
    Wtf8Buf { bytes, utf8_prefix }
}

impl<A: Allocator> Wtf8Buf<A> {
    /// Makes an empty string. Does not allocate.
    pub fn new(alloc: A) -> Wtf8Buf<A>
        ensures units { result.units ≡ [] }
        ensures bytes { result.bytes ≡ [] }
        ensures capacity { result.capacity ≡ 0 }
    {
        from_well_formed(Vec::new(alloc), Utf8Prefix::ALL)
    }

    /// Makes an empty string with room for at least `n` bytes. Does not allocate if `n` is 0.
    pub fn with_capacity(alloc: A, n: usize) -> Result<Wtf8Buf<A>, AllocError>
        ensures units { IfOk result (λ b. b.units ≡ []) }
        ensures bytes { IfOk result (λ b. b.bytes ≡ []) }
        ensures capacity { IfOk result (λ b. n ≤ b.capacity) }
        ensures zero { n ≡ 0 → IsOk result }
    {
        let bytes = Vec::with_capacity(alloc, n)?;
        Ok(from_well_formed(bytes, Utf8Prefix::ALL))
    }

    /// Converts a `String`, reusing its buffer. Does not allocate.
    pub fn from_string(string: String<A>) -> Wtf8Buf<A>
        ensures units { result.units ≡ units (chars (string_bytes string)) }
        ensures bytes { result.bytes ≡ string_bytes string }
        ensures scalar { AreScalar result.form.points }
    {
        from_well_formed(string.into_bytes(), Utf8Prefix::ALL)
    }

    /// Copies a `&str`. An empty one does not allocate. Linear in its length.
    pub fn from_str(alloc: A, value: &str) -> Result<Wtf8Buf<A>, AllocError>
        ensures units { IfOk result (λ b. b.units ≡ units (chars value.now)) }
        ensures bytes { IfOk result (λ b. b.bytes ≡ value.now) }
        ensures scalar { IfOk result (λ b. AreScalar b.form.points) }
        ensures empty { value.now ≡ [] → IsOk result }
    {
        let bytes = vec::to_vec_in(alloc, value.as_bytes())?;
        Ok(from_well_formed(bytes, Utf8Prefix::ALL))
    }

    /// Makes the string with the code units `v`, paired or not, without spare capacity. Requests memory at most twice,
    /// and does not allocate if `v` is empty. Linear in the number of units.
    ///
    /// ```
    /// use std::alloc::{AllocError, Global};
    /// use wtf8::Wtf8Buf;
    ///
    /// /// A surrogate pair, which is one code point of four bytes, and a lone lead surrogate: F0 9F 92 A9 ED A0 BD.
    /// fn pair_and_lead(alloc: Global) -> Result<Wtf8Buf<Global>, AllocError> {
    ///     // If memory is refused, the result is `Err` and no string is made.
    ///     Wtf8Buf::from_ill_formed_utf16(alloc, &[0xD83D, 0xDCA9, 0xD83D])
    /// }
    /// ```
    pub fn from_ill_formed_utf16(alloc: A, v: &[u16]) -> Result<Wtf8Buf<A>, AllocError>
        ensures units { IfOk result (λ b. b.units ≡ v.now) }
        ensures form { IfOk result (λ b. (w : List ℕ) → IsForm w v.now → b.bytes ≡ w) }
        ensures empty { v.now ≡ [] → IsOk result }
    {
        let (bytes, is_utf8) = transcode::encode(alloc, v)?;
        Ok(from_well_formed(bytes, Utf8Prefix::new(is_utf8)))
    }

    /// Copies the string, with a clone of its allocator. Linear in the length.
    #[inline(always)]
    pub fn clone(&self) -> Result<Wtf8Buf<A>, AllocError>
    where
        A: Clone,
        ensures units { IfOk result (λ b. b.units ≡ self.now.units) }
        ensures bytes { IfOk result (λ b. b.bytes ≡ self.now.bytes) }
    {
        let alloc = self.bytes.allocator().clone()?;
        let bytes = vec::to_vec_in(alloc, self.bytes.as_slice())?;
        Ok(from_well_formed(bytes, self.utf8_prefix))
    }

    /// Reserves capacity for at least `additional` more bytes, and does not allocate if there is enough. The units and
    /// bytes of the string never change, even if memory is refused. Linear in the length if it allocates.
    pub fn reserve(&mut self, additional: usize) -> Result<(), AllocError>
        ensures ok { OnOk result (length self.new.bytes + additional ≤ self.new.capacity) }
        ensures units { self.new.units ≡ self.old.units }
        ensures bytes { self.new.bytes ≡ self.old.bytes }
        ensures room { length self.old.bytes + additional ≤ self.old.capacity → IsOk result }
        ensures capacity { self.old.capacity ≤ self.new.capacity }
    {
        let len = self.bytes.len();
        self.bytes.reserve(additional)?;
        // This removes nothing: it tells the compiler the length, which a loop that follows then keeps in a register.
        // Without it `extend` takes 17.2 instructions a unit for 16.2 of ASCII, and 35.2 for 33.2 of Latin.
        self.bytes.truncate(len);
        Ok(())
    }

    /// Releases spare capacity if the allocator agrees, else keeps it. An empty string releases all of it. The units
    /// and bytes of the string never change. Linear in the length if it allocates.
    pub fn shrink_to_fit(&mut self)
        ensures units { self.new.units ≡ self.old.units }
        ensures bytes { self.new.bytes ≡ self.old.bytes }
        ensures capacity { self.new.capacity ≤ self.old.capacity }
        ensures empty { self.old.bytes ≡ [] → self.new.capacity ≡ 0 }
    {
        self.bytes.shrink_to_fit();
    }

    /// The number of bytes that the string can hold without allocating: at least the length.
    pub fn capacity(&self) -> usize
        ensures value { result ≡ self.now.capacity }
        ensures at_least_length { length self.now.bytes ≤ result }
    {
        self.bytes.capacity()
    }

    /// The length in bytes: at least the number of code units, and at most three times that.
    pub fn len(&self) -> usize
        ensures bytes { result ≡ length self.now.bytes }
        ensures at_least_units { length self.now.units ≤ result }
        ensures at_most_three_times { result ≤ 3 * length self.now.units }
    {
        self.as_wtf8().len()
    }

    /// Whether the string is empty.
    pub fn is_empty(&self) -> bool
        ensures units { IsTrue result ↔ self.now.units ≡ [] }
        ensures bytes { IsTrue result ↔ self.now.bytes ≡ [] }
    {
        self.as_wtf8().is_empty()
    }

    /// A view of the whole string.
    pub fn as_wtf8(&self) -> Wtf8<'_>
        ensures bytes { result.bytes.now ≡ self.now.bytes }
        ensures points { view_points result ≡ self.now.form.points }
        ensures units { view_units result ≡ self.now.units }
    {
        Wtf8::from_well_formed(self.bytes.as_slice())
    }

    /// Appends a code point. A trail surrogate after a lead surrogate completes the pair: the three bytes of the lead
    /// become the four of one supplementary code point. If memory is refused, the string is unchanged. Amortized
    /// constant.
    #[inline(always)]
    pub fn push(&mut self, code_point: CodePoint) -> Result<(), AllocError>
        ensures ok { OnOk result (AppendsUnits self.old (units_of (number code_point)) self.new) }
        ensures kept { OnErr result (KeepsContents self.old self.new) }

        ensures one_unit { number code_point < 0x10000 → OnOk result (AppendsUnits self.old (number code_point ∷ []) self.new) }

        // A push whose bytes fit is never refused, and the capacity never shrinks.
        ensures room { HasRoomFor self.old (units_of (number code_point)) → IsOk result }
        ensures capacity { self.old.capacity ≤ self.new.capacity }

        // In bytes: the length grows by at most the code point's encoded length, and spare capacity for that is enough.
        ensures at_most { OnOk result (length self.new.bytes ≤ length self.old.bytes + length (encoding (number code_point))) }
        ensures room_left { length self.old.bytes + length (encoding (number code_point)) ≤ self.old.capacity → IsOk result }
    {
        appending::push(&mut self.bytes, &mut self.utf8_prefix, code_point)
    }

    /// Appends a character. If memory is refused, the string is unchanged. Amortized constant.
    #[inline(always)]
    #[tactic(auto, using(crate::proofs::lemmas::codec::Encoding::encoding_one))]
    pub fn push_char(&mut self, c: char) -> Result<(), AllocError>
        ensures ok { OnOk result (AppendsUnits self.old (units_of c) self.new) }
        ensures kept { OnErr result (KeepsContents self.old self.new) }

        ensures one_unit { c < 0x10000 → OnOk result (AppendsUnits self.old (c ∷ []) self.new) }

        ensures room { HasRoomFor self.old (units_of c) → IsOk result }
        ensures capacity { self.old.capacity ≤ self.new.capacity }

        ensures bytes { OnOk result (self.new.bytes ≡ self.old.bytes ++ encoding c) }
        ensures at_most { OnOk result (length self.new.bytes ≤ length self.old.bytes + length (encoding c)) }
        ensures room_left { length self.old.bytes + length (encoding c) ≤ self.old.capacity → IsOk result }

        ensures ascii_length { c < 0x80 → OnOk result (length self.new.bytes ≡ length self.old.bytes + 1) }
        ensures ascii_room { c < 0x80 → length self.old.bytes + 1 ≤ self.old.capacity → IsOk result }
    {
        appending::push_char(&mut self.bytes, c)
    }

    /// Appends a `&str`. If memory is refused, the string is unchanged. Amortized linear in its length.
    pub fn push_str(&mut self, other: &str) -> Result<(), AllocError>
        ensures ok { OnOk result (AppendsUnits self.old (units (chars other.now)) self.new) }
        ensures kept { OnErr result (KeepsContents self.old self.new) }

        ensures room { HasRoomFor self.old (units (chars other.now)) → IsOk result }
        ensures empty { other.now ≡ [] → IsOk result }
        ensures capacity { self.old.capacity ≤ self.new.capacity }

        ensures at_most { OnOk result (length self.new.bytes ≤ length self.old.bytes + length other.now) }
        ensures room_left { length self.old.bytes + length other.now ≤ self.old.capacity → IsOk result }
        ensures nothing { other.now ≡ [] → KeepsContents self.old self.new }
    {
        appending::push_str(&mut self.bytes, other)
    }

    /// Appends bytes read as UTF-8, with U+FFFD for each maximal part that is not, as `String::from_utf8_lossy` of the
    /// standard library does. If memory is refused, the string is unchanged. Amortized linear in their number.
    pub fn push_utf8_lossy(&mut self, text: &[u8]) -> Result<(), AllocError>
        ensures ok { OnOk result (AppendsUnits self.old (units (lossy_chars text.now)) self.new) }
        ensures kept { OnErr result (KeepsContents self.old self.new) }

        ensures room { HasRoomFor self.old (units (lossy_chars text.now)) → IsOk result }
        ensures empty { text.now ≡ [] → IsOk result }
        ensures capacity { self.old.capacity ≤ self.new.capacity }

        // What is appended begins at a boundary.
        ensures front { OnOk result (IsFront self.new.units (length self.old.bytes) self.old.units) }
    {
        lossy::push_lossy(&mut self.bytes, text)
    }

    /// Appends bytes as `push_utf8_lossy` does, but leaves out a code point that is unfinished at their end, at most three
    /// bytes: these go before the bytes that come next, so that a text may be cut anywhere. Returns how many are before
    /// them. If memory is refused, the string is unchanged.
    pub fn push_utf8_lossy_part(&mut self, text: &[u8]) -> Result<usize, AllocError>
        ensures used { IfOk result (LeavesUnfinished text.now) }
        ensures few { IfOk result (λ used. length text.now ≤ used + 3) }
        ensures ok { IfOk result (λ used. AppendsUnits self.old (units (lossy_chars (take used text.now))) self.new) }
        ensures kept { OnErr result (KeepsContents self.old self.new) }

        ensures room { (used : ℕ) → LeavesUnfinished text.now used → HasRoomFor self.old (units (lossy_chars (take used text.now))) → IsOk result }
        ensures empty { text.now ≡ [] → IsOk result }
        ensures capacity { self.old.capacity ≤ self.new.capacity }

        ensures front { OnOk result (IsFront self.new.units (length self.old.bytes) self.old.units) }
    {
        let used = lossy::finished_len(text);
        self.push_utf8_lossy(&text[..used])?;
        Ok(used)
    }

    /// Appends another string. A trail surrogate at its front completes a lead surrogate at the end: the two become one
    /// supplementary code point, and the length grows by the other's length minus 2. If memory is refused, the string
    /// is unchanged. Amortized linear in the other's length.
    ///
    /// ```
    /// use std::alloc::Global;
    /// use wtf8::{Wtf8, Wtf8Buf};
    ///
    /// /// Appends a piece, and returns whether there was memory for it.
    /// fn append(text: &mut Wtf8Buf<Global>, piece: Wtf8<'_>) -> bool {
    ///     match text.push_wtf8(piece) {
    ///         // If a lead ended `text` and a trail begins `piece`, they are one code point now.
    ///         Ok(()) => true,
    ///         // `text` is unchanged.
    ///         Err(_) => false,
    ///     }
    /// }
    /// ```
    #[inline(always)]
    pub fn push_wtf8(&mut self, other: Wtf8<'_>) -> Result<(), AllocError>
        ensures ok { OnOk result (AppendsUnits self.old (view_units other.entry) self.new) }
        ensures kept { OnErr result (KeepsContents self.old self.new) }

        ensures length { OnOk result (AddsLength self.old other.entry self.new) }

        ensures room { HasRoomFor self.old (view_units other.entry) → IsOk result }
        ensures empty { view_units other.entry ≡ [] → IsOk result }
        ensures capacity { self.old.capacity ≤ self.new.capacity }

        ensures at_most { OnOk result (length self.new.bytes ≤ length self.old.bytes + length other.entry.bytes.now) }
        ensures room_left { length self.old.bytes + length other.entry.bytes.now ≤ self.old.capacity → IsOk result }
        ensures nothing { other.entry.bytes.now ≡ [] → KeepsContents self.old self.new }
    {
        appending::push_wtf8(&mut self.bytes, &mut self.utf8_prefix, other)
    }

    /// Appends 16-bit code units, paired or not. A trail surrogate at their front completes a lead surrogate at the
    /// end. If memory is refused, the string is unchanged. Units that do not fit are counted, so that their bytes are
    /// reserved at once. Amortized linear in the number of units.
    #[inline(always)]
    pub fn push_ill_formed_utf16(&mut self, v: &[u16]) -> Result<(), AllocError>
        ensures ok { OnOk result (AppendsUnits self.old v.now self.new) }
        ensures kept { OnErr result (KeepsContents self.old self.new) }

        ensures room { HasRoomFor self.old v.now → IsOk result }
        ensures empty { v.now ≡ [] → IsOk result }
        ensures capacity { self.old.capacity ≤ self.new.capacity }

        ensures at_most { OnOk result (length self.new.bytes ≤ length self.old.bytes + 3 * length v.now) }
        ensures room_left { length self.old.bytes + 3 * length v.now ≤ self.old.capacity → IsOk result }
        ensures nothing { v.now ≡ [] → KeepsContents self.old self.new }
    {
        appending::push_units(&mut self.bytes, v, &mut self.utf8_prefix)
    }

    /// Appends a 16-bit code unit. A trail surrogate after a lead surrogate completes the pair. If memory is refused,
    /// the string is unchanged. Amortized constant.
    #[inline(always)]
    pub fn push_unit(&mut self, unit: u16) -> Result<(), AllocError>
        ensures ok { OnOk result (AppendsUnits self.old (unit ∷ []) self.new) }
        ensures kept { OnErr result (KeepsContents self.old self.new) }

        ensures room { HasRoomFor self.old (unit ∷ []) → IsOk result }
        ensures capacity { self.old.capacity ≤ self.new.capacity }
    {
        self.push(CodePoint::from_unit(unit))
    }

    /// Appends a part that was cut at code units: its whole code points between the halves of pairs that the cuts
    /// split. A string that is cut at any unit, even inside a pair, is whole again after the second part is appended to
    /// the first. If memory is refused, the string is unchanged. Amortized linear in the length of the part.
    pub fn push_unit_slice(&mut self, slice: UnitSlice<'_>) -> Result<(), AllocError>
        ensures ok { OnOk result (AppendsUnits self.old (units_of_slice slice.entry) self.new) }
        ensures kept { OnErr result (KeepsContents self.old self.new) }

        ensures room { HasRoomFor self.old (units_of_slice slice.entry) → IsOk result }
        ensures empty { units_of_slice slice.entry ≡ [] → IsOk result }
        ensures capacity { self.old.capacity ≤ self.new.capacity }
    {
        let len = self.bytes.len();
        let utf8_prefix = self.utf8_prefix;
        let lead = self.as_wtf8().final_lead_surrogate();
        let pushed = self.push_parts(slice);
        if pushed.is_err() {
            appending::take_back(&mut self.bytes, len, lead);
            self.utf8_prefix = utf8_prefix;
        }
        pushed
    }

    /// Appends the parts of a slice, one by one. If memory is refused, the parts before may have been appended.
    fn push_parts(&mut self, slice: UnitSlice<'_>) -> Result<(), AllocError>
        ensures ok { OnOk result (AppendsUnits self.old (units_of_slice slice.entry) self.new) }
        ensures some { (v : List ℕ) × AppendsUnits self.old v self.new }
        ensures room { HasRoomFor self.old (units_of_slice slice.entry) → IsOk result }
        ensures capacity { self.old.capacity ≤ self.new.capacity }
    {
        self.push_half(slice.trail)?;
        self.push_wtf8(slice.whole)?;
        self.push_half(slice.lead)
    }

    fn push_half(&mut self, half: Option<u16>) -> Result<(), AllocError>
        ensures ok { OnOk result (AppendsUnits self.old (option_to_list half) self.new) }
        ensures kept { OnErr result (KeepsContents self.old self.new) }
        ensures room { HasRoomFor self.old (option_to_list half) → IsOk result }
        ensures capacity { self.old.capacity ≤ self.new.capacity }
    {
        match half {
            Some(unit) => self.push_unit(unit),
            None => Ok(()),
        }
    }

    /// Shortens the string to `new_len` bytes, which must be a code point boundary (`Wtf8::is_code_point_boundary`).
    pub fn truncate(&mut self, new_len: usize)
        requires { IsBoundary self.old.units new_len }
        ensures units { IsFront self.old.units new_len self.new.units }
        ensures bytes { self.new.bytes ≡ take new_len self.old.bytes }
        ensures capacity { self.new.capacity ≡ self.old.capacity }
    {
        self.utf8_prefix = self.utf8_prefix.after_truncate(new_len);
        self.bytes.truncate(new_len)
    }

    /// Empties the string and keeps its capacity. Does not allocate.
    pub fn clear(&mut self)
        ensures units { self.new.units ≡ [] }
        ensures bytes { self.new.bytes ≡ [] }
        ensures capacity { self.new.capacity ≡ self.old.capacity }
    {
        self.utf8_prefix = Utf8Prefix::ALL;
        self.bytes.clear()
    }

    /// Shortens the string to `n` code units, which must be at most the number of code units. If that splits a
    /// surrogate pair, its lead stays as a lone surrogate: three bytes in place of four. Does not allocate. Linear in
    /// `n`: units are counted from the front each time. To cut units off the end again and again, take
    /// `truncate_units_at` with the mark that `mark_back` finds from the end.
    pub fn truncate_units(&mut self, n: usize)
        requires { n ≤ length self.old.units }
        ensures units { self.new.units ≡ take n self.old.units }

        // If position `k` is the code point boundary after the first `n` units, the first `k` bytes stay.
        ensures bytes { (k : ℕ) → IsFront self.old.units k (take n self.old.units) → self.new.bytes ≡ take k self.old.bytes }
        ensures capacity { self.new.capacity ≡ self.old.capacity }
    {
        self.try_truncate_units(n);
    }

    /// Shortens the string to `n` code units, as `truncate_units` does, but counts none: `mark` must be the mark that
    /// `mark_at` or `mark_back` finds for `n`, with `n` units before it, or one fewer if `n` splits a pair. Does not
    /// allocate. Constant.
    pub fn truncate_units_at(&mut self, mark: UnitMark, n: usize)
        requires mark { IsMark self.old.bytes self.old.units mark.position mark.units }
        requires last { RoundsDownTo self.old.units n mark.units }
        ensures units { self.new.units ≡ take n self.old.units }

        ensures bytes { (k : ℕ) → IsFront self.old.units k (take n self.old.units) → self.new.bytes ≡ take k self.old.bytes }
        ensures capacity { self.new.capacity ≡ self.old.capacity }
    {
        if mark.units == n {
            return self.truncate(mark.position);
        }
        let (_, pair) = self.as_wtf8().bytes.split_at(mark.position);
        let lead = encoding::read_lead(pair);
        self.utf8_prefix = self.utf8_prefix.up_to(mark.position);
        encoding::keep_lead(&mut self.bytes, mark.position, lead);
    }

    /// Replaces the code units from index `begin` to before `end` by others, paired or not. A pair that an end splits is
    /// cut, and a lead and a trail that meet become one code point, so any part can be inserted, removed or put back.
    /// `from` and `to` must be the marks that `mark_at` or `mark_back` finds for `begin` and `end`. If memory is
    /// refused, the string is unchanged; it is requested at most once, and not if the new string fits the capacity.
    /// Amortized linear in the number of new units and of the bytes after `begin`.
    pub fn replace_units_at(
        &mut self,
        from: UnitMark,
        begin: usize,
        to: UnitMark,
        end: usize,
        units: &[u16],
    ) -> Result<(), AllocError>
        requires order { begin ≤ end }
        requires from { IsMark self.old.bytes self.old.units from.position from.units }
        requires begin { RoundsDownTo self.old.units begin from.units }
        requires to { IsMark self.old.bytes self.old.units to.position to.units }
        requires end { RoundsDownTo self.old.units end to.units }
        ensures ok { OnOk result (self.new.units ≡ spliced self.old.units begin end units.now) }
        ensures kept { OnErr result (KeepsContents self.old self.new) }

        ensures room { FitWithin (spliced self.old.units begin end units.now) 0 self.old.capacity → IsOk result }
        ensures capacity { self.old.capacity ≤ self.new.capacity }
    {
        self.replace_middle(from, begin, to, end, Middle::Units(units))
    }

    /// Replaces the code units from index `begin` to before `end` by a string, as `replace_units_at` does by units, but
    /// copies its bytes.
    pub fn replace_at(
        &mut self,
        from: UnitMark,
        begin: usize,
        to: UnitMark,
        end: usize,
        text: Wtf8<'_>,
    ) -> Result<(), AllocError>
        requires order { begin ≤ end }
        requires from { IsMark self.old.bytes self.old.units from.position from.units }
        requires begin { RoundsDownTo self.old.units begin from.units }
        requires to { IsMark self.old.bytes self.old.units to.position to.units }
        requires end { RoundsDownTo self.old.units end to.units }
        ensures ok { OnOk result (self.new.units ≡ spliced self.old.units begin end (view_units text.entry)) }
        ensures kept { OnErr result (KeepsContents self.old self.new) }

        ensures room { FitWithin (spliced self.old.units begin end (view_units text.entry)) 0 self.old.capacity → IsOk result }
        ensures capacity { self.old.capacity ≤ self.new.capacity }
    {
        self.replace_middle(from, begin, to, end, Middle::View(text))
    }

    /// `replace_units_at` and `replace_at`, by units in either form.
    fn replace_middle(
        &mut self,
        from: UnitMark,
        begin: usize,
        to: UnitMark,
        end: usize,
        middle: Middle<'_>,
    ) -> Result<(), AllocError>
        requires order { begin ≤ end }
        requires from { IsMark self.old.bytes self.old.units from.position from.units }
        requires begin { RoundsDownTo self.old.units begin from.units }
        requires to { IsMark self.old.bytes self.old.units to.position to.units }
        requires end { RoundsDownTo self.old.units end to.units }
        requires units { All IsUnit (middle_units middle) }
        ensures ok { OnOk result (self.new.units ≡ spliced self.old.units begin end (middle_units middle.entry)) }
        ensures kept { OnErr result (KeepsContents self.old self.new) }
        ensures room { FitWithin (spliced self.old.units begin end (middle_units middle.entry)) 0 self.old.capacity → IsOk result }
        ensures capacity { self.old.capacity ≤ self.new.capacity }
    {
        let view = self.as_wtf8();
        let before = view.cut_before(from, begin);
        let after = view.cut_after(to, end);
        self.utf8_prefix = self.utf8_prefix.up_to(before.position);
        editing::replace(
            &mut self.bytes,
            before.position,
            after.position,
            before.surrogate,
            middle,
            after.surrogate,
        )
    }

    pub(crate) fn try_truncate(&mut self, position: usize) -> bool
        ensures { Truncates self.old.units position self.new.units (if result then 0 else 1) }
    {
        if !self.as_wtf8().is_code_point_boundary(position) {
            return false;
        }
        self.truncate(position);
        true
    }

    pub(crate) fn try_truncate_units(&mut self, n: usize) -> bool
        ensures units { TruncatesUnits self.old.units n self.new.units (if result then 0 else 1) }
        ensures capacity { self.new.capacity ≡ self.old.capacity }
    {
        let Some(cut) = find_cut(self.as_wtf8(), n) else {
            return false;
        };
        let UnitCursor { position, units } = cut;
        self.truncate_units_at(UnitMark { position, units }, n);
        true
    }

    /// Converts to a `String` without copying; returns the buffer unchanged if it holds a surrogate. Does not allocate.
    /// Linear in the bytes that are not known to hold no surrogate.
    pub fn into_string(self) -> Result<String<A>, Wtf8Buf<A>>
        ensures ok { IsOk result ↔ AreScalar self.form.points }
        ensures units { IsOk result ↔ ((c : List ℕ) → Reads c self.units → AreScalar c) }
        ensures bytes { IfOk result (λ t. string_bytes t ≡ self.bytes) }
        ensures same_back { IfErr result (λ b. b ≡ self) }
    {
        match self.first_surrogate() {
            None => {
                let Wtf8Buf { bytes, .. } = self;
                Ok(unsafe { String::from_utf8_unchecked(bytes) })
            }
            Some(_) => Err(self),
        }
    }

    /// Converts to a `String` with U+FFFD written over each surrogate in place, so that the length in bytes stays the
    /// same. Does not allocate. Linear in the length, and constant if the string is known to hold no surrogate.
    pub fn into_string_lossy(self) -> String<A>
        ensures text { string_bytes result ≡ bytes (lossy_points self.form.points) }
        ensures len { length (string_bytes result) ≡ length self.bytes }
    {
        let is_utf8 = self.is_utf8();
        let Wtf8Buf { mut bytes, .. } = self;
        if !is_utf8 {
            replace_surrogates(bytes.as_mut_slice());
        }
        unsafe { String::from_utf8_unchecked(bytes) }
    }

    /// Whether the UTF-8 prefix is the whole string. If it is not, the rest may hold no surrogate either.
    #[inline(always)]
    fn is_utf8(&self) -> bool
        ensures { IsTrue result → AreScalar self.now.form.points }
    {
        self.bytes.len() <= self.utf8_prefix.len
    }

    fn first_surrogate(&self) -> Option<usize>
        ensures { IsFirst (SurrogateAt self.now.bytes) 0 result }
    {
        if self.is_utf8() {
            return None;
        }
        search::next_surrogate(&self.bytes, self.utf8_prefix.len)
    }
}
