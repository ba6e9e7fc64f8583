// `Build`: building calls as values, applied one by one or as a list.
ghost use Rattle.std.specs.List.{All};
ghost use Rattle.std.specs.Prelude.{◌≡◌, ℕ, List, [], Some, ◌+◌, ◌≤◌, length, take, IfOk, OnOk, OnErr, IfErr, IsOk, IfSome, if◌then◌else◌};
ghost use Rattle.wtf8.specs.Appending.{AppendsUnits, HasRoomFor, Outgrows};

use crate::buffers::buf::Wtf8Buf;
use crate::codec::code_point::CodePoint;
use crate::strings::view::Wtf8;
use std::alloc::{AllocError, Allocator};

/// A building call on a string, as a value, so that lists of them can be applied.
#[derive(Clone, Copy)]
pub enum Build<'b> {
    /// `push` a code point.
    Push(CodePoint),
    /// `push_char` a character.
    PushChar(char),
    /// `push_str` a text.
    PushStr(&'b str),
    /// `push_wtf8` a string.
    PushWtf8(Wtf8<'b>),
    /// `extend` by the code points of a slice.
    Extend(&'b [CodePoint]),
    /// `reserve` capacity for this many more bytes.
    Reserve(usize),
    /// `truncate` to this many bytes; refused if that is no code point boundary.
    Truncate(usize),
    /// `truncate_units` to this many code units; refused if there are fewer.
    TruncateUnits(usize),
}

/// The error of `apply_all`: a call was refused memory, and the list stopped there.
#[derive(Clone, Copy, PartialEq, Eq, Debug)]
pub struct Stopped {
    /// The number of calls before the one that was refused memory, which is its index. Refused truncations count too.
    pub done: usize,
}

impl<A: Allocator> Wtf8Buf<A> {
    ghost use Rattle.wtf8.specs.Building.{Step, Run, LeavesRefused, StopsAt, appended_units, CallsAppend, IsNoExtension, IsNoTruncation, CallFits, EachCallFits, LeavesReserved};
    ghost use Rattle.wtf8.specs.declared.buffers.build.Build.TheVariants.{Reserve};

    /// Applies one call. `Ok(false)` means that a truncation was refused, because its position is no code point
    /// boundary or the string has fewer code units; it changes nothing. If memory is refused, the string is unchanged,
    /// except that the first code points of an `Extend` may be appended. A truncation needs no memory. Takes the time
    /// of the method that it calls.
    pub fn apply(&mut self, call: Build<'_>) -> Result<bool, AllocError>
        ensures step { IfOk result (λ kept. Step self.old.units call.entry self.new.units (if kept then 0 else 1)) }
        ensures refused { OnErr result (LeavesRefused self.old.units call.entry self.new.units) }
        ensures bytes_kept { OnErr result (IsNoExtension call.entry → self.new.bytes ≡ self.old.bytes) }
        ensures reserved { (n : ℕ) → call.entry ≡ Reserve n → OnOk result (length self.new.bytes + n ≤ self.new.capacity) }

        // A push or an extension whose bytes fit is never refused, nor is an empty one, nor a `reserve` that fits.
        ensures room { IfSome (appended_units call.entry) (λ v. HasRoomFor self.old v → IsOk result) }
        ensures empty { appended_units call.entry ≡ Some [] → IsOk result }
        ensures reserve_room { (n : ℕ) → call.entry ≡ Reserve n → length self.old.bytes + n ≤ self.old.capacity → IsOk result }
        ensures found { (v : List ℕ) → CallFits self.old.units call.entry v self.old.capacity → IsOk result }
        ensures capacity { IsNoTruncation call.entry → self.old.capacity ≤ self.new.capacity }
    {
        match call {
            Build::Push(code_point) => self.push(code_point)?,
            Build::PushChar(c) => self.push_char(c)?,
            Build::PushStr(text) => self.push_str(text)?,
            Build::PushWtf8(view) => self.push_wtf8(view)?,
            Build::Extend(points) => self.extend_from_points(points)?,
            Build::Reserve(additional) => self.reserve(additional)?,
            Build::Truncate(position) => return Ok(self.try_truncate(position)),
            Build::TruncateUnits(n) => return Ok(self.try_truncate_units(n)),
        }
        Ok(true)
    }

    /// Applies calls in order and returns the number of refused truncations, which change nothing and stop nothing.
    /// Takes the time of all of them together.
    ///
    /// If a call is refused memory, `Stopped` says which: the calls before it were applied, and if it was an extension,
    /// its first code points may be appended too.
    ///
    /// ```
    /// use std::alloc::Global;
    /// use wtf8::{Build, Stopped, Wtf8Buf};
    ///
    /// /// Makes the string "a💩". Its last call would cut inside a code point: it is refused and counted, so `Ok(1)`.
    /// fn rebuild(text: &mut Wtf8Buf<Global>) -> Result<usize, Stopped> {
    ///     // If memory for the push is refused: `Err`, `done` is 1, and `text` is empty.
    ///     text.apply_all(&[
    ///         Build::Truncate(0),
    ///         Build::PushStr("a💩"),
    ///         Build::Truncate(2),
    ///     ])
    /// }
    /// ```
    pub fn apply_all(&mut self, calls: &[Build<'_>]) -> Result<usize, Stopped>
        // The units after the whole list, or after a list that was stopped. The bytes are their only well-formed form.
        ensures run { IfOk result (λ n. Run self.old.units calls.now self.new.units n) }
        ensures stopped { IfErr result (λ s. StopsAt self.old.units calls.now s.done self.new.units) }

        // A list of pushes and extensions appends their units in order. It is never refused if all of these fit; if it
        // is refused, the units up to and including the refused call's do not fit.
        ensures appends { IfOk result (λ _. (v : List ℕ) → CallsAppend calls.now v → AppendsUnits self.old v self.new) }
        ensures room { (v : List ℕ) → CallsAppend calls.now v → HasRoomFor self.old v → IsOk result }
        ensures outgrown { IfErr result (λ s. (v : List ℕ) → CallsAppend (take (s.done + 1) calls.now) v → Outgrows self.old v) }
        ensures capacity { (v : List ℕ) → CallsAppend calls.now v → self.old.capacity ≤ self.new.capacity }

        // With `reserve` too, but no truncation: never refused if each call in turn fits the capacity at the start; if
        // refused, some call up to and including the refused one does not fit it. The capacity that a `reserve` asks
        // for is kept unless a truncation follows.
        ensures found { (v : List ℕ) → EachCallFits self.old.units calls.now v self.old.capacity → IsOk result }
        ensures missed { IfErr result (λ s. (v : List ℕ) → ¬ (EachCallFits self.old.units (take (s.done + 1) calls.now) v self.old.capacity)) }
        ensures no_smaller { All IsNoTruncation calls.now → self.old.capacity ≤ self.new.capacity }
        ensures reserved { OnOk result (LeavesReserved self.old.units calls.now self.new.capacity) }
    {
        let mut refused = 0;
        for (done, call) in calls.iter().enumerate() {
            let Ok(kept) = self.apply(*call) else {
                return Err(Stopped { done });
            };
            if !kept {
                refused += 1;
            }
        }
        Ok(refused)
    }
}
