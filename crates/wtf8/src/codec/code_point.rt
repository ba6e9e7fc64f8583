// Code points, and the surrogates among them: their ranges, and the supplementary code point of a pair.
ghost use Rattle.std.specs.Prelude.{◌≡◌, ◌≤◌, ◌↔◌, length, IsSome, IfSome, IsNone, IsTrue};
ghost use Rattle.wtf8.specs.Form.{encoding};
ghost use Rattle.wtf8.specs.Surrogates.{replace_surrogate};
ghost use Rattle.wtf8.specs.Unicode.{IsCodePoint, IsSurrogate, IsLead, IsTrail, pair, units_of};

/// A Unicode code point: a number from 0 to 0x10FFFF, surrogates included.
///
/// A `char` is a scalar value, a code point that is not a surrogate (0xD800 to 0xDFFF). Equality, order and hash are by
/// the number, a `u32`.
#[derive(Clone, Copy, PartialEq, Eq, PartialOrd, Ord, Hash)]
pub struct CodePoint {
    value: u32,
    pub ghost in_range: { IsCodePoint value },
}

impl CodePoint {
    ghost use Rattle.wtf8.specs.CodePoint.{number};

    /// The code point with this number, or `None` if it is above 0x10FFFF.
    pub fn from_u32(value: u32) -> Option<CodePoint>
        ensures some { IsSome result ↔ IsCodePoint value }
        ensures number { IfSome result (λ p. number p ≡ value) }
    {
        if value <= 0x10FFFF {
            Some(CodePoint { value })
        } else {
            None
        }
    }

    /// The code point with this number, which must be at most 0x10FFFF.
    pub fn from_u32_unchecked(value: u32) -> CodePoint
        requires { IsCodePoint value }
        ensures { number result ≡ value }
    {
        CodePoint { value }
    }

    /// The code point of a `char`.
    pub fn from_char(value: char) -> CodePoint
        ensures { number result ≡ value }
    {
        CodePoint {
            value: value as u32,
        }
    }

    /// The code point with the number of a code unit: a surrogate stays one, in no pair.
    pub fn from_unit(unit: u16) -> CodePoint
        ensures { number result ≡ unit }
    {
        CodePoint {
            value: u32::from(unit),
        }
    }

    /// The number of the code point, at most 0x10FFFF.
    pub fn to_u32(&self) -> u32
        ensures value { result ≡ number self.now }
        ensures range { IsCodePoint result }
    {
        self.value
    }

    /// The encoded length of the code point: the number of its bytes in a string, 1 to 4. Of a `char` it is `len_utf8`.
    #[tactic(auto, using(crate::proofs::lemmas::codec::Encoding::rows))]
    pub fn encoded_len(&self) -> usize
        ensures value { result ≡ length (encoding (number self.now)) }
        ensures at_least_one { 1 ≤ result }
        ensures at_most_four { result ≤ 4 }
    {
        match self.value {
            0..=0x7F => 1,
            0x80..=0x7FF => 2,
            0x800..=0xFFFF => 3,
            _ => 4,
        }
    }

    /// The number of code units of the code point: 1 below 0x10000, else 2. Of a `char` it is `len_utf16`.
    #[inline(always)]
    #[tactic(auto, using(crate::proofs::lemmas::codec::Readings::units_of_lengths))]
    pub fn len_utf16(&self) -> usize
        ensures value { result ≡ length (units_of (number self.now)) }
        ensures at_least_one { 1 ≤ result }
        ensures at_most_two { result ≤ 2 }
    {
        if self.value < FIRST_SUPPLEMENTARY {
            1
        } else {
            2
        }
    }

    /// The code point as a `char`, or `None` for a surrogate.
    pub fn to_char(&self) -> Option<char>
        ensures none { IsNone result ↔ IsSurrogate (number self.now) }
        ensures some { IfSome result (λ c. c ≡ number self.now) }
    {
        char::from_u32(self.value)
    }

    /// The code point as a `char`, or U+FFFD, the replacement character, for a surrogate.
    pub fn to_char_lossy(&self) -> char
        ensures scalar { ¬ IsSurrogate (number self.now) → result ≡ number self.now }
        ensures surrogate { IsSurrogate (number self.now) → result ≡ 0xFFFD }
        ensures value { result ≡ replace_surrogate (number self.now) }
    {
        self.to_char().unwrap_or('\u{FFFD}')
    }
}

// Bounds of surrogates are `u16`, to be compared with code units; code points are `u32`.
pub(crate) const FIRST_LEAD: u16 = 0xD800;

pub(crate) const LAST_LEAD: u16 = 0xDBFF;

pub(crate) const FIRST_TRAIL: u16 = 0xDC00;

pub(crate) const LAST_TRAIL: u16 = 0xDFFF;

/// The number of lead surrogates, and of trail surrogates.
pub(crate) const SURROGATES_PER_HALF: u16 = 0x400;

/// The high six bits of leads, and of leads alone; below, of trails.
pub(crate) const LEAD_KIND: u16 = FIRST_LEAD / SURROGATES_PER_HALF;

pub(crate) const TRAIL_KIND: u16 = FIRST_TRAIL / SURROGATES_PER_HALF;

pub(crate) const FIRST_SUPPLEMENTARY: u32 = 0x10000;

#[inline(always)]
pub(crate) fn is_trail(value: u32) -> bool
    ensures { IsTrue result ↔ IsTrail value }
{
    FIRST_TRAIL as u32 <= value && value <= LAST_TRAIL as u32
}

/// The supplementary code point of a surrogate pair. The remainders tell the compiler that the result is in range.
#[inline(always)]
pub(crate) fn code_point_of_pair(lead: u32, trail: u32) -> u32
    requires lead { IsLead lead }
    requires trail { IsTrail trail }
    ensures { result ≡ pair lead trail }
{
    let per_half = SURROGATES_PER_HALF as u32;
    FIRST_SUPPLEMENTARY + lead % per_half * per_half + trail % per_half
}
