// The UTF-8 prefix of a buffer: the bytes at its front that are known to hold no surrogate.
ghost use Rattle.std.specs.Prelude.{◌≡◌, ◌<◌, ◌≤◌, ℕ, List, length, IsTrue};
ghost use Rattle.wtf8.specs.Form.{bytes};
ghost use Rattle.wtf8.specs.private.Prefixes.{AreScalarTo};
ghost use Rattle.wtf8.specs.Surrogates.{AreScalar};
ghost use Rattle.wtf8.specs.View.{view_points};

use crate::strings::view::Wtf8;

/// A number of bytes at the front of a buffer in which no surrogate begins; the bytes after them may hold some.
#[derive(Clone, Copy)]
pub(crate) struct Utf8Prefix {
    pub(crate) len: usize,
}

impl Utf8Prefix {
    /// The prefix of a buffer without surrogates. It stays right when text is appended, so no push has to update it.
    pub(crate) const ALL: Utf8Prefix = Utf8Prefix { len: usize::MAX };

    pub(crate) const NONE: Utf8Prefix = Utf8Prefix { len: 0 };

    pub(crate) fn new(is_utf8: bool) -> Utf8Prefix
        ensures { (c : List ℕ) → (IsTrue is_utf8 → AreScalar c) → AreScalarTo result.len c }
    {
        if is_utf8 {
            Utf8Prefix::ALL
        } else {
            Utf8Prefix::NONE
        }
    }

    #[inline(always)]
    pub(crate) fn up_to(self, len: usize) -> Utf8Prefix
        ensures order { result.len ≤ self.len }
        ensures within { result.len ≤ len }
    {
        let len = self.len.min(len);
        Utf8Prefix { len }
    }

    /// The prefix after a push to `len` bytes: at most these, since `other` is not searched; unchanged if it is empty.
    #[inline(always)]
    pub(crate) fn after_push(self, len: usize, other: Wtf8<'_>) -> Utf8Prefix
        ensures order { result.len ≤ self.len }
        ensures scalar { len < result.len → AreScalar (view_points other.entry) }
    {
        if other.is_empty() {
            return self;
        }
        self.up_to(len)
    }

    #[inline(always)]
    pub(crate) fn after_truncate(self, len: usize) -> Utf8Prefix
        ensures { (c : List ℕ) → length (bytes c) ≡ len → AreScalarTo self.len c → AreScalarTo result.len c }
    {
        if len <= self.len {
            return Utf8Prefix::ALL;
        }
        self
    }
}
