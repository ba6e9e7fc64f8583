//! File names of Windows: unchecked 16-bit units.
ghost use Rattle.std.specs.List.{All, slice_split};
ghost use Rattle.std.specs.Prelude.{◌≡◌, ◌≢◌, ◌↔◌, ◌<◌, ◌≤◌, [], ◌∷◌, ◌++◌, ℕ, List, length, map, take, slice_index, IfOk, IfSome, IfNone, IsTrue, OnOk, OnErr};
ghost use Rattle.std.specs.Cow.{cow_str_bytes};
ghost use Rattle.wtf8.specs.Appending.{AppendsUnits, KeepsContents};
ghost use Rattle.wtf8.specs.Form.{bytes};
ghost use Rattle.wtf8.specs.Surrogates.{lossy_points};
ghost use Rattle.wtf8.specs.View.{view_points, view_units};
ghost use Rattle.wtf8_uses.specs.FileName.{BeginsWith, EndsWithEither, IsBeforeZero, IsCutAtLast, IsEither, HasNeither, is_separator};

use std::alloc::{AllocError, Allocator, Global};
use std::borrow::CowStr;
use wtf8::{Wtf8, Wtf8Buf, laws};

/// The folder and the name of a path, cut at its last `/` or `\`; `None` if it has neither. Copies nothing.
pub fn folder_and_name<'a>(path: Wtf8<'a>) -> Option<(Wtf8<'a>, Wtf8<'a>)>
    ensures some { IfSome result (λ x. IsCutAtLast 0x2F 0x5C (view_units path.entry) (view_units x.0) (view_units x.1)) }
    ensures none { IfNone result (HasNeither 0x2F 0x5C (view_units path.entry)) }
{
    let Some((folder, _, name)) = cut_at_last(path, b'/', b'\\') else {
        return None;
    };
    Some((folder, name))
}

/// The stem and the extension of a name, cut at its last `.`; `None` if it has none.
pub fn stem_and_extension<'a>(name: Wtf8<'a>) -> Option<(Wtf8<'a>, Wtf8<'a>)>
    ensures some { IfSome result (λ x. IsCutAtLast 0x2E 0x2E (view_units name.entry) (view_units x.0) (view_units x.1)) }
    ensures none { IfNone result (HasNeither 0x2E 0x2E (view_units name.entry)) }
{
    let Some((stem, _, extension)) = cut_at_last(name, b'.', b'.') else {
        return None;
    };
    Some((stem, extension))
}

/// The path of a name in a folder: joins them with `\`.
pub fn join(alloc: Global, folder: Wtf8<'_>, name: Wtf8<'_>) -> Result<Wtf8Buf<Global>, AllocError>
    ensures { IfOk result (λ path. path.units ≡ view_units folder.entry ++ 0x5C ∷ view_units name.entry) }
{
    join_with(alloc, folder, '\\', name)
}

/// Joins a folder and a name with `\`, also in bytes: no surrogate pair forms across an ASCII character.
pub fn join_bytes(
    alloc: Global,
    folder: Wtf8<'_>,
    name: Wtf8<'_>,
) -> Result<Wtf8Buf<Global>, AllocError>
    ensures { IfOk result (λ path. path.bytes ≡ folder.entry.bytes.now ++ 0x5C ∷ name.entry.bytes.now) }
{
    let path = join(alloc, folder, name)?;
    laws::law_parted_by_ascii(path.as_wtf8(), folder, b'\\', name);
    Ok(path)
}

/// Appends `\` and a name to a path, or neither: reserves for both first, so that no push is refused.
pub fn push_name<A: Allocator>(path: &mut Wtf8Buf<A>, name: Wtf8<'_>) -> Result<(), AllocError>
    ensures ok { OnOk result (AppendsUnits path.old (0x5C ∷ view_units name.entry) path.new) }
    ensures kept { OnErr result (KeepsContents path.old path.new) }
{
    let Some(more) = name.len().checked_add(1) else {
        return Err(AllocError);
    };
    path.reserve(more)?;
    path.push_char('\\')?;
    path.push_wtf8(name)
}

/// Whether a path begins with the units of the folder and `\`. Copies nothing.
pub fn is_in_folder(path: Wtf8<'_>, folder: Wtf8<'_>) -> bool
    ensures { IsTrue result ↔ ((rest : List ℕ) × (view_units path.entry ≡ view_units folder.entry ++ 0x5C ∷ rest)) }
{
    laws::law_begins_by_ascii(path, folder, b'\\');
    let end = folder.len();
    if path.len() <= end || path.ascii_byte_at(end) != b'\\' {
        return false;
    }
    let front = path.slice_to(end);
    laws::law_equal_views(front, folder);
    front == folder
}

/// Joins a stem and an extension with `.`.
pub fn with_extension(
    alloc: Global,
    stem: Wtf8<'_>,
    extension: Wtf8<'_>,
) -> Result<Wtf8Buf<Global>, AllocError>
    ensures { IfOk result (λ name. name.units ≡ view_units stem.entry ++ 0x2E ∷ view_units extension.entry) }
{
    join_with(alloc, stem, '.', extension)
}

/// A name for display: U+FFFD replaces each lone surrogate.
pub fn shown<'a>(alloc: Global, name: Wtf8<'a>) -> Result<CowStr<'a, Global>, AllocError>
    ensures { IfOk result (λ text. cow_str_bytes text ≡ bytes (lossy_points (view_points name.entry))) }
{
    name.to_string_lossy(alloc)
}

/// The extension of a name: the part after its last `.`; `None` if it has none. Copies nothing.
pub fn extension<'a>(name: Wtf8<'a>) -> Option<Wtf8<'a>>
    ensures some { IfSome result (λ x. (stem : List ℕ) × IsCutAtLast 0x2E 0x2E (view_units name.entry) stem (view_units x)) }
    ensures none { IfNone result (HasNeither 0x2E 0x2E (view_units name.entry)) }
{
    let (_, extension) = stem_and_extension(name)?;
    Some(extension)
}

/// Joins a folder and a name with one separator: with `\`, unless the folder ends with `/` or `\`.
pub fn join_once(
    alloc: Global,
    folder: Wtf8<'_>,
    name: Wtf8<'_>,
) -> Result<Wtf8Buf<Global>, AllocError>
    ensures there { EndsWithEither 0x2F 0x5C (view_units folder.entry) → IfOk result (λ path. path.units ≡ view_units folder.entry ++ view_units name.entry) }
    ensures put { ¬ (EndsWithEither 0x2F 0x5C (view_units folder.entry)) → IfOk result (λ path. path.units ≡ view_units folder.entry ++ 0x5C ∷ view_units name.entry) }
{
    if !ends_with_separator(folder) {
        return join(alloc, folder, name);
    }
    let mut path = Wtf8Buf::new(alloc);
    path.push_wtf8(folder)?;
    path.push_wtf8(name)?;
    Ok(path)
}

/// Whether a path ends with `/` or `\`.
pub fn ends_with_separator(path: Wtf8<'_>) -> bool
    ensures { IsTrue result ↔ EndsWithEither 0x2F 0x5C (view_units path.entry) }
{
    match cut_at_last(path, b'/', b'\\') {
        Some((_, _, after)) => after.is_empty(),
        None => false,
    }
}

/// Whether the components of a path begin with the components of `front` (see `components`). Copies nothing.
pub fn begins_with(path: Wtf8<'_>, front: Wtf8<'_>) -> bool
    ensures { IsTrue result ↔ BeginsWith (slice_split is_separator (view_units path.entry)) (slice_split is_separator (view_units front.entry)) }
{
    let mut rest = path;
    let mut front_rest = front;
    loop {
        let (part, after) = first_component(rest);
        let (front_part, front_after) = first_component(front_rest);
        laws::law_equal_views(part, front_part);
        if part != front_part {
            return false;
        }
        let Some(front_next) = front_after else {
            return true;
        };
        let Some(next) = after else {
            return false;
        };
        rest = next;
        front_rest = front_next;
    }
}

/// The folder of a path: the part before its last `/` or `\`; `None` if it has neither. Copies nothing.
pub fn parent<'a>(path: Wtf8<'a>) -> Option<Wtf8<'a>>
    ensures some { IfSome result (λ x. (name : List ℕ) × IsCutAtLast 0x2F 0x5C (view_units path.entry) (view_units x) name) }
    ensures none { IfNone result (HasNeither 0x2F 0x5C (view_units path.entry)) }
{
    let (folder, _) = folder_and_name(path)?;
    Some(folder)
}

/// The components of a path: the parts before, between and after its `/` and `\`, in order, including empty ones.
/// Copies no unit. If a request is refused, nothing stays allocated.
pub fn components<'a>(alloc: Global, path: Wtf8<'a>) -> Result<Vec<Wtf8<'a>>, AllocError>
    ensures { IfOk result (λ parts. map view_units parts.items ≡ slice_split is_separator (view_units path.entry)) }
{
    let mut parts = Vec::new(alloc);
    let mut rest = path;
    while let Some((part, _, after)) = cut_at_first(rest, b'/', b'\\') {
        parts.push(part)?;
        rest = after;
    }
    parts.push(rest)?;
    Ok(parts)
}

/// The name in a buffer that a system call filled: the units before the first 0, or all of them if there is none. Does
/// not allocate if the name is empty. If a request is refused, nothing stays allocated.
pub fn before_zero(alloc: Global, units: &[u16]) -> Result<Wtf8Buf<Global>, AllocError>
    ensures { IfOk result (λ name. IsBeforeZero units.now name.units) }
{
    let end = first_zero(units);
    Wtf8Buf::from_ill_formed_utf16(alloc, &units[..end])
}

/// The index of the first 0, or the length if there is none.
fn first_zero(units: &[u16]) -> usize
    ensures within { result ≤ length units.now }
    ensures before { All (λ u. u ≢ 0) (take result units.now) }
    ensures zero { result < length units.now → slice_index units.now result ≡ 0 }
{
    for (index, unit) in units.iter().enumerate() {
        if *unit == 0 {
            return index;
        }
    }
    units.len()
}

/// Joins two strings with an ASCII character between them.
pub(crate) fn join_with(
    alloc: Global,
    front: Wtf8<'_>,
    separator: char,
    back: Wtf8<'_>,
) -> Result<Wtf8Buf<Global>, AllocError>
    requires { separator < 0x80 }
    ensures { IfOk result (λ whole. whole.units ≡ view_units front.entry ++ separator ∷ view_units back.entry) }
{
    let mut whole = Wtf8Buf::new(alloc);
    whole.push_wtf8(front)?;
    whole.push_char(separator)?;
    whole.push_wtf8(back)?;
    Ok(whole)
}

/// The first component of a path, and the part after the separator that follows it, if one does.
fn first_component<'a>(path: Wtf8<'a>) -> (Wtf8<'a>, Option<Wtf8<'a>>)
    ensures first { (others : List (List ℕ)) × (slice_split is_separator (view_units path.entry) ≡ view_units result.0 ∷ others) }
    ensures more { IfSome result.1 (λ rest. slice_split is_separator (view_units path.entry) ≡ view_units result.0 ∷ slice_split is_separator (view_units rest)) }
    ensures shorter { IfSome result.1 (λ rest. length (view_units rest) < length (view_units path.entry)) }
    ensures last { IfNone result.1 (slice_split is_separator (view_units path.entry) ≡ view_units result.0 ∷ []) }
{
    match cut_at_first(path, b'/', b'\\') {
        Some((part, _, after)) => (part, Some(after)),
        None => (path, None),
    }
}

/// Splits a string at its last `separator` or `other`, both ASCII, into front, byte and rest; `None` if it has neither.
fn cut_at_last<'a>(text: Wtf8<'a>, separator: u8, other: u8) -> Option<(Wtf8<'a>, u8, Wtf8<'a>)>
    requires separator { separator < 0x80 }
    requires other { other < 0x80 }
    ensures separator { IfSome result (λ x. IsEither separator other x.1) }
    ensures joined { IfSome result (λ x. view_units text.entry ≡ view_units x.0 ++ x.1 ∷ view_units x.2) }
    ensures after { IfSome result (λ x. HasNeither separator other (view_units x.2)) }
    ensures none { IfNone result (HasNeither separator other (view_units text.entry)) }
{
    for index in (0..text.len()).rev() {
        let byte = text.ascii_byte_at(index);
        if byte == separator || byte == other {
            let back = text.slice_from(index + 1);
            laws::law_no_ascii(back, separator);
            laws::law_no_ascii(back, other);
            return Some((text.slice_to(index), byte, back));
        }
    }
    laws::law_no_ascii(text, separator);
    laws::law_no_ascii(text, other);
    None
}

/// Splits a string at its first `separator` or `other`, both ASCII, into front, byte and rest; `None` if it has
/// neither.
pub(crate) fn cut_at_first<'a>(
    text: Wtf8<'a>,
    separator: u8,
    other: u8,
) -> Option<(Wtf8<'a>, u8, Wtf8<'a>)>
    requires separator { separator < 0x80 }
    requires other { other < 0x80 }
    ensures separator { IfSome result (λ x. IsEither separator other x.1) }
    ensures joined { IfSome result (λ x. view_units text.entry ≡ view_units x.0 ++ x.1 ∷ view_units x.2) }
    ensures before { IfSome result (λ x. HasNeither separator other (view_units x.0)) }
    ensures none { IfNone result (HasNeither separator other (view_units text.entry)) }
{
    for index in 0..text.len() {
        let byte = text.ascii_byte_at(index);
        if byte == separator || byte == other {
            let front = text.slice_to(index);
            laws::law_no_ascii(front, separator);
            laws::law_no_ascii(front, other);
            return Some((front, byte, text.slice_from(index + 1)));
        }
    }
    laws::law_no_ascii(text, separator);
    laws::law_no_ascii(text, other);
    None
}
