// File names of Windows.
use crate::shared::{LEAD, TRAIL, expect_made, string_of};
use std::alloc::Global;
use wtf8::{Wtf8, Wtf8Buf};
use wtf8_tests::wrong::{Check, Failed, Made, Wrong, each_row, expect, expect_bytes, made};
use wtf8_uses::file_names;

/// The path `C:\a/b<lone trail>.tar.gz`.
static PATH: [u16; 14] = [
    0x43, 0x3A, 0x5C, 0x61, 0x2F, 0x62, TRAIL, 0x2E, 0x74, 0x61, 0x72, 0x2E, 0x67, 0x7A,
];

/// The bytes of `PATH` with `\` between its folder and its name.
const JOINED: &str = "43 3A 5C 61 5C 62 ED B2 A9 2E 74 61 72 2E 67 7A";

/// Fails unless a folder and a name have the bytes that `PATH` has there, the name has no folder, and both join to
/// `JOINED`.
fn expect_parts(alloc: Global, folder: Wtf8<'_>, name: Wtf8<'_>) -> Check {
    expect_bytes(alloc, folder, "43 3A 5C 61")?;
    expect_bytes(alloc, name, "62 ED B2 A9 2E 74 61 72 2E 67 7A")?;
    if file_names::folder_and_name(name).is_some() {
        return Err(Failed::by(Wrong::Outcome));
    }
    expect_made(alloc, file_names::join(alloc, folder, name), JOINED)
}

/// Fails unless the path has the folder and the name of `PATH`.
fn expect_folder_and_name(alloc: Global, path: Wtf8<'_>) -> Check {
    match file_names::folder_and_name(path) {
        Some((folder, name)) => expect_parts(alloc, folder, name),
        None => Err(Failed::by(Wrong::Outcome)),
    }
}

#[test]
fn a_path_has_a_folder_and_a_name(rt: HostRuntime) -> Check {
    let alloc = rt.alloc();
    let path = made!(string_of(alloc, &PATH));
    expect_folder_and_name(alloc, path.as_wtf8())
}

/// Whether `path` is in `folder`, but not in `name`, nor `folder` in itself.
fn is_path_of(path: Wtf8<'_>, folder: Wtf8<'_>, name: Wtf8<'_>) -> bool {
    file_names::is_in_folder(path, folder)
        && !file_names::is_in_folder(folder, folder)
        && !file_names::is_in_folder(path, name)
}

/// Fails unless `path` is `folder` joined with `name`, and `is_path_of` is true of these.
fn expect_path_of(alloc: Global, path: Wtf8<'_>, folder: Wtf8<'_>, name: Wtf8<'_>) -> Check {
    let same = made!(file_names::join_bytes(alloc, folder, name));
    let is_right = path == same.as_wtf8() && is_path_of(path, folder, name);
    expect(is_right, Wrong::Outcome)
}

/// Pushes `name` to a copy of `folder`. Fails unless the path has the bytes of `dump` and is found in its folder.
fn expect_pushed(alloc: Global, folder: &Wtf8Buf<Global>, name: Wtf8<'_>, dump: &str) -> Check {
    let mut path = made!(folder.clone());
    made!(file_names::push_name(&mut path, name));
    expect_bytes(alloc, path.as_wtf8(), dump)?;
    expect_path_of(alloc, path.as_wtf8(), folder.as_wtf8(), name)
}

#[test]
fn a_name_is_pushed_and_found_in_its_folder(rt: HostRuntime) -> Check {
    let alloc = rt.alloc();
    let lead = made!(string_of(alloc, &[LEAD]));
    let trail = made!(string_of(alloc, &[TRAIL]));
    expect_pushed(alloc, &lead, trail.as_wtf8(), "ED A0 BD 5C ED B2 A9")
}

/// Fails unless a stem and an extension have the expected bytes, the extension has none, and both give `name` again.
fn expect_named(alloc: Global, name: Wtf8<'_>, stem: Wtf8<'_>, extension: Wtf8<'_>) -> Check {
    expect_bytes(alloc, stem, "62 ED B2 A9 2E 74 61 72")?;
    expect_bytes(alloc, extension, "67 7A")?;
    let again = made!(file_names::with_extension(alloc, stem, extension));
    let has_none = file_names::stem_and_extension(extension).is_none();
    expect(again.as_wtf8() == name && has_none, Wrong::Outcome)
}

/// Fails unless a name has the expected stem and extension, which give the name again.
fn expect_stem(alloc: Global, name: Wtf8<'_>) -> Check {
    match file_names::stem_and_extension(name) {
        Some((stem, extension)) => expect_named(alloc, name, stem, extension),
        None => Err(Failed::by(Wrong::Outcome)),
    }
}

/// Fails unless a name is shown as `text`.
fn expect_shown(alloc: Global, name: Wtf8<'_>, text: &str) -> Check {
    let shown = made!(file_names::shown(alloc, name));
    expect(shown.as_str() == text, Wrong::Bytes)
}

#[test]
fn a_name_has_a_stem_and_an_extension(rt: HostRuntime) -> Check {
    let alloc = rt.alloc();
    let name = made!(string_of(alloc, &PATH[5..]));
    expect_stem(alloc, name.as_wtf8())?;
    expect_shown(alloc, name.as_wtf8(), "b\u{FFFD}.tar.gz")
}

/// Fails unless `parts` are the components of `PATH`.
fn expect_parts_of_path(alloc: Global, parts: &[Wtf8<'_>]) -> Check {
    let [drive, folder, name] = parts else {
        return Err(Failed::by(Wrong::Outcome));
    };
    expect_bytes(alloc, *drive, "43 3A")?;
    expect_bytes(alloc, *folder, "61")?;
    expect_bytes(alloc, *name, "62 ED B2 A9 2E 74 61 72 2E 67 7A")
}

/// Fails unless the components of a path are those of `PATH`.
fn expect_components(alloc: Global, path: Wtf8<'_>) -> Check {
    let parts = made!(file_names::components(alloc, path));
    expect_parts_of_path(alloc, &parts)
}

/// Fails unless the folder of a path is that of `PATH`.
fn expect_parent(alloc: Global, path: Wtf8<'_>) -> Check {
    match file_names::parent(path) {
        Some(folder) => expect_bytes(alloc, folder, "43 3A 5C 61"),
        None => Err(Failed::by(Wrong::Outcome)),
    }
}

#[test]
fn a_path_has_components(rt: HostRuntime) -> Check {
    let alloc = rt.alloc();
    let path = made!(string_of(alloc, &PATH));
    expect_components(alloc, path.as_wtf8())?;
    expect_parent(alloc, path.as_wtf8())
}

/// Fails unless a path has `count` components.
fn expect_count(alloc: Global, path: &str, count: usize) -> Check {
    let parts = made!(file_names::components(alloc, Wtf8::from_str(path)));
    expect(parts.len() == count, Wrong::Outcome)
}

#[test]
fn a_path_has_one_component_more_than_separators(rt: HostRuntime) -> Check {
    let alloc = rt.alloc();
    expect_count(alloc, "/", 2)?;
    expect_count(alloc, "", 1)
}

/// A folder, a name, the path of both, its suffix without the dot, another path, and whether the first one is relative to it:
/// the results of `/`, `suffix` and `is_relative_to` of CPython's `PureWindowsPath`.
type WindowsPath = (
    &'static str,
    &'static str,
    &'static str,
    Option<&'static str>,
    &'static str,
    bool,
);

static WINDOWS_PATHS: [WindowsPath; 10] = [
    (
        "C:\\a",
        "b.tar.gz",
        "C:\\a\\b.tar.gz",
        Some("gz"),
        "C:/a",
        true,
    ),
    ("C:\\", "b", "C:\\b", None, "C:\\c", false),
    ("a\\", "b.c d", "a\\b.c d", Some("c d"), "a", true),
    ("a", "bc", "a\\bc", None, "a/b", false),
    (
        "\\\\server\\share",
        "..a",
        "\\\\server\\share\\..a",
        Some("a"),
        "\\\\server\\share\\..a",
        true,
    ),
    ("💩", "é.💩", "💩\\é.💩", Some("💩"), "💩/é", false),
    ("a\\b", "c", "a\\b\\c", None, "a\\b\\c\\d", false),
    ("a\\b", "c", "a\\b\\c", None, "b", false),
    ("a\\b\\", "c.d", "a\\b\\c.d", Some("d"), "a/b/c.d", true),
    (
        "C:\\Program Files",
        "x",
        "C:\\Program Files\\x",
        None,
        "C:/Program Files",
        true,
    ),
];

/// Whether the extension of `name` is `extension`.
fn is_extension(name: &str, extension: Option<&str>) -> bool {
    let found = file_names::extension(Wtf8::from_str(name));
    found.and_then(|text| text.as_str()) == extension
}

/// Whether the path of a row's folder and name, its extension and its relation to the other path are as the row tells.
fn is_windows_path(alloc: Global, row: WindowsPath) -> Made<bool> {
    let (folder, name, whole, extension, front, is_relative) = row;
    let path = file_names::join_once(alloc, Wtf8::from_str(folder), Wtf8::from_str(name))?;
    let is_front = file_names::begins_with(path.as_wtf8(), Wtf8::from_str(front));
    let is_whole = path.as_wtf8().as_str() == Some(whole);
    Ok(is_whole && is_front == is_relative && is_extension(name, extension))
}

#[test]
fn paths_are_those_of_windows(rt: HostRuntime) -> Check {
    each_row!(row in WINDOWS_PATHS => {
        let is_right = made!(is_windows_path(rt.alloc(), row));
        expect(is_right, Wrong::Outcome)
    })
}

/// Units, and the bytes of the name that they are up to the first 0.
static ENDED_ROWS: [(&[u16], &str); 4] = [
    (&[0x61, TRAIL, 0, 0x62, 0], "61 ED B2 A9"),
    (&[0, 0x61], ""),
    (&[], ""),
    (&[LEAD], "ED A0 BD"),
];

#[test]
fn a_name_ends_at_a_zero(rt: HostRuntime) -> Check {
    let alloc = rt.alloc();
    each_row!((units, dump) in ENDED_ROWS => {
        expect_made(alloc, file_names::before_zero(alloc, units), dump)
    })
}
