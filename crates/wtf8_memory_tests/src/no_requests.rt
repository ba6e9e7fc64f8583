// Calls that make no request for memory, not even one whose refusal they ignore: of nine requests granted before them
// all are left after them. The calls also succeed if every request is refused.
use crate::shared::{Change, call_each, expect_step, expect_steps};
use refusing::{Lent, Refusing};
use std::alloc::{Allocator, Global};
use std::borrow::CowStr;
use wtf8::{Build, CodePoint, Wtf8, Wtf8Buf};
use wtf8_tests::examples::{TEXT, TEXT_DUMP, expect_made, pushed};
use wtf8_tests::wrong::{Check, Failed, Made, Wrong, assert_row, expect, expect_bytes, made};

const LEAD: u16 = 0xD83D;

const TRAIL: u16 = 0xDCA9;

/// The bytes of the pair.
const PAIR_DUMP: &str = "F0 9F 92 A9";

/// The numbers of requests granted: none, or nine.
const GRANTS: [u64; 2] = [0, 9];

/// An empty string with a capacity of `room` bytes, after which `grants` requests are granted.
fn with_room(heap: Lent<'_>, room: usize, grants: u64) -> Result<Wtf8Buf<Lent<'_>>, Failed> {
    heap.grant(1);
    let text = made!(Wtf8Buf::with_capacity(heap, room));
    heap.grant(grants);
    Ok(text)
}

/// Appends nothing, by each call that appends.
fn append_nothing<A: Allocator>(text: &mut Wtf8Buf<A>) -> Made<()> {
    let calls = [
        Build::Reserve(0),
        Build::PushStr(""),
        Build::PushWtf8(Wtf8::from_str("")),
    ];
    call_each(text, &calls)?;
    text.extend([])
}

/// Whether the hex dump is made and empty.
fn is_dump_empty<A: Allocator + Drop>(heap: A, view: Wtf8<'_>) -> bool {
    match view.hex_dump(heap) {
        Ok(dump) => dump.as_str().is_empty(),
        Err(_) => false,
    }
}

/// Whether the lossy text is `text`, borrowed.
fn is_lossy_text_borrowed<A: Allocator + Drop>(heap: A, view: Wtf8<'_>, text: &str) -> bool {
    match view.to_string_lossy(heap) {
        Ok(CowStr::Borrowed(lossy)) => lossy == text,
        _ => false,
    }
}

/// Fails unless an empty string to which nothing is appended is empty, and so are its hex dump and lossy text.
fn expect_nothing<A: Allocator + Drop + Copy>(alloc: Global, heap: A) -> Check {
    let mut text = Wtf8Buf::new(heap);
    made!(append_nothing(&mut text));
    let view = text.as_wtf8();
    expect_bytes(alloc, view, "")?;
    let has_no_texts = is_dump_empty(heap, view) && is_lossy_text_borrowed(heap, view, "");
    expect(has_no_texts, Wrong::Outcome)
}

/// Fails unless each call that makes a string of nothing makes an empty one.
fn expect_made_of_nothing<A: Allocator + Drop + Copy>(alloc: Global, heap: A) -> Check {
    expect_made(alloc, Wtf8Buf::with_capacity(heap, 0), "")?;
    expect_made(alloc, Wtf8Buf::from_str(heap, ""), "")?;
    expect_made(alloc, Wtf8Buf::from_ill_formed_utf16(heap, &[]), "")?;
    expect_made(alloc, Wtf8Buf::from_iter(heap, []), "")
}

/// Fails unless two pushed surrogates become one code point, and it can be pushed again once the string is cleared.
fn expect_pushed_pair<A: Allocator>(alloc: Global, text: &mut Wtf8Buf<A>) -> Check {
    let lead = Build::Push(CodePoint::from_unit(LEAD));
    let trail = Build::Push(CodePoint::from_unit(TRAIL));
    let rows = [
        (Change::Method(lead), Some(true), "ED A0 BD"),
        (Change::Method(trail), Some(true), PAIR_DUMP),
        (Change::Method(Build::Reserve(0)), Some(true), PAIR_DUMP),
        (Change::Clear, Some(true), ""),
        (Change::Method(Build::PushChar('💩')), Some(true), PAIR_DUMP),
    ];
    expect_steps(alloc, text, &rows)
}

/// Fails unless a list that appends the two surrogates of a pair, by an extension each with an empty push between them,
/// is applied with no truncation refused.
fn expect_pair_list<A: Allocator>(alloc: Global, text: &mut Wtf8Buf<A>) -> Check {
    let lead = [CodePoint::from_unit(LEAD)];
    let trail = [CodePoint::from_unit(TRAIL)];
    let calls = [
        Build::Extend(&lead),
        Build::PushStr(""),
        Build::Extend(&trail),
    ];
    expect(matches!(text.apply_all(&calls), Ok(0)), Wrong::Outcome)?;
    expect_bytes(alloc, text.as_wtf8(), PAIR_DUMP)
}

/// Fails unless a surrogate pair fits in a capacity of four bytes: pushed in halves and then as a character, or, if
/// `is_list`, appended by a list.
fn expect_room_for_pair(alloc: Global, heap: Lent<'_>, grants: u64, is_list: bool) -> Check {
    let mut text = made!(with_room(heap, 4, grants));
    if is_list {
        return expect_pair_list(alloc, &mut text);
    }
    expect_pushed_pair(alloc, &mut text)
}

/// Makes each call that appends; `trail`, which begins with a trail, is pushed after a lead.
fn push_each<A: Allocator>(text: &mut Wtf8Buf<A>, trail: Wtf8<'_>) -> Made<()> {
    let calls = [
        Build::PushStr(TEXT),
        Build::PushChar('a'),
        Build::Push(CodePoint::from_unit(LEAD)),
        Build::PushWtf8(trail),
    ];
    call_each(text, &calls)?;
    text.extend([CodePoint::from_unit(LEAD), CodePoint::from_unit(TRAIL)])?;
    text.reserve(2)
}

/// Fails unless each call of `push_each` succeeds.
fn expect_each_pushed<A: Allocator>(
    alloc: Global,
    text: &mut Wtf8Buf<A>,
    trail: Wtf8<'_>,
) -> Check {
    made!(push_each(text, trail));
    expect_bytes(
        alloc,
        text.as_wtf8(),
        "61 C3 A9 20 F0 9F 92 A9 61 F0 9F 92 A9 62 F0 9F 92 A9",
    )
}

/// A call, whether it is applied, and the bytes after it.
type Applied<'a> = (Build<'a>, bool, &'static str);

/// Calls made one after another, the first of them on the empty string.
fn applied_rows<'a>(lead: &'a [CodePoint; 1], piece: Wtf8<'a>) -> [Applied<'a>; 10] {
    [
        (Build::Push(lead[0]), true, "ED A0 BD"),
        (Build::PushWtf8(piece), true, "F0 9F 92 A9 62"),
        (Build::Truncate(3), false, "F0 9F 92 A9 62"),
        (Build::Truncate(4), true, "F0 9F 92 A9"),
        (Build::PushStr("é "), true, "F0 9F 92 A9 C3 A9 20"),
        (
            Build::PushChar('💩'),
            true,
            "F0 9F 92 A9 C3 A9 20 F0 9F 92 A9",
        ),
        (Build::Truncate(7), true, "F0 9F 92 A9 C3 A9 20"),
        (Build::Extend(lead), true, "F0 9F 92 A9 C3 A9 20 ED A0 BD"),
        (Build::Reserve(10), true, "F0 9F 92 A9 C3 A9 20 ED A0 BD"),
        (Build::Truncate(0), true, ""),
    ]
}

/// Fails unless each call of `applied_rows` in turn does what its row says; `piece` is pushed after a lead.
fn expect_each_applied<A: Allocator>(
    alloc: Global,
    text: &mut Wtf8Buf<A>,
    piece: Wtf8<'_>,
) -> Check {
    let lead = [CodePoint::from_unit(LEAD)];
    let mut index = 0usize;
    for (call, is_done, dump) in applied_rows(&lead, piece) {
        let row = (Change::Apply(call), Some(is_done), dump);
        assert_row!(index, expect_step(alloc, text, row));
        index = index.wrapping_add(1);
    }
    Ok(())
}

/// Fails unless calls with `piece` do what they must within a capacity of 20 bytes: those of `applied_rows` if
/// `is_applied`, or those of `push_each`.
fn expect_room_for_piece(
    alloc: Global,
    heap: Lent<'_>,
    grants: u64,
    piece: Wtf8<'_>,
    is_applied: bool,
) -> Check {
    let mut text = made!(with_room(heap, 20, grants));
    if is_applied {
        return expect_each_applied(alloc, &mut text, piece);
    }
    expect_each_pushed(alloc, &mut text, piece)
}

/// Fails unless the calls of `expect_room_for_piece` do what they must with a trail and "b" as the piece.
fn expect_piece(alloc: Global, heap: Lent<'_>, grants: u64, is_applied: bool) -> Check {
    let piece = pushed(alloc, &[0xDCA9, 0x62])?;
    expect_room_for_piece(alloc, heap, grants, piece.as_wtf8(), is_applied)
}

/// Appends `TEXT`, and a lone lead surrogate if `has_lead`.
fn push_text<A: Allocator>(text: &mut Wtf8Buf<A>, has_lead: bool) -> Made<()> {
    let lead = Build::Push(CodePoint::from_unit(0xD800));
    if has_lead {
        return call_each(text, &[Build::PushStr(TEXT), lead]);
    }
    text.push_str(TEXT)
}

/// A string of `TEXT`, with a lone lead surrogate if `has_lead`, and `grants` requests granted after its allocation.
fn text_of(heap: Lent<'_>, has_lead: bool, grants: u64) -> Result<Wtf8Buf<Lent<'_>>, Failed> {
    let mut text = made!(with_room(heap, 11, grants));
    made!(push_text(&mut text, has_lead));
    Ok(text)
}

/// Whether the view is `TEXT` as a text, and as a lossy text, borrowed; or, if `has_lead`, has no text.
fn has_texts<A: Allocator + Drop>(heap: A, view: Wtf8<'_>, has_lead: bool) -> bool {
    match view.as_str() {
        Some(text) => !has_lead && text == TEXT && is_lossy_text_borrowed(heap, view, TEXT),
        None => has_lead,
    }
}

/// Fails unless the string has the bytes of `dump` and is `text` as a lossy text.
fn expect_lossy<A: Allocator + Drop>(
    alloc: Global,
    string: Wtf8Buf<A>,
    dump: &str,
    text: &str,
) -> Check {
    expect_bytes(alloc, string.as_wtf8(), dump)?;
    expect(string.into_string_lossy().as_str() == text, Wrong::Outcome)
}

/// Fails unless `owned` is `TEXT`, also as a string made of it and as that string's lossy text.
fn expect_again<A: Allocator + Drop>(alloc: Global, owned: String<A>) -> Check {
    if owned.as_str() != TEXT {
        return Err(Failed::by(Wrong::Outcome));
    }
    expect_lossy(alloc, Wtf8Buf::from_string(owned), TEXT_DUMP, TEXT)
}

/// Fails unless `back` is `TEXT` and a lead surrogate, which is U+FFFD in the lossy text.
fn expect_back<A: Allocator + Drop>(alloc: Global, back: Wtf8Buf<A>) -> Check {
    expect_lossy(
        alloc,
        back,
        "61 C3 A9 20 F0 9F 92 A9 ED A0 80",
        "aé 💩\u{FFFD}",
    )
}

/// Fails unless `into_string` succeeds, and its text makes the string and the lossy text again; or, if `has_lead`,
/// returns the string with its bytes.
fn expect_converted<A: Allocator + Drop>(alloc: Global, text: Wtf8Buf<A>, has_lead: bool) -> Check {
    let converted = text.into_string();
    if converted.is_err() != has_lead {
        return Err(Failed::by(Wrong::Outcome));
    }
    match converted {
        Ok(owned) => expect_again(alloc, owned),
        Err(back) => expect_back(alloc, back),
    }
}

/// Fails unless the string of `TEXT` is borrowed as text, and converts to an owned text; or, with a lone lead surrogate
/// if `has_lead`, has no text, and comes back from `into_string`.
fn expect_text(alloc: Global, heap: Lent<'_>, has_lead: bool, grants: u64) -> Check {
    let text = made!(text_of(heap, has_lead, grants));
    if !has_texts(heap, text.as_wtf8(), has_lead) {
        return Err(Failed::by(Wrong::Outcome));
    }
    expect_converted(alloc, text, has_lead)
}

/// Calls that make no request.
#[derive(Clone, Copy)]
enum Quiet {
    /// Appending nothing, and texts of an empty string.
    Nothing,
    /// Making a string of nothing.
    Made,
    /// The lossy text of a text.
    Borrowed,
    /// Those of `expect_room_for_pair`, by a list or not.
    Pair(bool),
    /// Those of `expect_piece`, applied or not.
    Piece(bool),
    /// Those of `expect_text`, with a lone lead or not.
    Text(bool),
}

/// Fails unless the calls do what their check requires.
fn expect_quiet(alloc: Global, heap: Lent<'_>, grants: u64, quiet: Quiet) -> Check {
    match quiet {
        Quiet::Nothing => expect_nothing(alloc, heap),
        Quiet::Made => expect_made_of_nothing(alloc, heap),
        Quiet::Borrowed => expect(
            is_lossy_text_borrowed(heap, Wtf8::from_str("a"), "a"),
            Wrong::Outcome,
        ),
        Quiet::Pair(is_list) => expect_room_for_pair(alloc, heap, grants, is_list),
        Quiet::Piece(is_applied) => expect_piece(alloc, heap, grants, is_applied),
        Quiet::Text(has_lead) => expect_text(alloc, heap, has_lead, grants),
    }
}

/// Fails unless each of the calls does what its check requires, and all requests that were granted are left after it.
fn expect_no_request(alloc: Global, calls: &[Quiet]) -> Check {
    let heap = Refusing::new(alloc, 0);
    for grants in GRANTS {
        for quiet in calls {
            heap.grant(grants);
            expect_quiet(alloc, &heap, grants, *quiet)?;
            expect(heap.grants_left() == grants, Wrong::Requests)?;
        }
    }
    Ok(())
}

#[test]
fn nothing_and_borrowed_texts_make_no_request(rt: HostRuntime) -> Check {
    expect_no_request(rt.alloc(), &[Quiet::Nothing, Quiet::Made, Quiet::Borrowed])
}

#[test]
fn pushes_within_capacity_make_no_request(rt: HostRuntime) -> Check {
    expect_no_request(rt.alloc(), &[Quiet::Pair(false)])
}

#[test]
fn a_list_within_capacity_makes_no_request(rt: HostRuntime) -> Check {
    expect_no_request(rt.alloc(), &[Quiet::Pair(true)])
}

#[test]
fn each_call_within_capacity_makes_no_request(rt: HostRuntime) -> Check {
    expect_no_request(rt.alloc(), &[Quiet::Piece(false)])
}

#[test]
fn applied_calls_within_capacity_make_no_request(rt: HostRuntime) -> Check {
    expect_no_request(rt.alloc(), &[Quiet::Piece(true)])
}

#[test]
fn texts_of_a_string_make_no_request(rt: HostRuntime) -> Check {
    expect_no_request(rt.alloc(), &[Quiet::Text(false), Quiet::Text(true)])
}
