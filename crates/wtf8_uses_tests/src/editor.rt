// An editor's text and cursor after scripts of steps, and after refused requests for memory. Expected values are worked out
// by hand, and a model in Python that keeps whole copies of the text has the same.
use crate::editor::Step::{AtStart, Back, Insert, MoveTo, Replace, Unchanged, Undo};
use crate::shared::{LEAD, TRAIL, has_units};
use refusing::{Lent, Refusing};
use std::alloc::{Allocator, Global};
use wtf8_tests::wrong::{Check, Failed, Wrong, each_row, expect, made};
use wtf8_uses::editor::{Editor, replace_and_undo, undo_twice};

/// A step, which fails if it returns otherwise than its comment says.
#[derive(Clone, Copy)]
enum Step {
    Insert(&'static [u16]),
    /// There is a code point before the cursor.
    Back,
    /// There is none.
    AtStart,
    /// Indexes, and the units that are put there.
    Replace(usize, usize, &'static [u16]),
    MoveTo(usize),
    /// There is a change.
    Undo,
    /// There is none.
    Unchanged,
}

/// A text, the steps, and the text and cursor after them, all in code units.
type Script = ((&'static [u16], &'static [Step]), (&'static [u16], usize));

static SCRIPTS: [Script; 14] = [
    ((&[0x61], &[Unchanged, AtStart, Unchanged]), (&[0x61], 0)),
    (
        (&[0x61, 0x62], &[MoveTo(1), Insert(&[0x63, 0x64])]),
        (&[0x61, 0x63, 0x64, 0x62], 3),
    ),
    (
        (
            &[0x61, 0x62],
            &[MoveTo(1), Insert(&[0x63, 0x64]), MoveTo(4), Undo],
        ),
        (&[0x61, 0x62], 1),
    ),
    // What was moved to before `undo` is where the redone text has its cursor.
    (
        (
            &[0x61, 0x62],
            &[
                MoveTo(1),
                Insert(&[0x63, 0x64]),
                MoveTo(4),
                Undo,
                MoveTo(0),
                Undo,
            ],
        ),
        (&[0x61, 0x63, 0x64, 0x62], 4),
    ),
    // Both surrogates of a pair are removed, and come back.
    (
        (&[0x61, LEAD, TRAIL, 0x62], &[MoveTo(3), Back]),
        (&[0x61, 0x62], 1),
    ),
    (
        (&[0x61, LEAD, TRAIL, 0x62], &[MoveTo(3), Back, Back, Undo]),
        (&[0x61, 0x62], 1),
    ),
    // Of a lone trail and a lone lead one unit each.
    ((&[TRAIL, LEAD], &[MoveTo(2), Back]), (&[TRAIL], 1)),
    (
        (&[LEAD, LEAD, TRAIL, TRAIL], &[MoveTo(4), Back, Back, Back]),
        (&[], 0),
    ),
    // Within a pair there is no cursor.
    (
        (&[0x61, LEAD, TRAIL], &[MoveTo(2), Insert(&[0x62])]),
        (&[0x61, 0x62, LEAD, TRAIL], 2),
    ),
    // A lead before a trail completes a pair, before which the cursor is.
    (
        (&[0x61, TRAIL], &[MoveTo(1), Insert(&[LEAD])]),
        (&[0x61, LEAD, TRAIL], 1),
    ),
    (
        (&[LEAD, 0x61, TRAIL], &[MoveTo(2), Back, Undo]),
        (&[LEAD, 0x61, TRAIL], 2),
    ),
    // A trail after a lead completes a pair, after which the cursor is.
    (
        (&[LEAD], &[MoveTo(1), Insert(&[TRAIL])]),
        (&[LEAD, TRAIL], 2),
    ),
    // Two pairs are cut, and each half stays.
    (
        (&[LEAD, TRAIL, 0x61, LEAD, TRAIL], &[Replace(1, 4, &[0x62])]),
        (&[LEAD, 0x62, TRAIL], 2),
    ),
    (
        (
            &[LEAD, TRAIL, 0x61, LEAD, TRAIL],
            &[Replace(1, 4, &[0x62]), Undo, Undo, Replace(0, 1, &[]), Undo],
        ),
        (&[LEAD, 0x62, TRAIL], 2),
    ),
];

/// Whether the step returns what its comment says.
fn is_taken<A: Allocator + Copy>(editor: &mut Editor<A>, step: Step) -> bool {
    let len = editor.text().unit_len();
    match step {
        Step::Insert(units) => editor.insert(units).is_ok(),
        Step::Back => matches!(editor.delete_back(), Ok(true)),
        Step::AtStart => matches!(editor.delete_back(), Ok(false)),
        Step::Replace(begin, end, units) => {
            begin <= end && end <= len && editor.replace(begin, end, units).is_ok()
        }
        Step::MoveTo(index) => {
            if index <= len {
                editor.move_to(index);
            }
            index <= len
        }
        Step::Undo => editor.undo(),
        Step::Unchanged => !editor.undo(),
    }
}

/// Whether the editor shows these units, with the cursor at this index.
fn shows<A: Allocator + Copy>(editor: &Editor<A>, units: &[u16], cursor: usize) -> bool {
    has_units(editor.text(), units) && editor.cursor() == cursor
}

/// Fails unless the steps leave the text and cursor of the script.
fn expect_script(alloc: Global, ((text, steps), (units, cursor)): Script) -> Check {
    let mut editor = made!(Editor::from_units(alloc, text));
    for step in steps {
        if !is_taken(&mut editor, *step) {
            return Err(Failed::by(Wrong::Outcome));
        }
    }
    expect(shows(&editor, units, cursor), Wrong::Units)
}

#[test]
fn scripts_leave_their_texts_and_cursors(rt: HostRuntime) -> Check {
    each_row!(script in SCRIPTS => expect_script(rt.alloc(), script))
}

/// "b" sixteen times.
const SIXTEEN: [u16; 16] = [0x62; 16];

/// Whether a longer text is refused with this number of grants, and leaves what the editor showed and can undo.
fn is_kept(heap: Lent<'_>, editor: &mut Editor<Lent<'_>>, grants: u64) -> bool {
    heap.grant(grants);
    let is_refused = editor.insert(&SIXTEEN).is_err() && shows(editor, &[0x61, 0x63], 1);
    heap.grant(0);
    let is_undone = editor.undo() && shows(editor, &[0x63], 0);
    let is_redone = editor.undo() && shows(editor, &[0x61, 0x63], 1);
    is_refused && is_undone && is_redone && heap.requests() == 0
}

/// Fails unless both requests of an insertion are granted.
fn expect_granted(heap: Lent<'_>, editor: &mut Editor<Lent<'_>>) -> Check {
    heap.grant(2);
    let is_inserted = editor.insert(&SIXTEEN).is_ok() && editor.cursor() == 17;
    expect(is_inserted, Wrong::Requests)
}

/// Fails unless the new units and the longer text are refused, and then granted.
fn expect_kept(heap: Lent<'_>) -> Check {
    let mut editor = made!(Editor::from_units(heap, &[0x63]));
    if editor.insert(&[0x61]).is_err() {
        return Err(Failed::by(Wrong::Memory));
    }
    let is_kept = is_kept(heap, &mut editor, 0) && is_kept(heap, &mut editor, 1);
    if !is_kept {
        return Err(Failed::by(Wrong::Outcome));
    }
    expect_granted(heap, &mut editor)
}

#[test]
fn a_refused_change_leaves_the_text_the_cursor_and_the_change_before(rt: HostRuntime) -> Check {
    let heap = Refusing::new(rt.alloc(), 9);
    expect_kept(&heap)
}

/// Whether a change that is undone and a change that is undone and redone leave the text and the cursor.
fn are_same(editor: &mut Editor<Global>) -> bool {
    let len = editor.text().unit_len();
    let is_undone = 2 <= len && matches!(replace_and_undo(editor, 1, 2, &SIXTEEN), Ok(true));
    is_undone && shows(editor, &[LEAD, TRAIL, 0x61], 2)
}

#[test]
fn a_change_is_undone_and_redone(rt: HostRuntime) -> Check {
    let mut editor = made!(Editor::from_units(rt.alloc(), &[LEAD, TRAIL, 0x61]));
    if 2 <= editor.text().unit_len() {
        editor.move_to(2);
    }
    expect(are_same(&mut editor), Wrong::Units)?;
    undo_twice(&mut editor);
    expect(are_same(&mut editor), Wrong::Units)
}
