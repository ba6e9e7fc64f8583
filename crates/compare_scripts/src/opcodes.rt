// The calls of scripts, by their opcodes.
//
// A comment names the operands of a call in their order, then the call. `Reader` says how operands are encoded. Units
// follow their number, which takes two bytes in a call on the texts and one in any other.

/// A call of a script.
#[derive(Clone, Copy)]
pub enum Call {
    /// A call on operands alone.
    Operands(OperandCall),
    /// A call on one of the strings. Its first operand is the string's register.
    String(StringCall),
    /// A call on the texts.
    Text(TextCall),
    /// A call on the indexed string.
    Indexed(IndexedCall),
    /// Writes nothing, and neither does any call after it: a count of instructions is then of the calls, not of the
    /// transcript.
    Silence,
}

/// A call on operands alone, which writes what it returns.
#[derive(Clone, Copy)]
pub enum OperandCall {
    /// Text: `Wtf8::from_str`.
    ViewFromStr,
    /// Value: the calls of `CodePoint`.
    CodePoint,
    /// Two values: all comparisons of two code points.
    CodePointComparisons,
}

/// A call on the string of a register.
#[derive(Clone, Copy)]
pub enum StringCall {
    /// A call that changes the string, and then writes its length and bytes.
    Change(Change),
    /// A call that writes what it returns.
    Read(Read),
    /// Two numbers: the calls that read a view, on a slice.
    ReadSlice,
    /// Two numbers, then a register and two numbers: all comparisons of two slices.
    CompareSlices,
    /// Points, then building calls: `apply` of each. Writes what each returns, and the string after it.
    Apply,
}

/// A call that changes a string.
#[derive(Clone, Copy)]
pub enum Change {
    /// A call that makes the string anew.
    Make(Make),
    /// A call that appends to the string, or reserves.
    Append(Append),
    /// A call that truncates the string.
    Cut(Cut),
    /// A call that converts the string to a text.
    Convert(Convert),
    /// `shrink_to_fit`.
    ShrinkToFit,
}

/// A call that makes a string anew.
#[derive(Clone, Copy)]
pub enum Make {
    /// `new`.
    New,
    /// Number: `with_capacity`. Writes whether the capacity is at least the number.
    WithCapacity,
    /// Text: `from_string`.
    FromString,
    /// Text: `from_str`.
    FromStr,
    /// Units: `from_ill_formed_utf16`.
    FromIllFormedUtf16,
    /// Points: `from_iter`.
    FromIter,
    /// Register, number: `from_iter` of the code points of that string without the first ones.
    FromIterCodePoints,
    /// Register: `clone` of that string.
    Clone,
    /// Register, two numbers: `slice` of that string.
    Slice,
    /// Register, number: a slice of that string from its start or to its end.
    OpenSlice(OpenSlice),
    /// Register, two numbers: `push_wtf8` of a slice of that string to a clone of the string.
    PushSlice,
    /// Number, points: `from_iter` of points with the number as the lower size hint.
    FromIterHinted,
    /// Two numbers, points, then building calls: `apply_all` of the list, on a copy with the first number of bytes of
    /// spare capacity, and with the second number of requests granted. Writes the number of refused truncations or the
    /// index of the refused call, and the units.
    ApplyAll,
}

/// A call that slices a string from a position on, or up to a position.
#[derive(Clone, Copy)]
pub enum OpenSlice {
    /// `slice_from`.
    SliceFrom,
    /// `slice_to`.
    SliceTo,
}

/// A call that appends to a string, or reserves.
#[derive(Clone, Copy)]
pub enum Append {
    /// Number: `reserve`. Writes whether the spare capacity is at least the number.
    Reserve,
    /// Value: `push`.
    Push,
    /// Value: `push_char`.
    PushChar,
    /// Text: `push_str`.
    PushStr,
    /// Register: `push_wtf8` of a clone of that string.
    PushWtf8,
    /// Points: `extend`.
    Extend,
    /// Register, number: `extend` by the code points of a clone of that string without the first ones.
    ExtendCodePoints,
    /// Number, points: `extend` by points with the number as the lower size hint.
    ExtendHinted,
    /// Units: `push_ill_formed_utf16`.
    PushIllFormedUtf16,
    /// Register: `push_ill_formed_utf16` of the units of that string, which are more than a script can list.
    PushUnitsOf,
    /// Number: `push_unit`.
    PushUnit,
}

/// A call that truncates a string. Writes whether the capacity is unchanged.
#[derive(Clone, Copy)]
pub enum Cut {
    /// Number: `truncate`.
    Truncate,
    /// Number: `truncate_units`.
    TruncateUnits,
}

/// A call that converts a string to a text. Writes the text and whether the capacity is unchanged, or that there is no
/// text. The result becomes the string again.
#[derive(Clone, Copy)]
pub enum Convert {
    /// `into_string`.
    IntoString,
    /// `into_string_lossy`.
    IntoStringLossy,
}

/// A call that reads a string.
#[derive(Clone, Copy)]
pub enum Read {
    /// Number: `ascii_byte_at`.
    AsciiByteAt,
    /// The indexes up to the length that `is_code_point_boundary` accepts.
    Boundaries,
    /// Steps: `code_points`.
    CodePoints,
    /// Steps: `to_ill_formed_utf16`.
    ToIllFormedUtf16,
    /// `as_str`.
    AsStr,
    /// `to_string_lossy`.
    ToStringLossy,
    /// Register: all comparisons with that string, as buffers and as views.
    Comparisons,
    /// The bytes that the string and its view feed a hasher.
    Hash,
    /// The debug texts of the string and of its view.
    Debug,
    /// `unit_len`, and `unit_at` of each index.
    UnitAt,
    /// Two numbers: `slice_units`.
    SliceUnits,
    /// Register: `cmp_units` with that string, in both directions.
    CmpUnits,
    /// Units: `append_units` to them.
    AppendUnits,
    /// `mark_before` of each position, counted from the start and from a mark in the middle, and `mark_at` of each
    /// number of units.
    Marks,
    /// `as_wtf8` of both iterators after each step, and `encoded_len` of each code point.
    Left,
    /// Units: `write_units` to a slice that has room for the string's units, and these units after them.
    WriteUnits,
}

/// A call on the texts.
#[derive(Clone, Copy)]
pub enum TextCall {
    /// A call that changes the first text, and then writes its units.
    Change(ChangeText),
    /// A call that writes what it returns.
    Read(ReadText),
    /// Swaps the texts, and writes only `swapped`.
    Swap,
}

/// A call that changes the first text.
#[derive(Clone, Copy)]
pub enum ChangeText {
    /// A call that makes the text anew.
    Make(MakeText),
    /// Appends the second text (`concat`).
    Concat,
    /// Makes the text keep marks from now on (`mark_units`).
    Mark,
    /// Units: pushes each.
    Push,
    /// Units: `push_units` of all at once.
    PushUnits,
    /// Text: `push_str`.
    PushStr,
    /// Units: `push_wtf8` of their string.
    PushWtf8,
    /// `into_wtf8`, then `from_wtf8` of the string, which leaves the marks out.
    ThroughWtf8,
    /// Number: `truncate_units` to that length.
    Truncate,
}

/// A call that makes the first text anew.
#[derive(Clone, Copy)]
pub enum MakeText {
    /// `new`.
    New,
    /// `clone` of the second text, without its marks.
    Clone,
    /// Units: makes the text of them.
    Set,
    /// Text: `from_str`.
    FromStr,
    /// Two numbers: the units from one index to another.
    Slice,
    /// Number: `pad_start` to that width by the second text.
    PadStart,
    /// Number: `repeat`.
    Repeat,
    /// `trim_ascii`.
    Trim,
    /// Units: `replace` of the second text by them.
    Replace,
    /// `to_well_formed`.
    ToWellFormed,
}

/// A call that reads the texts.
#[derive(Clone, Copy)]
pub enum ReadText {
    /// The number of units.
    Length,
    /// Number: the unit at that index, by `unit_at` and by `char_code_at`.
    UnitAt,
    /// Two numbers: `substring`.
    Substring,
    /// Number: `char_at`.
    CharAt,
    /// Number: whether the second text occurs at that index (`starts_with`).
    StartsWith,
    /// The order of the texts, `is_less` in both directions, and whether they are equal.
    Compare,
    /// The number of indexes at which the first text, cut and joined again, is unchanged.
    CutEverywhere,
    /// Number: `index_of` the second text, from that index.
    IndexOf,
    /// Number: `at` that index and at its negation.
    At,
    /// Number: `code_point_at`.
    CodePointAt,
    /// `is_well_formed`.
    IsWellFormed,
    /// Unit: `split` at it. Writes the number of pieces, then one piece a line.
    Split,
    /// Number: `last_index_of` the second text, up to that index.
    LastIndexOf,
    /// Number: `ends_with` the second text, at that index.
    EndsWith,
    /// Number: `position_at` that index.
    PositionAt,
    /// Number: `unit_before` that position.
    UnitBefore,
    /// Number: `units_from` that index.
    UnitsFrom,
    /// `lines_of`: the mark at the start of each line, and `line_column_at` each position.
    Lines,
    /// Two numbers: `mark_at_column` of a line and a column.
    MarkAtColumn,
    /// `append_json_text` of the first text, then of the second, and whether `append_json_bytes` appends the same.
    Json,
    /// `read_json_string`: the text and what follows it, or the position and the cause of the error.
    ReadJson,
}

/// A call on the indexed string, which is an `IndexedBuf`.
#[derive(Clone, Copy)]
pub enum IndexedCall {
    /// A call that changes the string, and then writes its number of units, its length and its bytes.
    Change(ChangeIndexed),
    /// A call that writes what it returns.
    Read(ReadIndexed),
    /// Register: `into_buf`. The result becomes that string, and the indexed string is empty then.
    IntoBuf,
    /// Register, two numbers: `slice_units`, appended to that string by `push_unit_slice`.
    PushSlice,
}

/// A call that changes the indexed string.
#[derive(Clone, Copy)]
pub enum ChangeIndexed {
    /// A call that makes the string anew.
    Make(MakeIndexed),
    /// A call that appends to the string, or reserves.
    Append(AppendIndexed),
    /// Register: `push_wtf8` of a clone of that string.
    PushWtf8,
    /// Register, two numbers: `push_unit_slice` of the `slice_units` of a clone of that string.
    PushUnitSlice,
    /// A call that truncates the string.
    Cut(CutIndexed),
    /// Two numbers, units: `replace_units` from one index to another by these units; `insert_units` if the numbers are
    /// equal, else `remove_units` if there are no units.
    ReplaceUnits,
    /// Two numbers, register: `replace` from one index to another by a clone of that string; `insert` if the numbers are
    /// equal.
    Replace,
    /// Makes the string keep marks from now on (`mark_units`).
    Mark,
    /// `shrink_to_fit`.
    ShrinkToFit,
}

/// A call that makes the indexed string anew.
#[derive(Clone, Copy)]
pub enum MakeIndexed {
    /// `new`.
    New,
    /// Number: `with_capacity`. Writes whether the capacity is at least the number.
    WithCapacity,
    /// Units: `from_units`.
    FromUnits,
    /// Register: `from_buf` of a clone of that string.
    FromBuf,
    /// `clone`, which keeps no marks.
    Clone,
}

/// A call that appends to the indexed string, or reserves.
#[derive(Clone, Copy)]
pub enum AppendIndexed {
    /// Number: `reserve`. Writes whether the spare capacity is at least the number.
    Reserve,
    /// Value: `push`.
    Push,
    /// Number: `push_unit`.
    PushUnit,
    /// Value: `push_char`.
    PushChar,
    /// Text: `push_str`.
    PushStr,
    /// Units: `push_units`.
    PushUnits,
}

/// A call that truncates the indexed string. Writes whether the capacity is unchanged.
#[derive(Clone, Copy)]
pub enum CutIndexed {
    /// Number: `truncate`.
    Truncate,
    /// Number: `truncate_units`.
    TruncateUnits,
    /// `clear`.
    Clear,
}

/// A call that reads the indexed string.
#[derive(Clone, Copy)]
pub enum ReadIndexed {
    /// Number: `unit_at` that index.
    UnitAt,
    /// Two numbers, units: `copy_units` to a slice that has room for them, and these units after them.
    CopyUnits,
    /// Number, steps: `units_from` that index.
    UnitsFrom,
    /// Number: `position_at` that index.
    PositionAt,
    /// Number: `unit_before` that position.
    UnitBefore,
    /// Register: all comparisons with that string.
    Comparisons,
    /// The bytes that the string feeds a hasher.
    Hash,
    /// The debug text.
    Debug,
}

/// A step on an iterator. Writes what it returns.
#[derive(Clone, Copy)]
pub enum Step {
    /// `next`.
    Next,
    /// `nth(1)`.
    Nth,
    /// `size_hint`.
    SizeHint,
    /// Replaces the iterator by its clone.
    Replace,
    /// A step on a clone.
    OnClone(CloneStep),
}

/// A step on a clone of an iterator.
#[derive(Clone, Copy)]
pub enum CloneStep {
    /// The remaining items, a size hint before each, and `next` once more after the end.
    Drain,
    /// `last`.
    Last,
    /// `skip(2)`, then `next`.
    Skip,
    /// `collect`: the number of items, and each item.
    Collect,
}

impl Call {
    /// The call of an opcode, if there is one.
    pub fn from_opcode(opcode: u8) -> Option<Call> {
        let call = match opcode {
            30 => Call::Operands(OperandCall::ViewFromStr),
            31 => Call::Operands(OperandCall::CodePoint),
            32 => Call::Operands(OperandCall::CodePointComparisons),
            100 => Call::Silence,
            0..64 => Call::String(StringCall::from_opcode(opcode)?),
            128.. => Call::Indexed(IndexedCall::from_opcode(opcode)?),
            _ => Call::Text(TextCall::from_opcode(opcode)?),
        };
        Some(call)
    }
}

impl StringCall {
    fn from_opcode(opcode: u8) -> Option<StringCall> {
        let call = match opcode {
            21 => StringCall::Read(Read::AsciiByteAt),
            22 => StringCall::Read(Read::Boundaries),
            23 => StringCall::Read(Read::CodePoints),
            24 => StringCall::Read(Read::ToIllFormedUtf16),
            25 => StringCall::Read(Read::AsStr),
            26 => StringCall::Read(Read::ToStringLossy),
            27 => StringCall::Read(Read::Comparisons),
            28 => StringCall::Read(Read::Hash),
            29 => StringCall::Read(Read::Debug),
            34 => StringCall::ReadSlice,
            35 => StringCall::CompareSlices,
            39 => StringCall::Apply,
            41 => StringCall::Read(Read::UnitAt),
            42 => StringCall::Read(Read::SliceUnits),
            43 => StringCall::Read(Read::CmpUnits),
            44 => StringCall::Read(Read::AppendUnits),
            46 => StringCall::Read(Read::Marks),
            47 => StringCall::Read(Read::Left),
            50 => StringCall::Read(Read::WriteUnits),
            _ => StringCall::Change(Change::from_opcode(opcode)?),
        };
        Some(call)
    }
}

impl Change {
    fn from_opcode(opcode: u8) -> Option<Change> {
        let call = match opcode {
            0 => Change::Make(Make::New),
            1 => Change::Make(Make::WithCapacity),
            2 => Change::Make(Make::FromString),
            3 => Change::Make(Make::FromStr),
            4 => Change::Make(Make::FromIllFormedUtf16),
            5 => Change::Make(Make::FromIter),
            6 => Change::Make(Make::FromIterCodePoints),
            7 => Change::Make(Make::Clone),
            8 => Change::Append(Append::Reserve),
            9 => Change::Append(Append::Push),
            10 => Change::Append(Append::PushChar),
            11 => Change::Append(Append::PushStr),
            12 => Change::Append(Append::PushWtf8),
            13 => Change::Append(Append::Extend),
            14 => Change::Append(Append::ExtendCodePoints),
            15 => Change::Cut(Cut::Truncate),
            16 => Change::Make(Make::Slice),
            17 => Change::Make(Make::OpenSlice(OpenSlice::SliceFrom)),
            18 => Change::Make(Make::OpenSlice(OpenSlice::SliceTo)),
            19 => Change::Convert(Convert::IntoString),
            20 => Change::Convert(Convert::IntoStringLossy),
            33 => Change::Cut(Cut::TruncateUnits),
            36 => Change::Make(Make::PushSlice),
            37 => Change::Append(Append::ExtendHinted),
            38 => Change::Make(Make::FromIterHinted),
            40 => Change::Make(Make::ApplyAll),
            45 => Change::ShrinkToFit,
            48 => Change::Append(Append::PushIllFormedUtf16),
            49 => Change::Append(Append::PushUnit),
            51 => Change::Append(Append::PushUnitsOf),
            _ => return None,
        };
        Some(call)
    }
}

impl TextCall {
    fn from_opcode(opcode: u8) -> Option<TextCall> {
        let call = match opcode {
            65 => TextCall::Swap,
            68 => TextCall::Read(ReadText::Length),
            69 => TextCall::Read(ReadText::UnitAt),
            70 => TextCall::Read(ReadText::Substring),
            71 => TextCall::Read(ReadText::CharAt),
            72 => TextCall::Read(ReadText::StartsWith),
            73 => TextCall::Read(ReadText::Compare),
            74 => TextCall::Read(ReadText::CutEverywhere),
            76 => TextCall::Read(ReadText::IndexOf),
            77 => TextCall::Read(ReadText::At),
            78 => TextCall::Read(ReadText::CodePointAt),
            79 => TextCall::Read(ReadText::IsWellFormed),
            80 => TextCall::Read(ReadText::Split),
            87 => TextCall::Read(ReadText::LastIndexOf),
            88 => TextCall::Read(ReadText::EndsWith),
            93 => TextCall::Read(ReadText::PositionAt),
            94 => TextCall::Read(ReadText::UnitBefore),
            96 => TextCall::Read(ReadText::Lines),
            97 => TextCall::Read(ReadText::MarkAtColumn),
            98 => TextCall::Read(ReadText::Json),
            99 => TextCall::Read(ReadText::ReadJson),
            104 => TextCall::Read(ReadText::UnitsFrom),
            _ => TextCall::Change(ChangeText::from_opcode(opcode)?),
        };
        Some(call)
    }
}

impl ChangeText {
    fn from_opcode(opcode: u8) -> Option<ChangeText> {
        let call = match opcode {
            64 => ChangeText::Make(MakeText::Set),
            66 => ChangeText::Make(MakeText::Slice),
            67 => ChangeText::Concat,
            75 => ChangeText::Mark,
            81 => ChangeText::Make(MakeText::PadStart),
            82 => ChangeText::Make(MakeText::Repeat),
            83 => ChangeText::Make(MakeText::Trim),
            84 => ChangeText::Make(MakeText::Replace),
            85 => ChangeText::Make(MakeText::ToWellFormed),
            86 => ChangeText::Push,
            89 => ChangeText::Make(MakeText::FromStr),
            90 => ChangeText::PushStr,
            91 => ChangeText::PushWtf8,
            92 => ChangeText::ThroughWtf8,
            95 => ChangeText::Truncate,
            101 => ChangeText::Make(MakeText::New),
            102 => ChangeText::Make(MakeText::Clone),
            103 => ChangeText::PushUnits,
            _ => return None,
        };
        Some(call)
    }
}

impl IndexedCall {
    fn from_opcode(opcode: u8) -> Option<IndexedCall> {
        let call = match opcode {
            144 => IndexedCall::PushSlice,
            145 => IndexedCall::Read(ReadIndexed::UnitAt),
            146 => IndexedCall::Read(ReadIndexed::CopyUnits),
            147 => IndexedCall::Read(ReadIndexed::UnitsFrom),
            148 => IndexedCall::Read(ReadIndexed::PositionAt),
            149 => IndexedCall::Read(ReadIndexed::UnitBefore),
            150 => IndexedCall::Read(ReadIndexed::Comparisons),
            151 => IndexedCall::Read(ReadIndexed::Hash),
            152 => IndexedCall::Read(ReadIndexed::Debug),
            153 => IndexedCall::IntoBuf,
            _ => IndexedCall::Change(ChangeIndexed::from_opcode(opcode)?),
        };
        Some(call)
    }
}

impl ChangeIndexed {
    fn from_opcode(opcode: u8) -> Option<ChangeIndexed> {
        let call = match opcode {
            128 => ChangeIndexed::Make(MakeIndexed::New),
            129 => ChangeIndexed::Make(MakeIndexed::WithCapacity),
            130 => ChangeIndexed::Make(MakeIndexed::FromUnits),
            131 => ChangeIndexed::Make(MakeIndexed::FromBuf),
            132 => ChangeIndexed::Make(MakeIndexed::Clone),
            133 => ChangeIndexed::Mark,
            134 => ChangeIndexed::Append(AppendIndexed::Reserve),
            135 => ChangeIndexed::Append(AppendIndexed::Push),
            136 => ChangeIndexed::Append(AppendIndexed::PushUnit),
            137 => ChangeIndexed::Append(AppendIndexed::PushChar),
            138 => ChangeIndexed::Append(AppendIndexed::PushStr),
            139 => ChangeIndexed::Append(AppendIndexed::PushUnits),
            140 => ChangeIndexed::PushWtf8,
            141 => ChangeIndexed::Cut(CutIndexed::Truncate),
            142 => ChangeIndexed::Cut(CutIndexed::TruncateUnits),
            143 => ChangeIndexed::Cut(CutIndexed::Clear),
            154 => ChangeIndexed::PushUnitSlice,
            155 => ChangeIndexed::ShrinkToFit,
            156 => ChangeIndexed::ReplaceUnits,
            157 => ChangeIndexed::Replace,
            _ => return None,
        };
        Some(call)
    }
}

impl Step {
    /// The step of a byte, if there is one.
    pub fn from_byte(byte: u8) -> Option<Step> {
        let step = match byte {
            0 => Step::Next,
            1 => Step::SizeHint,
            2 => Step::OnClone(CloneStep::Drain),
            3 => Step::Replace,
            4 => Step::Nth,
            5 => Step::OnClone(CloneStep::Last),
            6 => Step::OnClone(CloneStep::Skip),
            7 => Step::OnClone(CloneStep::Collect),
            _ => return None,
        };
        Some(step)
    }
}
