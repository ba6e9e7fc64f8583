// Debug texts. The functions ignore the formatter's width and flags.
ghost use Rattle.std.specs.Prelude.{◌<◌, Some, [], ◌∷◌};
ghost use Rattle.std.specs.Fmt.{DisplaysOnOk, WritesStyledOnOk};
ghost use Rattle.std.specs.List.{flat_map};
ghost use Rattle.wtf8.specs.CodePoint.{number};
ghost use Rattle.wtf8.specs.Debug.{last_four_digits, upper_hex, debug_point, escape_surrogate, debug};
ghost use Rattle.wtf8.specs.View.{view_points};
ghost use Rattle.wtf8.specs.Hex.{digit};
ghost use Rattle.wtf8.specs.Unicode.{IsCodePoint};

use crate::buffers::buf::Wtf8Buf;
use crate::codec::code_point::CodePoint;
use crate::formatting::hex_dump;
use crate::strings::view::Wtf8;
use std::alloc::Allocator;
use std::fmt;

fn write_hex_digit<W: fmt::Write>(value: u32, f: &mut fmt::Formatter<W>) -> fmt::Result
    requires { value < 16 }
    ensures { WritesStyledOnOk W.write_str_gives f.old result (digit value ∷ []) f.new }
{
    f.write_char(hex_dump::upper_digit(value as u8))
}

fn write_last_four_digits<W: fmt::Write>(value: u32, f: &mut fmt::Formatter<W>) -> fmt::Result
    ensures { WritesStyledOnOk W.write_str_gives f.old result (last_four_digits value) f.new }
{
    write_hex_digit(value / 0x1000 % 16, f)?;
    write_hex_digit(value / 0x100 % 16, f)?;
    write_hex_digit(value / 0x10 % 16, f)?;
    write_hex_digit(value % 16, f)
}

fn write_upper_hex<W: fmt::Write>(value: u32, f: &mut fmt::Formatter<W>) -> fmt::Result
    requires { IsCodePoint value }
    ensures { WritesStyledOnOk W.write_str_gives f.old result (upper_hex value) f.new }
{
    if value >= 0x100000 {
        write_hex_digit(value / 0x100000, f)?;
        write_hex_digit(value / 0x10000 % 16, f)?;
    } else if value >= 0x10000 {
        write_hex_digit(value / 0x10000, f)?;
    }
    write_last_four_digits(value, f)
}

/// Writes `U+` and the number in upper-case hexadecimal, with at least four digits. The formatter's width and flags are
/// ignored.
impl fmt::Debug for CodePoint {
    ghost debug_output = { λ p. Some (debug_point (number p)) };

    fn fmt<W: fmt::Write>(&self, f: &mut fmt::Formatter<W>) -> fmt::Result
        ensures writes { DisplaysOnOk W.write_str_gives f.old result (Some (debug_point (number self.now))) f.new }
        ensures styled { WritesStyledOnOk W.write_str_gives f.old result (debug_point (number self.now)) f.new }
    {
        f.write_str("U+")?;
        write_upper_hex(self.to_u32(), f)
    }
}

fn write_point<W: fmt::Write>(code_point: CodePoint, f: &mut fmt::Formatter<W>) -> fmt::Result
    ensures { WritesStyledOnOk W.write_str_gives f.old result (escape_surrogate (number code_point)) f.new }
{
    match code_point.to_char() {
        Some(scalar) => f.write_char(scalar),
        None => {
            f.write_str("\\u{")?;
            write_upper_hex(code_point.to_u32(), f)?;
            f.write_str("}")
        }
    }
}

fn write_points<W: fmt::Write>(text: Wtf8<'_>, f: &mut fmt::Formatter<W>) -> fmt::Result
    ensures { WritesStyledOnOk W.write_str_gives f.old result (flat_map escape_surrogate (view_points text.entry)) f.new }
{
    let mut rest = text;
    while let Some((code_point, after)) = rest.split_first() {
        write_point(code_point, f)?;
        rest = after;
    }
    Ok(())
}

/// Writes the code points between double quotes: a scalar value as itself, a surrogate as `\u{`, its four upper-case
/// hexadecimal digits and `}`. Nothing else is escaped. The formatter's width and flags are ignored.
impl<'a> fmt::Debug for Wtf8<'a> {
    ghost debug_output = { λ text. Some (debug (view_points text)) };

    fn fmt<W: fmt::Write>(&self, f: &mut fmt::Formatter<W>) -> fmt::Result
        ensures writes { DisplaysOnOk W.write_str_gives f.old result (Some (debug (view_points self.now))) f.new }
        ensures styled { WritesStyledOnOk W.write_str_gives f.old result (debug (view_points self.now)) f.new }
    {
        f.write_str("\"")?;
        write_points(*self, f)?;
        f.write_str("\"")
    }
}

/// Writes the debug text of the view.
impl<A: Allocator> fmt::Debug for Wtf8Buf<A> {
    ghost debug_output = { λ text. Some (debug text.form.points) };

    fn fmt<W: fmt::Write>(&self, f: &mut fmt::Formatter<W>) -> fmt::Result
        ensures writes { DisplaysOnOk W.write_str_gives f.old result (Some (debug self.now.form.points)) f.new }
        ensures styled { WritesStyledOnOk W.write_str_gives f.old result (debug self.now.form.points) f.new }
    {
        self.as_wtf8().fmt(f)
    }
}
