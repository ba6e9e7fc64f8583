// The debug texts of texts and buffers.
ghost use Rattle.std.specs.Prelude.{◌≡◌, Some};
ghost use Rattle.std.specs.Fmt.{DisplaysOnOk, WritesStyledOnOk};
ghost use Rattle.wtf8.specs.Debug.{debug};

use crate::indexed::IndexedBuf;
use crate::text::UnitText;
use std::alloc::Allocator;
use std::fmt;

/// Writes the code points of the view between double quotes, whatever the formatter's width and flags. A lone surrogate
/// is written as `\u{`, its four upper-case hexadecimal digits and `}`; nothing else is escaped.
impl<A: Allocator> fmt::Debug for UnitText<A> {
    ghost use Rattle.unit_text.specs.Reading.{reading};

    ghost debug_output = { λ units. Some (debug (reading units)) };

    fn fmt<W: fmt::Write>(&self, f: &mut fmt::Formatter<W>) -> fmt::Result
        ensures writes { DisplaysOnOk W.write_str_gives f.old result (Some (debug (reading self.now))) f.new }
        ensures styled { WritesStyledOnOk W.write_str_gives f.old result (debug (reading self.now)) f.new }
    {
        self.as_wtf8().fmt(f)
    }
}

/// Writes the debug text of the view.
impl<A: Allocator> fmt::Debug for IndexedBuf<A> {
    ghost debug_output = { λ string. Some (debug string.form.points) };

    fn fmt<W: fmt::Write>(&self, f: &mut fmt::Formatter<W>) -> fmt::Result
        ensures writes { DisplaysOnOk W.write_str_gives f.old result (Some (debug self.now.form.points)) f.new }
        ensures styled { WritesStyledOnOk W.write_str_gives f.old result (debug self.now.form.points) f.new }
    {
        self.text.fmt(f)
    }
}
