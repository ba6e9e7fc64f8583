// Display texts, which are lossy if a string holds surrogates.
ghost use Rattle.std.specs.Prelude.{Some};
ghost use Rattle.std.specs.Fmt.{WritesStyledOnOk, styled_text};
ghost use Rattle.wtf8.specs.Display.{display_output};
ghost use Rattle.wtf8.specs.Form.{bytes};
ghost use Rattle.wtf8.specs.Surrogates.{lossy_points};
ghost use Rattle.wtf8.specs.View.{view_points};

use crate::buffers::buf::Wtf8Buf;
use crate::strings::view::Wtf8;
use std::alloc::Allocator;
use std::fmt;

fn write_lossy<W: fmt::Write>(view: Wtf8<'_>, f: &mut fmt::Formatter<W>) -> fmt::Result
    ensures { WritesStyledOnOk W.write_str_gives f.old result (bytes (lossy_points (view_points view.entry))) f.new }
{
    let mut rest = view;
    loop {
        let (part, after) = rest.split_at_surrogate();
        f.write_str(part)?;
        let Some(next) = after else {
            return Ok(());
        };
        f.write_str("\u{FFFD}")?;
        rest = next;
    }
}

/// Writes the text with U+FFFD in place of each surrogate. Width, fill, alignment and precision apply if the string
/// holds no surrogate, and are ignored otherwise. Does not allocate. Stops at the writer's first error and returns it.
impl<'a> fmt::Display for Wtf8<'a> {
    ghost output = { λ view. Some (bytes (lossy_points (view_points view))) };

    ghost styled_output = { λ view spec. Some (display_output (view_points view) (styled_text spec view.bytes.now)) };

    fn fmt<W: fmt::Write>(&self, f: &mut fmt::Formatter<W>) -> fmt::Result {
        match self.as_str() {
            Some(text) => f.pad(text),
            None => write_lossy(*self, f),
        }
    }
}

/// Writes the display text of the view.
impl<A: Allocator> fmt::Display for Wtf8Buf<A> {
    ghost output = { λ string. Some (bytes (lossy_points string.form.points)) };

    ghost styled_output = { λ string spec. Some (display_output string.form.points (styled_text spec string.bytes)) };

    fn fmt<W: fmt::Write>(&self, f: &mut fmt::Formatter<W>) -> fmt::Result {
        fmt::Display::fmt(&self.as_wtf8(), f)
    }
}
