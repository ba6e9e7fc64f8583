// The output for one line.
ghost use Rattle.std.specs.Prelude.{◌≡◌, ℕ, List, ◌++◌, IfOk, OnOk, MatchBool};
ghost use Rattle.std.specs.List.{Any, AllZip};
ghost use Rattle.wtf8.specs.Hex.{hex};
ghost use Rattle.dump_lines.specs.Dump.{IsOutput, note};
ghost use Rattle.dump_lines.specs.Lines.{words};
ghost use Rattle.dump_lines.specs.Word.{IsCall, IsNoCall};

use crate::word::parse_first_word;
use std::alloc::{AllocError, Allocator};
use wtf8::{Build, Wtf8Buf};

/// Buffers that are reused from line to line: the calls of a line, and the string that they build.
#[derive(Drop)]
pub struct LineBuffers<A: Allocator> {
    calls: Vec<Build<'static>, A>,
    string: Wtf8Buf<A>,
    alloc: A,
}

impl<A: Allocator + Copy> LineBuffers<A> {
    /// Makes empty buffers. Does not allocate.
    pub fn new(alloc: A) -> LineBuffers<A> {
        LineBuffers {
            calls: Vec::new(alloc),
            string: Wtf8Buf::new(alloc),
            alloc,
        }
    }

    /// Appends what `dump_line` returns for a line.
    pub fn push_output(&mut self, line: &[u8], out: &mut Vec<u8, A>) -> Result<(), AllocError>
        ensures output { OnOk result ((output : List ℕ) × IsOutput line.now output × (out.new.items ≡ out.old.items ++ output)) }
    {
        if line.is_empty() {
            return Ok(());
        }
        if !parse_calls(line, &mut self.calls)? {
            return out.extend_from_slice(b"?");
        }
        self.string.clear();
        let Ok(refused) = self.string.apply_all(self.calls.as_slice()) else {
            return Err(AllocError);
        };
        self.push_dump_with_note(refused, out)
    }

    /// Appends the bytes of the string in hexadecimal and, if truncations were refused, `!` and their number, after a
    /// space if there are bytes.
    fn push_dump_with_note(&self, refused: usize, out: &mut Vec<u8, A>) -> Result<(), AllocError>
        ensures { OnOk result (out.new.items ≡ out.old.items ++ (hex self.now.string.bytes ++ note self.now.string.bytes refused)) }
    {
        self.string.as_wtf8().append_hex_dump(out)?;
        if refused == 0 {
            return Ok(());
        }
        let space = if self.string.is_empty() { "" } else { " " };
        let note = format!(in self.alloc; "{space}!{refused}")?;
        out.extend_from_slice(note.as_bytes())
    }
}

/// Replaces `calls` by the calls of the line's words, and returns true, or returns false at the first malformed word.
fn parse_calls<A: Allocator>(
    line: &[u8],
    calls: &mut Vec<Build<'static>, A>,
) -> Result<bool, AllocError>
    ensures { IfOk result (λ all. MatchBool all (AllZip IsCall (words line.now) calls.new.items) (Any IsNoCall (words line.now))) }
{
    calls.clear();
    let mut rest = if line.is_empty() { None } else { Some(line) };
    while let Some(bytes) = rest {
        let (call, after) = parse_first_word(bytes);
        let Some(call) = call else {
            return Ok(false);
        };
        calls.push(call)?;
        rest = after;
    }
    Ok(true)
}

/// Returns the output for one line, without a newline: the bytes, in hexadecimal, of the string that the words of the
/// line build; then, if truncations were refused, `!` and their number, after a space if there are bytes. If a word is
/// malformed, the output is `?` alone, and no word has an effect.
///
/// A word is 4 to 6 hexadecimal digits of either case, which push the code point of that value, at most 0x10FFFF; `-`
/// and 1 to 9 decimal digits, which truncate to that number of bytes; or `/` and 1 to 9 decimal digits, which truncate
/// to that number of 16-bit units. Words are separated by one space each. A newline inside the line makes its word
/// malformed. Returns an error only if memory is refused.
pub fn dump_line<A: Allocator + Copy>(alloc: A, line: &[u8]) -> Result<Vec<u8, A>, AllocError>
    ensures output { IfOk result (λ output. IsOutput line.now output.items) }
{
    let mut output = Vec::new(alloc);
    LineBuffers::new(alloc).push_output(line, &mut output)?;
    Ok(output)
}
