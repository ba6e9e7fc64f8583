// An iterator of code points whose lower size hint may be false.
use wtf8::CodePoint;

/// Code points, and the lower size hint of their iterator, which may be false.
#[derive(Drop)]
pub struct Hinted<'a> {
    pub points: &'a [CodePoint],
    pub low: usize,
}

impl<'a> Iterator for Hinted<'a> {
    type Item = CodePoint;

    ghost use Rattle.std.specs.Prelude.{◌+◌, length};
    ghost use Rattle.std.specs.Iterator.{at_most};

    ghost remaining = { λ s. at_most (length s.points.now + s.low) };

    fn next(&mut self) -> Option<CodePoint> {
        let (first, rest) = self.points.split_first()?;
        self.points = rest;
        Some(*first)
    }

    fn size_hint(&self) -> (usize, Option<usize>) {
        (self.low, None)
    }
}
