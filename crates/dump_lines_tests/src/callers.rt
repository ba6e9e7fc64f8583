//! A caller of `dump_lines`.
ghost use Rattle.std.specs.Prelude.{IfOk};
ghost use Rattle.dump_lines.specs.Dump.{IsDump};

use dump_lines::{Fault, run};
use std::alloc::Allocator;

/// The output for an input that is in memory, or the fault.
pub fn dump<A: Allocator + Copy>(alloc: A, input: &[u8]) -> Result<Vec<u8, A>, Fault>
    ensures { IfOk result (λ out. IsDump input.now out.items) }
{
    let mut rest = input;
    let mut out = Vec::new(alloc);
    run(alloc, &mut rest, &mut out)?;
    Ok(out)
}
