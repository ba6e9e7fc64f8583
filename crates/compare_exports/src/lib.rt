//! Exports of the proved library for programs that are not written in Rattle. They take only numbers and slices.
#![tactic(auto)]

ghost use Rattle.std.specs.Prelude.{◌≡◌, ◌<◌, ◌≤◌, ◌<ℤ◌, ◌↔◌, ◌⊎◌, ℕ, pos, length, drop};
ghost use Rattle.compare_exports.specs.Front.{with_front};

mod counted;
mod texts;
mod timing;

use compare_scripts::run_script;
use std::alloc::Global;
use texts::{LAST as LAST_OF_TEXTS, TextBench};
use timing::{Bench, LAST};

/// The result for a script that ends inside a call or has an invalid byte or text.
const MALFORMED: i64 = -1;

/// The result for a number that no loop has.
const NO_LOOP: i64 = -1;

/// The result if a request for memory was refused.
const MEMORY: i64 = -2;

/// Runs a script and writes its transcript, in UTF-8, at the front of `out`.
///
/// Returns the transcript's length in bytes, -1 for a malformed script, or -2 if memory was refused. If there is no
/// transcript or `out` is too short for it, `out` is unchanged; otherwise the bytes after the transcript are.
#[unsafe(no_mangle)]
pub extern "C" fn compare_exports_run(alloc: Global, script: &[u8], out: &mut [u8]) -> i64
    ensures code { result <ℤ pos 0 → (result ≡ MALFORMED) ⊎ (result ≡ MEMORY) }

    // Nothing is written if there is no transcript or `out` is too short for it.
    ensures none { result <ℤ pos 0 → out.new ≡ out.old }
    ensures long { pos (length out.old) <ℤ result → out.new ≡ out.old }

    // A transcript of n bytes leaves the bytes after the first n unchanged.
    ensures rest { (n : ℕ) → result ≡ pos n → drop n out.new ≡ drop n out.old }
{
    match run_script(alloc, script) {
        Ok(Some(transcript)) => write_front(transcript.as_str().as_bytes(), out),
        Ok(None) => MALFORMED,
        Err(_) => MEMORY,
    }
}

/// Makes equal strings of `units` and, unless `others` is empty, strings of `others` to compare them with. Runs loop
/// `number`, 1 to 29, for `rounds` rounds, and writes to `sum` a checksum of what its calls returned, modulo 2^64. With
/// 0 rounds it only makes what the loop works on. Loops 24 and 25 work on the lines among the units.
///
/// Returns 0, or, with `sum` unchanged, -1 if no loop has the number or -2 if memory was refused.
#[unsafe(no_mangle)]
pub extern "C" fn compare_exports_time(
    alloc: Global,
    number: u32,
    units: &[u16],
    others: &[u16],
    rounds: u32,
    sum: &mut u64,
) -> i64
    ensures code { (result ≡ pos 0) ⊎ ((result ≡ NO_LOOP) ⊎ (result ≡ MEMORY)) }
    ensures kept { result <ℤ pos 0 → sum.new ≡ sum.old }
    ensures no_loop { (result ≡ NO_LOOP) ↔ ((number ≡ 0) ⊎ (29 < number)) }
{
    if number == 0 || LAST < number {
        return NO_LOOP;
    }
    match Bench::new(alloc, number, units, others, rounds).and_then(|bench| bench.run(number)) {
        Ok(answer) => {
            *sum = answer;
            0
        }
        Err(_) => MEMORY,
    }
}

/// Makes a text and a string of `units`, runs loop `number`, 1 to 12, at `places` for `rounds` rounds, and writes to
/// `sum` a checksum of what its calls returned, modulo 2^64. With 0 rounds it only makes the text and the string.
///
/// | Loop | Call |
/// |---|---|
/// | 1, 2 | `unit_at` each index in `places`, of the text with its marks and of the string's view |
/// | 3, 4 | `slice_units` of ten units from each index, of the text and of the view |
/// | 5, 6, 7 | makes a text, a text with marks, and a string of the units |
/// | 8, 9, 10 | pushes each unit to a text without marks, a text with marks, and a string |
/// | 11, 12 | the bytes of the string's capacity, and the bytes that the marks request, for any `rounds` |
///
/// Returns 0, or, with `sum` unchanged, -1 if no loop has the number or -2 if memory was refused.
#[unsafe(no_mangle)]
pub extern "C" fn compare_exports_texts(
    alloc: Global,
    number: u32,
    units: &[u16],
    places: &[u32],
    rounds: u32,
    sum: &mut u64,
) -> i64
    ensures code { (result ≡ pos 0) ⊎ ((result ≡ NO_LOOP) ⊎ (result ≡ MEMORY)) }
    ensures kept { result <ℤ pos 0 → sum.new ≡ sum.old }
    ensures no_loop { (result ≡ NO_LOOP) ↔ ((number ≡ 0) ⊎ (12 < number)) }
{
    if number == 0 || LAST_OF_TEXTS < number {
        return NO_LOOP;
    }
    match TextBench::new(alloc, units, places, rounds).and_then(|bench| bench.run(number)) {
        Ok(answer) => {
            *sum = answer;
            0
        }
        Err(_) => MEMORY,
    }
}

/// Writes `bytes` at the front of `out` if they fit, and returns their number in any case.
fn write_front(bytes: &[u8], out: &mut [u8]) -> i64
    ensures len { result ≡ pos (length bytes.now) }
    ensures out { out.new ≡ with_front bytes.now out.old }
{
    if bytes.len() <= out.len() {
        out[..bytes.len()].copy_from_slice(bytes);
    }
    bytes.len() as i64
}
