//! Reads scripts, one a line in hexadecimal, and prints their transcripts, each followed by an empty line.
#![tactic(auto)]

mod fault;
mod hex;

use compare_scripts::run_script;
use fault::Fault;
use hex::read_hex;
use std::alloc::Global;
use std::io::{BufRead, BufReader, ErrorKind, Stdin};
use std::process::ExitCode;

/// Runs to the end of the input or to the first fault, which standard error and the exit status report.
fn main(rt: HostRuntime) -> ExitCode {
    match print_transcripts(&rt, rt.stdin(), rt.alloc()) {
        Ok(()) => ExitCode::SUCCESS,
        Err(fault) => {
            let _ = rt.eprintln(fault.text());
            ExitCode::from(fault.status())
        }
    }
}

/// Prints the transcript of each line's script. The input is buffered, so that a pipe is not read byte by byte.
fn print_transcripts<R: Print>(rt: &R, input: Stdin, alloc: Global) -> Result<(), Fault> {
    let input = BufReader::new(alloc, input).or(Err(Fault::Memory))?;
    for line in input.lines(alloc) {
        let line = match line {
            Ok(line) => line,
            Err(error) if error.kind() == ErrorKind::OutOfMemory => return Err(Fault::Memory),
            Err(_) => return Err(Fault::Read),
        };
        let script = read_hex(alloc, line.as_str())?;
        let transcript = run_script(alloc, script.as_slice())?.ok_or(Fault::Malformed)?;
        println!(rt; "{transcript}").or(Err(Fault::Write))?;
    }
    Ok(())
}
