//! `ptc run < WORKLOAD`: runs a workload under the checksum tool, and prints the report.
#![tactic(auto)]

use ptc_io::{StdSink, StdSource};
use ptc_run::ptc;
use std::process::ExitCode;
use std::rt::Env;
use std::{env, io};

/// The words after the program's name.
fn words(rt: &(impl Env + AllocGlobal)) -> io::Result<Vec<String>> {
    let words: Vec<String> = env::args(rt)?.skip(1).collect(rt.alloc())?;
    Ok(words)
}

fn main(rt: HostRuntime) -> ExitCode {
    let words = match words(&rt) {
        Ok(words) => words,
        // Words that aren't UTF-8 are refused, and can't be printed.
        Err(error) if error.kind() == io::ErrorKind::InvalidData => return ExitCode::from(1),
        Err(_) => return ExitCode::from(4),
    };
    let mut input = StdSource::new(rt.reader());
    let mut output = StdSink::new(rt.stdout());
    let status = ptc(rt.alloc(), words.as_slice(), &mut input, &mut output);
    ExitCode::from(status.code)
}
