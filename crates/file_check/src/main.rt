//! A workload file on standard input; nothing on standard output where it is one, and else the line that refuses it.
#![tactic(auto)]

mod checks;

use crate::checks::check;
use ptc_io::{StdSink, StdSource, read_to_limit, write_all};
use std::process::ExitCode;

fn main(rt: HostRuntime) -> ExitCode {
    let alloc = rt.alloc();
    let mut input = StdSource::new(rt.reader());
    let mut output = StdSink::new(rt.stdout());
    let Ok(bytes) = read_to_limit(alloc, &mut input, 16777216) else {
        return ExitCode::from(2);
    };
    match check(alloc, bytes.as_slice()) {
        Ok(None) => ExitCode::from(0),
        Ok(Some(line)) => match write_all(&mut output, line.as_slice()) {
            Ok(()) => ExitCode::from(1),
            Err(_) => ExitCode::from(3),
        },
        Err(_) => ExitCode::from(4),
    }
}
