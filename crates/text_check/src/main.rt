//! Lines of tables and, behind them, of statements on standard input; the canonical text or the first fault of each
//! statement on standard output.
#![tactic(auto)]

mod answers;
mod checks;
mod tables;

use crate::checks::check;
use ptc_io::{StdSink, StdSource, read_to_limit, write_all};
use std::process::ExitCode;

fn main(rt: HostRuntime) -> ExitCode {
    let alloc = rt.alloc();
    let mut input = StdSource::new(rt.reader());
    let mut output = StdSink::new(rt.stdout());
    let Ok(text) = read_to_limit(alloc, &mut input, 1000000000) else {
        return ExitCode::from(2);
    };
    let Ok(out) = check(alloc, text.as_slice()) else {
        return ExitCode::from(4);
    };
    match write_all(&mut output, out.as_slice()) {
        Ok(()) => ExitCode::from(0),
        Err(_) => ExitCode::from(3),
    }
}
