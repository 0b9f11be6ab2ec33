//! Traces a script that is read from standard input: each line, its reply and who waits then.
#![tactic(auto)]

use chanrun::program::Chantrace;
use chanrun::standard::{arguments_of, run_buffered};
use std::process::ExitCode;

fn main(rt: HostRuntime) -> ExitCode {
    let arguments = arguments_of(&rt);
    let words = arguments.as_ref().map(|words| words.as_slice());
    let (input, output, errors) = (rt.stdin(), rt.stdout(), rt.stderr());
    match run_buffered(rt.alloc(), Chantrace, words, input, output, errors) {
        Ok(status) => ExitCode::from(status),
        Err(error) => {
            let _ = rt.eprintln(error);
            ExitCode::FAILURE
        }
    }
}
