//! Prints the answers of three sends on a channel with room for one message.
#![tactic(auto)]

use async_channel::{MakeError, NoMemory, StampMaker, TrySendError, bounded};
use std::alloc::Global;
use std::io;
use std::process::ExitCode;
use std::sync::Wait;

/// What ended the program early.
#[derive(Drop)]
enum Stop {
    Memory,
    Writing,
}

impl From<MakeError> for Stop {
    fn from(_refusal: MakeError) -> Stop {
        Stop::Memory
    }
}

impl From<NoMemory<u64>> for Stop {
    fn from(_refusal: NoMemory<u64>) -> Stop {
        Stop::Memory
    }
}

impl From<io::Error> for Stop {
    fn from(_error: io::Error) -> Stop {
        Stop::Writing
    }
}

fn report(rt: &impl Print, answer: Result<(), TrySendError<u64>>) -> io::Result<()> {
    match answer {
        Ok(()) => println!(rt; "ok"),
        Err(TrySendError::Full(message)) => println!(rt; "full {message}"),
        Err(TrySendError::Closed(message)) => println!(rt; "closed {message}"),
    }
}

fn try_sends<R: Wait + Clone + Drop + Print>(rt: &R, alloc: Global) -> Result<(), Stop> {
    let mut maker = StampMaker::new();
    let (s, r) = bounded(rt, alloc, 1, &mut maker)?;
    report(rt, s.try_send(1)?)?;
    report(rt, s.try_send(2)?)?;
    drop(r);
    println!(rt; "done")?;
    report(rt, s.try_send(3)?)?;
    Ok(())
}

fn main(rt: HostRuntime) -> ExitCode {
    match try_sends(&rt, rt.alloc()) {
        Ok(()) => ExitCode::SUCCESS,
        Err(Stop::Memory) => {
            let _ = eprintln!(rt; "out of memory");
            ExitCode::FAILURE
        }
        Err(Stop::Writing) => ExitCode::FAILURE,
    }
}
