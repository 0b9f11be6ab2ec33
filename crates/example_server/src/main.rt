//! A server: workers answer requests, each to whoever asked, and end cleanly when they are asked to.
//!
//! It is proved that each client's answer is that of its own request.
//!
//! A request carries the sender for its answer, and an answer is right for the number that it names:
//! no other can be made. A worker waits for a request and for the stop, by `select`; what was asked
//! before the stop is answered still. Clients make channels of their own on their own threads, so
//! they share the maker of stamps.
#![tactic(auto)]

ghost use Rattle.std.specs.Prelude.{◌≡◌, count_ones, IfOk, IfSome};

use anyhow::{Result, bail};
use async_channel::{Receiver, Sender, StampMaker, bounded};
use futures::executor::block_on;
use futures::future::{Either, select};
use std::alloc::AllocGlobal;
use std::random::RandomSource;
use std::sync::{Arc, Mutex, Wait};
use std::thread;

/// How many threads answer.
const WORKERS: usize = 2;

/// How many requests may wait for a worker.
const CAPACITY: usize = 4;

/// A number, and how many ones it has in binary.
#[derive(Drop)]
pub struct Answer {
    number: u64,
    ones: u32,
    ghost right: { ones ≡ count_ones number },
}

/// A number, and the way back for its answer.
#[derive(Drop)]
pub struct Request<R: Wait + Clone + Drop> {
    number: u64,
    reply: Sender<Answer, R>,
}

/// The next request. There is none once the server was stopped and has answered what it had.
fn next<'a, R: Wait + Clone + Drop + RandomSource + AllocGlobal>(
    rt: &R,
    requests: &'a Receiver<Request<R>, R>,
    stop: &'a Receiver<(), R>,
) -> Result<Option<Request<R>>> {
    match block_on(rt, select(requests.recv(), stop.recv()))? {
        Either::Left((request, _)) => Ok(request?.ok()),
        Either::Right(_) => {
            // No more is taken in, and what is there is received still.
            requests.close();
            Ok(requests.recv_blocking()?.ok())
        }
    }
}

/// Answers requests until there are no more.
fn serve<R: Wait + Clone + Drop + RandomSource + AllocGlobal>(
    rt: &R,
    requests: Receiver<Request<R>, R>,
    stop: Receiver<(), R>,
) -> Result<()> {
    for _ in rt.forever() {
        let Some(Request { number, reply }) = next(rt, &requests, &stop)? else {
            break;
        };
        // Whoever asked may be gone, and then nobody misses the answer.
        let ones = number.count_ones();
        let _ = reply.send_blocking(Answer { number, ones })?;
    }
    Ok(())
}

/// Asks the server how many ones a number has, and answers `None` if it has stopped.
fn ask<R: Wait + Clone + Drop + AllocGlobal>(
    rt: &R,
    requests: &Sender<Request<R>, R>,
    maker: &Mutex<StampMaker>,
    number: u64,
) -> Result<Option<u32>>
    ensures { IfOk result (λ answer. IfSome answer (λ ones. ones ≡ count_ones number)) }
{
    let (reply, answer) = bounded(rt, rt.alloc(), 1, &mut maker.lock(rt))?;
    let request = Request { number, reply };
    if requests.send_blocking(request)?.is_err() {
        return Ok(None);
    }
    let Ok(answer) = answer.recv_blocking()? else {
        return Ok(None);
    };
    if answer.number != number {
        bail!("an answer to another request");
    }
    Ok(Some(answer.ones))
}

fn main(rt: HostRuntime) -> Result<()> {
    let mut first_maker = StampMaker::new();
    let (requests, taken) = bounded(&rt, rt.alloc(), CAPACITY, &mut first_maker)?;
    let (stop, stopped) = bounded::<(), _>(&rt, rt.alloc(), 1, &mut first_maker)?;
    let maker = Arc::new(rt.alloc(), Mutex::new(first_maker))?;

    let mut workers = Vec::new(rt.alloc());
    for _ in 0..WORKERS {
        let (requests, stop) = (taken.try_clone()?, stopped.try_clone()?);
        workers.push(thread::spawn(&rt, move || serve(&rt, requests, stop))?)?;
    }
    drop(taken);

    let mut clients = Vec::new(rt.alloc());
    for number in [10, 11, 12] {
        let (requests, maker) = (requests.try_clone()?, Arc::try_clone(&maker)?);
        clients.push(thread::spawn(&rt, move || ask(&rt, &requests, &maker, number))?)?;
    }
    for client in clients {
        println!(rt; "{:?}", client.join(&rt)?)?;
    }

    // This closes the channel of the stop, and wakes every worker.
    drop(stop);
    for worker in workers {
        worker.join(&rt)?;
    }
    println!(rt; "after the end: {:?}", ask(&rt, &requests, &maker, 13)?)?;
    Ok(())
}
