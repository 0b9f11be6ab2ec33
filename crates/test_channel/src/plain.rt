//! Calls of handles that block until another thread makes its own. Who is refused memory when it
//! begins to wait is told so.
use crate::blocked::{Call, give_time};
use crate::many::channel;
use anyhow::{Result, anyhow};
use async_channel::{NoMemory, OutOfMemory, Receiver, Sender};
use std::alloc::{AllocGlobal, Global};
use std::rt::Clock;
use std::sync::Wait;
use std::thread::{Threads, join};

impl Call {
    /// Makes the call, and again if it was refused memory. The answer is how often it was.
    fn block<R: Wait + Clone + Drop>(
        self,
        alloc: Global,
        s: &Sender<u64, R>,
        r: &Receiver<u64, R>,
    ) -> Option<usize> {
        let mut into = Vec::new(alloc);
        for again in 0..2 {
            let is_well = match self {
                Call::Send => match s.send_blocking(1) {
                    Err(NoMemory(_)) => continue,
                    sent => sent == Ok(Ok(())),
                },
                Call::Receive => match r.recv_blocking() {
                    Err(OutOfMemory) => continue,
                    got => got == Ok(Ok(1)),
                },
                Call::ReceiveMany => match r.recv_many_blocking(&mut into, 2) {
                    Err(OutOfMemory) => continue,
                    got => got == Ok(Ok(1)),
                },
            };
            return is_well.then_some(again);
        }
        None
    }

    /// Tells it.
    fn tell<R: Wait + Clone + Drop>(self, s: &Sender<u64, R>, r: &Receiver<u64, R>) -> bool {
        match self {
            Call::Send => r.try_recv().is_ok(),
            _ => s.try_send(1) == Ok(Ok(())),
        }
    }

    /// Lets it go on: in vain, if it doesn't wake at once, and then for good.
    fn release<R: Wait + Clone + Drop + Clock>(
        self,
        rt: &R,
        s: &Sender<u64, R>,
        r: &Receiver<u64, R>,
    ) -> bool {
        give_time(rt);
        let _in_vain = self.tell(s, r);
        match self {
            Call::Send => drop(s.try_send(1)),
            _ => drop(r.try_recv()),
        }
        give_time(rt);
        self.tell(s, r)
    }
}

/// Makes the call by a thread that another one lets go on. The answer is how often it was refused
/// memory.
pub fn make_call<R>(rt: &R, call: Call) -> Result<usize>
where
    R: Threads + Wait + Clone + Drop + Send + Sync + Clock + AllocGlobal,
{
    let (s, r) = channel(rt, 1)?;
    if let Call::Send = call {
        drop(s.try_send(1));
    }
    let alloc = rt.alloc();
    // If there is no memory for a thread, the second is called first.
    let (again, is_told) = join(
        rt,
        || call.block(alloc, &s, &r),
        || call.release(rt, &s, &r),
    );
    match again {
        Some(again) if is_told => Ok(again),
        _ => Err(anyhow!("a blocked call went otherwise")),
    }
}
