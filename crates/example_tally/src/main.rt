//! A mutex under a rule: the count is the sum of what two threads have added, and no add fails.
#![tactic(auto)]

mod tally;

use anyhow::{Result, anyhow};
use tally::{Counter, add_in_pair, count};

fn main(rt: HostRuntime) -> Result<()> {
    let Ok((counter, pass)) = Counter::new_with_key(rt.alloc(), 0, &40_000) else {
        return Err(anyhow!("memory was refused"));
    };
    let mut pass = add_in_pair(&rt, &counter, pass, 20_000);
    println!(rt; "{}", count(&rt, &counter, &mut pass))?;
    Ok(())
}
