//! A rule of one's own: it is proved that one thread counts all that another sends.
#![tactic(auto)]

mod histogram;
mod rule;

use anyhow::Result;
use histogram::histogram;

fn main(rt: HostRuntime) -> Result<()> {
    let ages = [3, 8, 15, 17, 22, 29, 31, 38, 44, 45, 52, 61, 107];
    let counts = histogram(&rt, rt.alloc(), &ages)?;
    for (class, count) in counts.iter().enumerate() {
        println!(rt; "from {}: {count}", class * 10)?;
    }
    Ok(())
}
