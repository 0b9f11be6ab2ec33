//! What a map by many threads costs.
//!
//! The same job runs over the same inputs in the plain loop, in the kit's `rayon`, in std's
//! `map_chunks`, and in `map_all` with one, two and four workers. All have to come to the same total.
use crate::job::Stir;
use crate::ways::{Best, Way, best_of};
use anyhow::Result;
use std::alloc::AllocGlobal;
use std::rt::Clock;
use std::sync::Wait;
use std::thread::Threads;

/// How many hundredths of the second time the first one is.
fn hundredths(nanos: u128, of: u128) -> u128 {
    nanos.saturating_mul(100) / of.max(1)
}

/// Prints the row of one way: its time, and its ratios to the plain loop and to rayon.
fn row<R: Print>(
    rt: &R,
    job: &str,
    way: &str,
    best: &Best,
    plain: &Best,
    rayon: &Best,
) -> Result<()> {
    let to_plain = hundredths(best.nanos, plain.nanos);
    let to_rayon = hundredths(best.nanos, rayon.nanos);
    println!(rt;
        "| {job} | {way} | {} | {}.{:02} | {}.{:02} |",
        best.nanos / 1000,
        to_plain / 100,
        to_plain % 100,
        to_rayon / 100,
        to_rayon % 100
    )?;
    Ok(())
}

/// Prints the rows of one job over a number of inputs.
fn report_job<const STEPS: u64, R>(rt: &R, job: &Stir<STEPS>, name: &str, count: u64) -> Result<()>
where
    R: Threads + Wait + Clone + Drop + AllocGlobal + Clock + Print + Send + Sync,
{
    let inputs = (0..count).collect::<Vec<_>>(rt.alloc())?;
    report_ways(rt, job, name, inputs.as_slice())
}

fn report_ways<const STEPS: u64, R>(
    rt: &R,
    job: &Stir<STEPS>,
    name: &str,
    inputs: &[u64],
) -> Result<()>
where
    R: Threads + Wait + Clone + Drop + AllocGlobal + Clock + Print + Send + Sync,
{
    let plain = best_of(rt, job, inputs, Way::Plain)?;
    let rayon = best_of(rt, job, inputs, Way::Rayon)?;
    row(rt, name, "plain loop", &plain, &plain, &rayon)?;
    row(rt, name, "rayon", &rayon, &plain, &rayon)?;
    for (way, text) in [
        (Way::Chunks { count: 4 }, "`map_chunks`, chunks: 4"),
        (Way::Map { workers: 1 }, "`map_all`, workers: 1"),
        (Way::Map { workers: 2 }, "`map_all`, workers: 2"),
        (Way::Map { workers: 4 }, "`map_all`, workers: 4"),
    ] {
        let best = best_of(rt, job, inputs, way)?;
        anyhow::ensure!(
            [best.total, rayon.total] == [plain.total; 2],
            "totals differ"
        );
        row(rt, name, text, &best, &plain, &rayon)?;
    }
    Ok(())
}

/// Prints the table: each way of each job.
pub fn report<R>(rt: &R) -> Result<()>
where
    R: Threads + Wait + Clone + Drop + AllocGlobal + Clock + Print + Send + Sync,
{
    println!(rt; "| Job | Way | µs | to the plain loop | to rayon |\n|---|---|---|---|---|")?;
    report_job(rt, &Stir::<1>, "1,000,000 cheap", 1_000_000)?;
    report_job(rt, &Stir::<600_000>, "1,000 dear", 1_000)
}
