//! Makes scripts with the handles of a channel and with a run, and compares the two.
//!
//! After each line it compares the answer, what the channel says of itself, and who was told with who
//! was woken.
//!
//! The arguments are how many random scripts to make, the seed of the first one, and the files
//! whose rows are made first. What follows the seed and a `+`, as in `1+ / bounded 7`, ends the
//! first line of each random script. Behind random scripts it makes the rows that no script has;
//! with one argument, the row of that name; with none, these rows. A call that is refused memory is
//! made again, if it changed nothing; the program doesn't end well then.
#![tactic(auto)]

mod answer;
mod blocked;
mod draw;
mod handles;
mod judge;
mod line;
mod lists;
mod many;
mod maps;
mod operation;
mod others;
mod pair;
mod plain;
mod ready;
mod records;
mod refused;
mod rows;
mod shortest;
mod writer;

use crate::pair::differs;
use crate::rows::Rows;
use crate::shortest::{print, shortest};
use crate::writer::script_of;
use anyhow::{Result, anyhow};
use std::alloc::AllocGlobal;
use std::process::ExitCode;
use std::random::RandomSource;
use std::rt::{Env, Files};
use std::sync::Wait;
use std::{env, fs};

/// What came of the scripts.
#[derive(Clone, Copy, Default)]
pub struct Sums {
    pub scripts: u64,
    pub lines: u64,
    pub differences: u64,
    /// Whether a call was refused memory, and made again.
    pub was_refused: bool,
}

impl Sums {
    /// Whether they are of some lines, and nothing differs.
    fn is_good(self) -> bool {
        self.lines > 0 && self.differences == 0
    }
}

/// Makes random scripts up to the first one that differs, which is printed.
fn compare<R>(rt: &R, count: u64, seed: u64, end: &str) -> Result<Sums>
where
    R: Wait + Clone + Drop + RandomSource + AllocGlobal + Print,
{
    let mut sums = Sums::default();
    for number in 0..count {
        let text = script_of(rt.alloc(), seed.wrapping_add(number), end)?;
        let script: Vec<&str> = text.lines().collect(rt.alloc())?;
        sums.scripts = sums.scripts.saturating_add(1);
        if differs(rt, script.as_slice(), &mut sums)? {
            sums.differences = 1;
            println!(rt; "script {} differs:", seed.wrapping_add(number))?;
            print(rt, shortest(rt, script)?.as_slice())?;
            break;
        }
    }
    Ok(sums)
}

/// The rows of all files, and how many of their lines aren't as they say.
fn rows_of<R>(rt: &R, files: &[String]) -> Result<Sums>
where
    R: Wait + Clone + Drop + RandomSource + AllocGlobal + Print + Files,
{
    let mut rows = Rows::new(rt);
    for file in files {
        let text = fs::read_to_string(rt, file.as_str())?;
        rows.make_all(file.as_str(), text.as_str())?;
    }
    Ok(rows.sums)
}

fn number_of(word: &str) -> Result<u64> {
    word.parse::<u64>()
        .map_err(|_| anyhow!("{word} is no number"))
}

/// How the program ends. It says if a call was refused memory.
fn ending(rt: &impl Eprint, is_good: bool, was_refused: bool) -> Result<ExitCode> {
    if was_refused {
        eprintln!(rt; "a call was refused memory, and made again")?;
    }
    if is_good && !was_refused {
        return Ok(ExitCode::SUCCESS);
    }
    Ok(ExitCode::FAILURE)
}

fn main(rt: HostRuntime) -> Result<ExitCode> {
    let mut words = env::args(&rt)?.skip(1);
    let (first, second) = (words.next(), words.next());
    let (Some(count), Some(seed)) = (&first, &second) else {
        let was_refused = others::make(&rt, first.as_deref())?;
        return ending(&rt, true, was_refused);
    };
    let (seed, end) = seed.as_str().split_once('+').unwrap_or((seed.as_str(), ""));
    let (count, seed) = (number_of(count.as_str())?, number_of(seed)?);
    let files: Vec<String> = words.collect(rt.alloc())?;
    let rows = rows_of(&rt, files.as_slice())?;
    println!(rt;
        "{} rows, {} lines, {} differences",
        rows.scripts, rows.lines, rows.differences
    )?;
    if count == 0 || (!files.is_empty() && !rows.is_good()) {
        return ending(&rt, rows.is_good(), rows.was_refused);
    }
    let random = compare(&rt, count, seed, end)?;
    println!(rt;
        "{} random scripts, {} lines, {} differences",
        random.scripts, random.lines, random.differences
    )?;
    let mut was_refused = rows.was_refused || random.was_refused;
    if random.is_good() {
        was_refused |= others::make(&rt, None)?;
    }
    ending(&rt, random.is_good(), was_refused)
}
