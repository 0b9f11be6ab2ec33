//! The shortest script that shows a difference.
use crate::Sums;
use crate::pair::{Pair, differs};
use anyhow::Result;
use std::alloc::AllocGlobal;
use std::random::RandomSource;
use std::sync::Wait;

/// How many lines a script has at most that is made shorter. One with a crowd has more.
const LONGEST: usize = 200;

/// Leaves each line out, from the last one to the first, if something differs without it, too.
pub fn shortest<'s, R>(rt: &R, mut lines: Vec<&'s str>) -> Result<Vec<&'s str>>
where
    R: Wait + Clone + Drop + RandomSource + AllocGlobal,
{
    if lines.len() > LONGEST {
        return Ok(lines);
    }
    for _ in 0..2 {
        for place in (1..lines.len()).rev() {
            let mut fewer = lines.clone()?;
            if place < fewer.len() {
                fewer.remove(place);
            }
            if differs(rt, fewer.as_slice(), &mut Sums::default())? {
                lines = fewer;
            }
        }
    }
    Ok(lines)
}

/// Prints a script as a row, with what differs at its end.
pub fn print<R>(rt: &R, script: &[&str]) -> Result<()>
where
    R: Wait + Clone + Drop + RandomSource + AllocGlobal + Print,
{
    let [first, lines @ ..] = script else {
        return Ok(());
    };
    let mut pair = Pair::new(rt, first)?;
    println!(rt; "    {first}")?;
    for line in lines {
        println!(rt; "    {line} => {}", pair.said(line, true)?)?;
    }
    Ok(())
}
