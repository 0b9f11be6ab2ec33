//! Files of rows: scripts whose lines have the answers that are expected.
//!
//! A row begins with a line that makes a channel. Each line after it is `CALL => ANSWER`. It may
//! end in ` |` and the names of all who were woken and weren't polled since. What settling finished
//! isn't said. An empty line, or one that begins with `#`, says nothing.
use crate::Sums;
use crate::pair::Pair;
use anyhow::{Result, anyhow};
use std::alloc::AllocGlobal;
use std::random::RandomSource;
use std::sync::Wait;

/// The rows of files.
#[derive(Drop)]
pub struct Rows<'a, R: Wait + Clone + Drop> {
    rt: &'a R,
    /// The channel of the row that was read last.
    pair: Option<Pair<'a, R>>,
    pub sums: Sums,
}

impl<'a, R> Rows<'a, R>
where
    R: Wait + Clone + Drop + RandomSource + AllocGlobal + Print,
{
    pub fn new(rt: &'a R) -> Rows<'a, R> {
        Rows {
            rt,
            pair: None,
            sums: Sums::default(),
        }
    }

    /// Makes the lines of a file in order, and prints what isn't as a row has it.
    pub fn make_all(&mut self, file: &str, text: &str) -> Result<()> {
        let mut place = 0u64;
        for line in text.lines() {
            place = place.saturating_add(1);
            let Some((call, answer)) = line.split_once(" => ") else {
                if !line.is_empty() && !line.starts_with('#') {
                    self.pair = Some(Pair::new(self.rt, line)?);
                    self.sums.scripts = self.sums.scripts.saturating_add(1);
                }
                continue;
            };
            let wanted = answer.trim();
            let said = self.make(file, call.trim(), wanted)?;
            if said.as_str() != wanted {
                self.sums.differences = self.sums.differences.saturating_add(1);
                println!(self.rt; "{file}, line {place}: {line}\n    {said}")?;
            }
        }
        Ok(())
    }

    /// Makes a line, and answers what is to be said of it.
    fn make(&mut self, file: &str, call: &str, wanted: &str) -> Result<String> {
        let Some(pair) = &mut self.pair else {
            return Err(anyhow!("{file}: a line before a channel"));
        };
        self.sums.lines = self.sums.lines.saturating_add(1);
        let said = pair.said(call, wanted.contains('|'))?;
        self.sums.was_refused |= pair.was_refused;
        Ok(said)
    }
}
