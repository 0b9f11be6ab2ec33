//! What is written of a search: how many orders there are, and each outcome with an order that
//! leads to it.
//!
//! ```text
//! orders 2
//! outcomes 2
//! stuck 0
//!
//! outcome 1: 1 order
//! first: try_send s0 1 => ok
//! second: try_send s0 2 => full 2
//! script
//! bounded 1
//! try_send s0 1
//! try_send s0 2
//! ```
//!
//! The script goes to the next empty line, or to the end.
ghost use Rattle.std.specs.Prelude.{◌≡◌, ℕ, List, length, string_bytes, IfOk, OnOk};
ghost use Rattle.std.specs.Io.KnownBytes.{Appends};
ghost use Rattle.chanexplore.specs.Reports.{IsReported, head_text, more_text};

use crate::outcomes::Tally;
use crate::party::Act;
use crate::plan::Plan;
use crate::search::Searched;
use channel_model::Who;
use chanrun::device::Sink;
use chanrun::script::{ScriptError, write_text};
use std::alloc::{AllocError, Global};

// Text that is written at once.
#[derive(Drop)]
struct Page {
    text: Vec<u8>,
}

impl Page {
    fn new(alloc: Global) -> Page {
        Page {
            text: Vec::new(alloc),
        }
    }

    // Adds a line of these parts.
    fn line(&mut self, parts: &[&[u8]]) -> Result<(), AllocError> {
        for part in parts {
            self.text.extend_from_slice(part)?;
        }
        self.text.extend_from_slice(b"\n")
    }
}

// The last answer to each line, party by party.
fn answers_in(alloc: Global, text: &str) -> Result<Vec<&[u8]>, AllocError> {
    text.as_bytes().split(|byte| *byte == b'\n').collect(alloc)
}

// Whether a party awaits at the end: its last poll was pending.
fn is_stuck(plan: &Plan, answers: &[&[u8]]) -> bool {
    let mut at: usize = 0;
    for party in plan.parties.iter() {
        for act in party.iter() {
            if let (Act::Await(_), Some(answer)) = (act, answers.get(at)) {
                if *answer == b"pending".as_slice() {
                    return true;
                }
            }
            at = at.saturating_add(1);
        }
    }
    false
}

// Adds a party's line as a script has it: what is awaited is polled.
fn add_replayed(page: &mut Page, act: &Act, line: &[u8]) -> Result<(), AllocError> {
    let Some(name) = line.strip_prefix(b"await ") else {
        return page.line(&[line]);
    };
    match act {
        Act::Await(Who::Receiver(_)) => page.line(&[b"next ", name]),
        _ => page.line(&[b"poll ", name]),
    }
}

// Adds an order as a script.
fn add_script(page: &mut Page, plan: &Plan, order: &[(usize, usize)]) -> Result<(), AllocError> {
    page.line(&[b"script"])?;
    for line in plan.texts.before.iter() {
        page.line(&[line.as_slice()])?;
    }
    for (party, line) in order {
        let (Some(acts), Some(lines)) = (plan.parties.get(*party), plan.texts.lines.get(*party))
        else {
            continue;
        };
        if let (Some(act), Some(text)) = (acts.get(*line), lines.get(*line)) {
            add_replayed(page, act, text.as_slice())?;
        }
    }
    Ok(())
}

// Adds each line of the parties with its last answer.
fn add_answers(page: &mut Page, plan: &Plan, answers: &[&[u8]]) -> Result<(), AllocError> {
    let mut at: usize = 0;
    for (name, lines) in plan.texts.names.iter().zip(plan.texts.lines.iter()) {
        for line in lines.iter() {
            let (name, line) = (name.as_slice(), line.as_slice());
            match answers.get(at) {
                Some(answer) if !answer.is_empty() => {
                    page.line(&[name, b": ", line, b" => ", answer])?;
                }
                _ => page.line(&[name, b": ", line, b" not reached"])?,
            }
            at = at.saturating_add(1);
        }
    }
    Ok(())
}

// The text of one outcome.
fn outcome_page(
    alloc: Global,
    plan: &Plan,
    answers: &[&[u8]],
    tally: &Tally,
) -> Result<Page, AllocError> {
    let mut page = Page::new(alloc);
    let number = tally.number.saturating_add(1);
    let orders = if tally.count == 1 { "order" } else { "orders" };
    let stuck = if is_stuck(plan, answers) {
        ", stuck"
    } else {
        ""
    };
    let head = format!(in alloc; "outcome {number}: {} {orders}{stuck}", tally.count)?;
    page.line(&[])?;
    page.line(&[head.as_bytes()])?;
    add_answers(&mut page, plan, answers)?;
    add_script(&mut page, plan, tally.first.as_slice())?;
    Ok(page)
}

// How many outcomes are stuck.
fn stuck_count(
    alloc: Global,
    plan: &Plan,
    outcomes: &[(String, Tally)],
) -> Result<u64, AllocError> {
    let mut count: u64 = 0;
    for (text, _) in outcomes {
        let answers = answers_in(alloc, text.as_str())?;
        if is_stuck(plan, answers.as_slice()) {
            count = count.saturating_add(1);
        }
    }
    Ok(count)
}

// Writes one outcome: how often it came, and the first order that it came of.
fn write_outcome<W: Sink>(
    alloc: Global,
    plan: &Plan,
    text: &str,
    tally: &Tally,
    writer: &mut W,
) -> Result<(), ScriptError>
    ensures { OnOk result ((page : List ℕ)
        × Appends (W.written writer.old) (W.written writer.new) page) }
{
    let answers = answers_in(alloc, text)?;
    let page = outcome_page(alloc, plan, answers.as_slice(), tally)?;
    write_text(writer, page.text.as_slice())
}

// Writes the outcomes.
fn write_outcomes<W: Sink>(
    alloc: Global,
    plan: &Plan,
    outcomes: &[(String, Tally)],
    writer: &mut W,
) -> Result<(), ScriptError>
    ensures { OnOk result ((text : List ℕ)
        × Appends (W.written writer.old) (W.written writer.new) text) }
{
    for (text, tally) in outcomes {
        write_outcome(alloc, plan, text.as_str(), tally, writer)?;
    }
    Ok(())
}

// Whether there are more orders than were made.
fn more_text(whole: bool) -> &'static str
    ensures { result.now ≡ more_text whole }
{
    if whole {
        ""
    } else {
        ", and more: the limit is met"
    }
}

// The first lines of a report.
fn head_text(
    alloc: Global,
    searched: Searched,
    outcomes: usize,
    stuck: u64,
) -> Result<String, AllocError>
    ensures { IfOk result (λ text. string_bytes text ≡ head_text searched outcomes stuck) }
{
    let (orders, more) = (searched.orders, more_text(searched.whole));
    format!(in alloc; "orders {orders}{more}\noutcomes {outcomes}\nstuck {stuck}\n")
}

/// Writes what a search came to.
pub fn write_report<W: Sink>(
    alloc: Global,
    plan: &Plan,
    searched: Searched,
    outcomes: &[(String, Tally)],
    writer: &mut W,
) -> Result<(), ScriptError>
    ensures { OnOk result (IsReported searched (length outcomes.now)
        (W.written writer.old) (W.written writer.new)) }
{
    let stuck = stuck_count(alloc, plan, outcomes)?;
    let head = head_text(alloc, searched, outcomes.len(), stuck)?;
    write_text(writer, head.as_bytes())?;
    write_outcomes(alloc, plan, outcomes, writer)
}
