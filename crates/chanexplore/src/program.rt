//! The whole program over its devices.
ghost use Rattle.std.specs.Prelude.{◌≡◌, ℕ, ◌≤◌, ◌^◌, [], max, IfOk};
ghost use Rattle.chanrun.specs.Script.{past_after_all};
ghost use Rattle.chanexplore.specs.Lines.{acts_in};
ghost use Rattle.chanexplore.specs.Orders.{all_orders};
ghost use Rattle.chanexplore.specs.Reading.{AllowsOrders, IsCountOf};
ghost use Rattle.chanexplore.specs.Reports.{IsExplored};

use crate::outcomes::Outcomes;
use crate::party::Turn;
use crate::plan::{Plan, plan_of};
use crate::report::write_report;
use crate::search::{Visitor, search};
use channel_model::OutOfMemory;
use chanrun::device::{Sink, Source};
use chanrun::program::status_of;
use chanrun::script::{ScriptError, read_script};
use chanrun::standard::Program;
use chanrun::tell::tell;
use std::alloc::Global;

/// How many orders are made if no argument says it.
pub const USUAL_ORDERS: u64 = 100_000;

/// How many orders an argument may ask for.
pub const MOST_ORDERS: u64 = 10_000_000;

/// Who is shown how far the search is.
pub trait Watch {
    /// So many orders were made.
    fn made(&mut self, orders: u64);
}

// Counts each order, and shows how many there were.
#[derive(Drop)]
struct Watched<'w, W> {
    outcomes: Outcomes,
    orders: u64,
    watch: &'w mut W,
}

impl<W: Watch> Visitor for Watched<'_, W> {
    ghost use Rattle.std.specs.Prelude.{◌≡◌, ◌^◌, ◌-◌, ◌<◌, length, min};
    ghost use Rattle.chanexplore.specs.Counts.{orders_in};

    // as many are shown, and each is counted once
    ghost has_seen = { λ watched seen. (watched.orders ≡ min (length seen) (2 ^ 64 - 1))
        × (length seen < 2 ^ 64
        → orders_in watched.outcomes.tallies.entries ≡ length seen) };

    fn visit(&mut self, order: Vec<Turn>) -> Result<(), OutOfMemory> {
        self.outcomes.visit(order)?;
        self.orders = self.orders.saturating_add(1);
        self.watch.made(self.orders);
        Ok(())
    }
}

/// How many orders the arguments allow; none if they are neither nothing nor `--orders N`, N
/// from 1 to [`MOST_ORDERS`].
///
/// ```text
///                        100000
/// --orders 5             5
/// --orders 0             none
/// --orders 10000001      none
/// ```
pub fn orders_allowed(arguments: &[String]) -> Option<u64>
    ensures { AllowsOrders arguments.now result }
{
    match arguments {
        [] => Some(USUAL_ORDERS),
        [word, number] => {
            if word.as_str() == "--orders" {
                count_in(number.as_str())
            } else {
                None
            }
        }
        _ => None,
    }
}

// The number from 1 to [`MOST_ORDERS`] that a word spells, if it spells one.
fn count_in(word: &str) -> Option<u64>
    ensures { IsCountOf word.now result }
{
    match word.parse::<u64>() {
        Ok(count) if count >= 1 && count <= MOST_ORDERS => Some(count),
        _ => None,
    }
}

/// Makes each order of a plan up to the limit, and writes what they came to. It answers whether there
/// is no other order.
pub fn explore_plan<W: Sink, P: Watch>(
    alloc: Global,
    limit: u64,
    plan: &Plan,
    writer: &mut W,
    watch: &mut P,
) -> Result<bool, ScriptError>
    ensures { (most : ℕ) → 2 ^ 64 ≤ most → IfOk result (λ whole. IsExplored
        (all_orders plan.now.kind (past_after_all plan.now.kind [] plan.now.before.items)
        (acts_in plan.now.parties.items) most) (max limit 1) whole
        (W.written writer.old) (W.written writer.new)) }
{
    let mut watched = Watched {
        outcomes: Outcomes::new(alloc, plan)?,
        orders: 0,
        watch,
    };
    let searched = search(alloc, plan, plan.parties.as_slice(), limit, &mut watched)?;
    let list = watched.outcomes.into_list()?;
    write_report(alloc, plan, searched, list.as_slice(), writer)?;
    Ok(searched.whole)
}

/// Reads what is to be explored to its end, makes each order up to the limit, and writes what they
/// came to. It answers whether there is no other order.
pub fn explore<R: Source, W: Sink, P: Watch>(
    alloc: Global,
    limit: u64,
    reader: &mut R,
    writer: &mut W,
    watch: &mut P,
) -> Result<bool, ScriptError> {
    let input = read_script(alloc, reader)?;
    let plan = plan_of(alloc, input.as_slice())?;
    explore_plan(alloc, limit, &plan, writer, watch)
}

/// The program over its devices. It answers the exit status: 0 if every order was made, 3 if
/// the limit was met before, 2 for a faulty line or for other arguments than `--orders N`, 1
/// otherwise. A line that says why it is 1 or 2 goes to `errors`; a failure there changes nothing.
/// There are no arguments if they couldn't be read for want of memory.
pub fn program<R: Source, W: Sink, E: Sink, P: Watch>(
    alloc: Global,
    arguments: Option<&[String]>,
    reader: &mut R,
    writer: &mut W,
    errors: &mut E,
    watch: &mut P,
) -> u8 {
    let Some(arguments) = arguments else {
        tell(errors, ScriptError::OutOfMemory);
        return 1;
    };
    let Some(limit) = orders_allowed(arguments) else {
        tell(
            errors,
            "chanexplore takes --orders N, N from 1 to 10000000, or no argument",
        );
        return 2;
    };
    match explore(alloc, limit, reader, writer, watch) {
        Ok(true) => 0,
        Ok(false) => 3,
        Err(error) => {
            let status = status_of(&error);
            tell(errors, error);
            status
        }
    }
}

/// Explores what is read from standard input, and prints the outcomes.
#[derive(Drop)]
pub struct Chanexplore<P> {
    /// Who is shown how far the search is.
    pub watch: P,
}

impl<P: Watch + Drop> Program for Chanexplore<P> {
    fn run<R: Source, W: Sink, E: Sink>(
        self,
        alloc: Global,
        arguments: Option<&[String]>,
        reader: &mut R,
        writer: &mut W,
        errors: &mut E,
    ) -> u8 {
        let Chanexplore { mut watch } = self;
        program(alloc, arguments, reader, writer, errors, &mut watch)
    }
}
