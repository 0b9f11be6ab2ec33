//! Marks, by which those who wait are woken, and what makes them.
//!
//! Who waits leaves a mark in a waiting list, and whoever tells it wakes the mark. The mark of a
//! task has the task's waker, and to wake it is to drop the waker.
//!
//! A waker of `futures` wakes its task wherever it is dropped. So a poll that waits again has to
//! keep the waker that lies in its entry. In a trial where each made a new one, two receives joined
//! in one task made 2,406 polls in 100 ms, in place of 4. A poll that can't go on does this, all
//! under the channel's lock:
//!
//! 1. If it has no entry, or a told one, it makes a mark and waits by it. If no waker can be made,
//!    or no memory is left, nothing has changed.
//! 2. If its entry is untold, it waits by a mark without a waker, and gets the mark that the entry
//!    held. It registers its task where the waker of that mark lies: one of this task stays, and one
//!    of another task is woken. Then it waits by the mark with this waker. The entry keeps its place.
//!
//! With a poll that is ready the mark of an untold entry leaves the list. The operation keeps its
//! waker for a later wait, and drops it when it ends. So it does with one that is refused an entry.
//!
//! A blocked thread has no waker. It sleeps at a cell of its own, its mark is that cell, and so
//! just the one that was told wakes. The cell takes memory only when its owner begins to wait.
ghost use Rattle.std.specs.Prelude.{◌≡◌, ◌++◌, ◌∷◌, [], ℕ, ⊤, true};
ghost use Rattle.futures.specs.Task.{Covers, Keeps};
ghost use Rattle.ruled_channel.specs.Marks.{is_of_task, is_of_thread};

use channel_core::OutOfMemory;
use futures::task::{Context, Poll, Source, Waker};
use std::alloc::Global;
use std::marker::Model;
use std::snapshot::Snapshot;
use std::sync::{Arc, Wait};
use std::thread::Parker;

/// What a waiting operation is told by.
///
/// ```
/// let mut sleeper = Sleeper::new();
/// let cell = sleeper.cell(rt.alloc())?;
/// let mark = sleeper.mark(cell, None, &Source::new(), &mut ());
/// assert!(rt; matches!(mark, Mark::Thread(_)));
/// ```
#[derive(Drop)]
pub enum Mark {
    /// The task that the waker wakes, and nobody without one.
    Task(Option<Waker>),
    /// The thread that is parked at the cell, and no other.
    Thread(Arc<Parker>),
}

/// The marks that were woken, in order. It grows by [`Mark::wake`] alone, so that a contract that
/// names it refuses whoever forgets to wake. Only clauses can read it: its snapshots have no bytes.
#[derive(Drop)]
pub(crate) struct Woken {
    // What was woken before the last one, and the last one.
    last: Option<(Snapshot<Woken>, Snapshot<Mark>)>,
}

impl Model for Woken {
    ghost use Rattle.std.specs.Prelude.{List, length};
    ghost use Rattle.ruled_channel.specs.declared.mark.Mark.{Mark};
    ghost use Rattle.ruled_channel.specs.Rung.{woken_in};

    ghost Value = { List Mark };

    ghost view = { λ woken. woken_in woken.last };

    ghost size = { length };
}

impl Woken {
    /// Before anybody is woken.
    pub(crate) fn nobody() -> Woken
        ensures { result ≡ [] }
    {
        Woken { last: None }
    }
}

impl Mark {
    /// Drops the waker, which wakes its task, or wakes the thread.
    pub(crate) fn wake(self, woken: &mut Woken)
        ensures { woken.new ≡ woken.old ++ self ∷ [] }
    {
        *woken = Woken {
            last: Some((Snapshot::of(woken), Snapshot::of(&self))),
        };
        match self {
            Mark::Task(waker) => drop(waker),
            Mark::Thread(cell) => cell.unpark(),
        }
    }
}

/// Who waits: the task of an operation, whose context is `C`, or a blocked thread, which has none.
///
/// ```
/// fn mark_of<C, W: Waiter<C>>(alloc: Global, waiter: &mut W, cx: &mut C) -> Option<Mark> {
///     let cell = waiter.cell(alloc).ok()?;
///     waiter.keep(None);
///     Some(waiter.mark(cell, None, &Source::new(), cx))
/// }
///
/// assert!(rt; mark_of(rt.alloc(), &mut Sleeper::new(), &mut ()).is_some());
/// ```
pub trait Waiter<C> {
    ghost use Rattle.ruled_channel.specs.declared.mark.Mark.{Mark};

    /// What a mark takes memory for.
    type Cell: Drop;

    /// What holds of its context and of the mark by which it waits for a source.
    ghost waits_by: { C → ℕ → Mark → Type 0 };

    /// How its context may change when a mark is made.
    ghost keeps: { C → C → Type 0 };

    /// What the mark of its next poll takes memory for.
    fn cell(&mut self, alloc: Global) -> Result<Self::Cell, OutOfMemory>;

    /// The mark of one poll that can't go on. `held` is the one that its entry held untold.
    fn mark(&mut self, cell: Self::Cell, held: Option<Mark>, source: &Source, cx: &mut C) -> Mark
        ensures made { waits_by cx.new source.now.id result }
        ensures kept { keeps cx.old cx.new };

    /// Keeps a mark that lies in no list, until a later wait or its own end.
    fn keep(&mut self, left: Option<Mark>);

    // proof: a context may stay as it is
    ghost keeps_itself: { (cx : C) → keeps cx cx };
}

/// What makes the marks of an operation's task. It has the waker that lies in no mark.
///
/// ```
/// let mut marker = Marker::new();
/// marker.keep(None);
/// ```
#[derive(Drop)]
pub struct Marker {
    waker: Option<Waker>,
}

impl Marker {
    /// One without a waker.
    ///
    /// ```
    /// let mut marker = Marker::new();
    /// assert!(rt; marker.cell(rt.alloc()).is_ok());
    /// ```
    pub fn new() -> Marker {
        Marker { waker: None }
    }
}

/// A task waits by its waker, and is registered with the source.
impl Waiter<Context<'_>> for Marker {
    type Cell = ();

    ghost waits_by = { λ cx source mark. (is_of_task mark ≡ true) × Covers cx (λ s. s ≡ source) };

    ghost keeps = { Keeps };

    ghost keeps_itself = { λ cx fact holds. holds };

    fn cell(&mut self, _alloc: Global) -> Result<(), OutOfMemory> {
        Ok(())
    }

    #[inline(always)]
    fn mark(
        &mut self,
        _cell: (),
        held: Option<Mark>,
        source: &Source,
        cx: &mut Context<'_>,
    ) -> Mark {
        self.keep(held);
        let mut waker = self.waker.take();
        let _pending: Poll<()> = cx.register(source, &mut waker);
        Mark::Task(waker)
    }

    fn keep(&mut self, left: Option<Mark>) {
        if let Some(Mark::Task(waker)) = left {
            self.waker = waker;
        }
    }
}

/// A blocked call's own end of its mark: the cell where its thread is parked. It takes memory
/// when the call begins to wait.
///
/// ```
/// let mut sleeper = Sleeper::new();
/// let cell = sleeper.cell(rt.alloc())?;
/// if let Mark::Thread(cell) = sleeper.mark(cell, None, &Source::new(), &mut ()) {
///     cell.unpark();
/// }
/// sleeper.sleep(&rt);
/// ```
#[derive(Drop)]
pub struct Sleeper {
    cell: Option<Arc<Parker>>,
}

impl Sleeper {
    /// One that has no cell yet.
    ///
    /// ```
    /// let sleeper = Sleeper::new();
    /// drop(sleeper);
    /// ```
    pub fn new() -> Sleeper {
        Sleeper { cell: None }
    }

    /// Sleeps until its mark is woken, and not at all if it made no mark yet.
    ///
    /// ```
    /// let sleeper = Sleeper::new();
    /// sleeper.sleep(&rt);
    /// ```
    pub fn sleep<R: Wait>(&self, rt: &R) {
        if let Some(cell) = &self.cell {
            cell.park(rt);
        }
    }
}

/// A thread waits by its cell alone.
impl Waiter<()> for Sleeper {
    type Cell = Arc<Parker>;

    ghost waits_by = { λ _ _ mark. is_of_thread mark ≡ true };

    ghost keeps = { λ _ _. ⊤ };

    ghost keeps_itself = { λ _. tt };

    fn cell(&mut self, alloc: Global) -> Result<Arc<Parker>, OutOfMemory> {
        let cell = match self.cell.take() {
            Some(cell) => cell,
            None => Arc::new(alloc, Parker::new()).map_err(|_| OutOfMemory)?,
        };
        let other = Arc::try_clone(&cell);
        self.cell = Some(cell);
        Ok(other?)
    }

    fn mark(
        &mut self,
        own: Arc<Parker>,
        _held: Option<Mark>,
        _source: &Source,
        _cx: &mut (),
    ) -> Mark {
        Mark::Thread(own)
    }

    fn keep(&mut self, _left: Option<Mark>) {}
}
