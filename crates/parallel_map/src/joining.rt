//! Chunks are put together as they come.
//!
//! A chunk for the next place is appended. One that comes before its turn is kept aside, under its
//! place, until the answers reach it.
ghost use Rattle.std.specs.Prelude.{◌≡◌, ◌≤◌, ◌++◌, [], ◌∷◌, List, IfOk, OnOk};
ghost use Rattle.std.specs.Vec.{vec_capacity};
ghost use Rattle.parallel_map.specs.Chunks.{ChunkView};

use crate::chunk::Chunk;
use std::alloc::{AllocError, Global};
use std::collections::BTreeMap;

/// The answers so far, and those that came before their turn.
#[derive(Drop)]
pub struct Joined<B: Drop> {
    pub answers: Vec<B>,
    pub early: BTreeMap<usize, Vec<B>>,
}

impl<B: Drop> Joined<B> {
    ghost use Rattle.parallel_map.specs.Joining.{HasKept, HasJoined};

    /// No answers yet. `count` says for how many there is to be room.
    pub fn new(alloc: Global, count: usize) -> Result<Self, AllocError>
        ensures none { IfOk result (HasJoined []) }
        ensures room { IfOk result (λ joined. count ≤ vec_capacity joined.answers) }
    {
        Ok(Joined {
            answers: Vec::with_capacity(alloc, count)?,
            early: BTreeMap::new(alloc),
        })
    }

    /// Takes a chunk in.
    pub fn put(&mut self, chunk: Chunk<B>) -> Result<(), AllocError>
        ensures { (came : List (ChunkView B)) → HasJoined came self.old
            → OnOk result (HasJoined (came ++ chunk ∷ []) self.new) }
    {
        self.early.insert(chunk.from(), chunk.into_answers())?;
        self.append_next()
    }

    // Appends what is kept for the next place, as long as there is something.
    fn append_next(&mut self) -> Result<(), AllocError>
        ensures { (came : List (ChunkView B)) → HasKept came self.old
            → OnOk result (HasJoined came self.new) }
    {
        while let Some(mut next) = self.early.remove(&self.answers.len()) {
            self.answers.append(&mut next)?;
        }
        Ok(())
    }
}
