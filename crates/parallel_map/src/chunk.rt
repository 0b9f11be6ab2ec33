//! The answers for a chunk of inputs.
ghost use Rattle.std.specs.Prelude.{◌≡◌, ◌+◌, ◌^◌, ◌<◌, IfOk, length, map, vec_capacity, vec_len};

use crate::job::{Gate, Job};
use std::alloc::{AllocError, Global};
use std::marker::Model;

/// The answers for a chunk of inputs, whose places follow one another.
pub struct Chunk<B> {
    // The place of the first input.
    from: usize,
    // What the job answered to them, in their order.
    answers: Vec<B>,
    // There is room for them, and for no others.
    ghost room: { vec_capacity answers ≡ vec_len answers },
}

/// The first place and the answers.
impl<B> Model for Chunk<B> {
    ghost use Rattle.parallel_map.specs.Chunks.{ChunkView};

    ghost Value = { ChunkView B };

    ghost view = { λ chunk. record { from = chunk.from; answers = chunk.answers.items } };
}

impl<B: Drop> Chunk<B> {
    /// Runs the job on each input, between the gate's two calls, and keeps the answers in one
    /// block. The first input stands at the place `from`.
    pub fn make<A, J: Job<A, B>, G: Gate>(
        alloc: Global,
        job: &J,
        gate: &G,
        from: usize,
        inputs: &[A],
    ) -> Result<Self, AllocError>
        requires places { from + length inputs.now < 2 ^ 64 }
        ensures { IfOk result (λ chunk.
            chunk ≡ record { from = from; answers = map J.answer inputs.now }) }
    {
        let mut answers = Vec::with_capacity(alloc, inputs.len())?;
        for (offset, input) in inputs.iter().enumerate() {
            gate.before(from + offset);
            answers.push_reserved(job.run(input));
            gate.after(from + offset);
        }
        Ok(Chunk { from, answers })
    }
}

impl<B> Chunk<B> {
    /// The place of the first input.
    pub fn from(&self) -> usize
        ensures { result ≡ self.now.from }
    {
        self.from
    }

    /// The answers.
    pub fn into_answers(self) -> Vec<B>
        ensures { result.items ≡ self.answers }
    {
        let Chunk { from: _, answers } = self;
        answers
    }
}

impl<B: Drop> Drop for Chunk<B> {
    fn drop(self) {
        let Chunk {
            from: _,
            answers: _answers,
        } = self;
    }
}
