//! The answer for one input.
ghost use Rattle.std.specs.Prelude.{◌≡◌};

use crate::job::Job;
use std::marker::{Model, PhantomData};

/// The answer for one input, which stands at a place.
///
/// The answer is what the job answers to the input: the type keeps it, wherever the piece has been.
///
/// # Examples
///
/// ```
/// let piece = Piece::make(&Square, 1, &6);
/// assert_eq!(rt; piece.place(), 1);
/// assert_eq!(rt; *piece.input(), 6);
/// assert_eq!(rt; piece.into_answer(), 36);
/// ```
pub struct Piece<'a, A, B, J: Job<A, B>> {
    // The place in the list of inputs for which the piece is.
    place: usize,
    // The input that the answer is for.
    input: &'a A,
    // What the job answered.
    answer: B,
    // The job is named by its type alone.
    job: PhantomData<&'a J>,
}

/// The place and the input, which decides the answer.
impl<'a, A, B, J: Job<A, B>> Model for Piece<'a, A, B, J> {
    ghost use Rattle.std.specs.Prelude.{◌≡◌};
    ghost use Rattle.parallel_map.specs.Pieces.{PieceView};

    ghost Value = { PieceView A };

    ghost view = { λ piece. record { place = piece.place; input = piece.input.now } };

    ghost invariant = { λ piece. piece.answer ≡ J.answer piece.input.now };
}

impl<'a, A, B, J: Job<A, B>> Piece<'a, A, B, J> {
    /// Runs the job on an input, and keeps the answer with the place.
    pub fn make(job: &J, place: usize, input: &'a A) -> Self
        ensures { result ≡ record { place = place; input = input.now } }
    {
        Piece {
            place,
            input,
            answer: job.run(input),
            job: PhantomData,
        }
    }

    /// The place for which the piece is.
    pub fn place(&self) -> usize
        ensures { result ≡ self.now.place }
    {
        self.place
    }

    /// The input that the answer is for.
    pub fn input(&self) -> &'a A
        ensures { result.now ≡ self.now.input }
    {
        self.input
    }

    /// The answer.
    pub fn into_answer(self) -> B
        ensures { result ≡ J.answer self.entry.input }
    {
        let Piece {
            place: _,
            input: _,
            answer,
            job: _,
        } = self;
        answer
    }
}

impl<A, B: Drop, J: Job<A, B>> Drop for Piece<'_, A, B, J> {
    fn drop(self) {
        let Piece {
            place: _,
            input: _,
            answer: _answer,
            job: _,
        } = self;
    }
}
