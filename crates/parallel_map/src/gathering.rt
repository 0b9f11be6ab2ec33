//! Pieces are put together.
//!
//! There is a slot for each input. A piece is compared with the input at its place, and its answer
//! goes into the slot there, which has to be vacant. When all pieces are in, the slots are emptied
//! in order: the answers come out at their places, and the first vacant slot is the least place
//! without a piece.
ghost use Rattle.std.specs.Prelude.{◌≡◌, ℕ, ◌⊎◌, ◌<◌, ◌≤◌, ◌≢◌, IsTrue, vec_capacity, vec_len, replicate, [], List, set, map, length, slice_get, None, Some, IfOk, IfErr, IsOk, Err, false};
ghost use Rattle.parallel_map.specs.Pieces.{PieceView, IsOfItsInput, AreSound, AreWhole, IsFault};
ghost use Rattle.parallel_map.specs.Slots.{AreFilled, IsRefused};

use crate::error::MapError;
use crate::job::Job;
use crate::piece::Piece;
use channel_core::Exact;
use std::alloc::{AllocError, Global};

// Whether the input stands at the place.
fn stands_at<A: Exact>(inputs: &[A], place: usize, input: &A) -> bool
    ensures yes { IsTrue result → slice_get inputs.now place ≡ Some input.now }
    ensures no { result ≡ false → slice_get inputs.now place ≢ Some input.now }
{
    match inputs.get(place) {
        Some(there) => there == input,
        None => false,
    }
}

// Whether there is a slot at the place, and nothing in it.
fn is_vacant<B: Drop>(slots: &[Option<B>], place: usize) -> bool
    ensures yes { IsTrue result → slice_get slots.now place ≡ Some None }
    ensures no { result ≡ false → slice_get slots.now place ≢ Some None }
    ensures within { IsTrue result → place < length slots.now }
{
    match slots.get(place) {
        Some(slot) => slot.is_none(),
        None => false,
    }
}

// Puts the answer of a piece into the slot at its place.
fn fill<A: Exact, B: Drop, J: Job<A, B>>(
    inputs: &[A],
    slots: &mut [Option<B>],
    piece: Piece<'_, A, B, J>,
) -> Result<(), MapError>
    ensures ok { IfOk result (λ _. IsOfItsInput inputs.now piece.entry
        × (slice_get slots.old piece.entry.place ≡ Some None)
        × (slots.new ≡ set slots.old piece.entry.place (Some (J.answer piece.entry.input)))) }
    ensures err { IfErr result (λ error. IsRefused inputs.now slots.old piece.entry error) }
{
    let place = piece.place();
    if !stands_at(inputs, place, piece.input()) {
        return Err(MapError::Stranger(place));
    }
    if !is_vacant(slots, place) {
        return Err(MapError::Doubled(place));
    }
    slots[place] = Some(piece.into_answer());
    Ok(())
}

// The answers of all slots, in order, in room that is there.
fn answers_of<A: Exact, B: Drop, J: Job<A, B>>(
    inputs: &[A],
    mut slots: Vec<Option<B>>,
    mut answers: Vec<B>,
) -> Result<Vec<B>, MapError>
    requires room { length inputs.now ≤ vec_capacity answers }
    requires long { vec_len slots ≡ length inputs.now }
    requires empty { answers.items ≡ [] }
    ensures ok { (pieces : List (PieceView A)) → AreSound inputs.now pieces
        → AreFilled J.answer inputs.now pieces slots.items
        → IfOk result (λ all. AreWhole inputs.now pieces × (all.items ≡ map J.answer inputs.now)) }
    ensures err { (pieces : List (PieceView A)) → AreSound inputs.now pieces
        → AreFilled J.answer inputs.now pieces slots.items
        → IfErr result (λ error. IsFault inputs.now pieces error) }
{
    for place in 0..inputs.len() {
        match slots[place].take() {
            Some(answer) => answers.push_reserved(answer),
            None => return Err(MapError::Missing(place)),
        }
    }
    Ok(answers)
}

// As many slots as the count, with nothing in them, and room for no others.
fn vacant<B: Drop>(alloc: Global, count: usize) -> Result<Vec<Option<B>>, AllocError>
    ensures empty { IfOk result (λ slots. slots.items ≡ replicate count None) }
    ensures room { IfOk result (λ slots. vec_capacity slots ≡ count) }
{
    let mut slots = Vec::with_capacity(alloc, count)?;
    for _ in 0..count {
        slots.push_reserved(None);
    }
    Ok(slots)
}

// The answers by way of the slots, or the first fault.
fn gathered<'a, A: Exact, B: Drop, J: Job<A, B>>(
    alloc: Global,
    inputs: &'a [A],
    pieces: Vec<Piece<'a, A, B, J>>,
) -> Result<Vec<B>, MapError>
    ensures whole { IfOk result (λ _. AreWhole inputs.now pieces.entry.items) }
    ensures mapped { IfOk result (λ answers. answers.items ≡ map J.answer inputs.now) }
    ensures fault { IfErr result (λ error.
        (error ≡ MapError.OutOfMemory) ⊎ IsFault inputs.now pieces.entry.items error) }
{
    let Ok(answers) = Vec::with_capacity(alloc, inputs.len()) else {
        return Err(MapError::OutOfMemory);
    };
    let Ok(mut slots) = vacant(alloc, inputs.len()) else {
        return Err(MapError::OutOfMemory);
    };
    for piece in pieces {
        fill(inputs, slots.as_mut_slice(), piece)?;
    }
    answers_of::<A, B, J>(inputs, slots, answers)
}

/// The job's answers for all inputs, in their order, if each input has just one piece.
///
/// Room is taken first, and may be refused. Then pieces are looked at one by one: the first that is
/// of another input than the one at its place, or whose place had a piece before it, is refused
/// with that place. Last, the least place without a piece is answered.
///
/// # Examples
///
/// ```
/// let inputs = [5, 6, 7];
/// let pieces = vec![in rt.alloc();
///     Piece::make(&Square, 2, &inputs[2]),
///     Piece::make(&Square, 0, &inputs[0]),
///     Piece::make(&Square, 1, &inputs[1]),
/// ]?;
/// let answers = gather(rt.alloc(), &inputs, pieces)?;
/// assert_eq!(rt; answers.as_slice(), [25, 36, 49].as_slice());
/// ```
pub fn gather<'a, A: Exact, B: Drop, J: Job<A, B>>(
    alloc: Global,
    inputs: &'a [A],
    pieces: Vec<Piece<'a, A, B, J>>,
) -> Result<Vec<B>, MapError>
    ensures whole { IfOk result (λ _. AreWhole inputs.now pieces.entry.items) }
    ensures mapped { IfOk result (λ answers. answers.items ≡ map J.answer inputs.now) }
    ensures fault { IfErr result (λ error.
        (error ≡ MapError.OutOfMemory) ⊎ IsFault inputs.now pieces.entry.items error) }
    ensures answered { AreWhole inputs.now pieces.entry.items
        → (result ≡ Err MapError.OutOfMemory) ⊎ IsOk result }
    ensures named { (error : MapError) → IsFault inputs.now pieces.entry.items error
        → (result ≡ Err MapError.OutOfMemory) ⊎ (result ≡ Err error) }
{
    gathered(alloc, inputs, pieces)
}
