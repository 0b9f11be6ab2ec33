//! Why a map has no answers.
ghost use Rattle.std.specs.Prelude.{◌≡◌, Some};
ghost use Rattle.parallel_map.specs.Errors.{map_error_text};

use channel_core::MakeError;
use std::error::Error;
use std::fmt;

/// Why there are no answers. A place is that of an input in the list, from 0 on.
///
/// The three that name a place come from `gather` alone.
///
/// # Examples
///
/// ```
/// let pieces = vec![in rt.alloc(); Piece::make(&Square, 2, &7)]?;
/// let gathered = gather(rt.alloc(), &[5, 6, 7], pieces);
/// assert!(rt; matches!(&gathered, Err(MapError::Missing(0))));
/// ```
#[derive(Clone, Copy, Debug, PartialEq, Eq)]
pub enum MapError {
    /// Memory was refused, also to a worker.
    OutOfMemory,
    /// The maker has given its last stamp, so that a channel was not made.
    NoStamps,
    /// A worker couldn't be started.
    NoThread,
    /// A piece is for a place that no input has, or of another input than the one there.
    Stranger(usize),
    /// A piece is for a place that another piece before it is for.
    Doubled(usize),
    /// No piece is for this place, the least of those without one.
    Missing(usize),
}

impl fmt::Display for MapError {
    ghost output = { λ error. Some (map_error_text error) };

    fn fmt<W: fmt::Write>(&self, f: &mut fmt::Formatter<W>) -> fmt::Result {
        match self {
            MapError::OutOfMemory => write!(f, "out of memory"),
            MapError::NoStamps => write!(f, "no stamp is left"),
            MapError::NoThread => write!(f, "a worker couldn't be started"),
            MapError::Stranger(place) => write!(f, "a piece for place {place} isn't of its input"),
            MapError::Doubled(place) => write!(f, "place {place} has two pieces"),
            MapError::Missing(place) => write!(f, "place {place} has no piece"),
        }
    }
}

impl Error for MapError {}

impl From<MakeError> for MapError {
    ghost use Rattle.std.specs.Prelude.{◌≡◌};
    ghost use Rattle.channel_core.specs.declared.errors.MakeError.{MakeError};
    ghost use Rattle.parallel_map.specs.declared.error.MapError.{MapError};

    ghost from_gives = { λ error refusal.
        (error ≡ MakeError.NoStamps → refusal ≡ MapError.NoStamps)
        × (error ≡ MakeError.OutOfMemory → refusal ≡ MapError.OutOfMemory) };

    fn from(error: MakeError) -> MapError {
        match error {
            MakeError::OutOfMemory => MapError::OutOfMemory,
            MakeError::NoStamps => MapError::NoStamps,
        }
    }
}
