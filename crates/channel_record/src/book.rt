//! What a recorder leaves.
ghost use Rattle.std.specs.Prelude.{◌≡◌, length, slice_get};
ghost use Rattle.std.specs.Option.{option_map};

use crate::calls::{Call, Outcome};
use channel_model::Kind;
use std::marker::Model;

/// One history of a channel, and for each clerk the places of its own calls in it.
///
/// # Examples
///
/// ```
/// let recorder = Recorder::bounded(rt.alloc(), 1, &mut maker)?;
/// let mut clerk = recorder.clerk(&rt)?;
/// recorder.call(&rt, &mut clerk, Call::TrySend(1))?;
///
/// let book = recorder.finish(vec![in rt.alloc(); clerk]?)?;
/// assert_eq!(rt; book.kind(), Kind::Bounded(1));
/// assert_eq!(rt; book.history().len(), 1);
/// assert_eq!(rt; book.clerks(), 1);
/// assert!(rt; matches!(book.places(0), Some([0])));
/// ```
#[derive(Drop)]
pub struct Book<T> {
    pub(crate) kind: Kind,
    pub(crate) history: Vec<(Call<T>, Outcome<T>)>,
    pub(crate) places: Vec<Vec<usize>>,
}

/// The kind of the channel, the history, and the places of each clerk's calls.
impl<T> Model for Book<T> {
    ghost use Rattle.channel_record.specs.Shares.{BookView, lists_of};

    ghost Value = { BookView T };

    ghost view = { λ book. record {
      kind = book.kind;
      history = book.history.items;
      places = lists_of book.places.items;
    } };
}

impl<T> Book<T> {
    /// The kind of the recorded channel.
    pub fn kind(&self) -> Kind
        ensures { result ≡ self.now.kind }
    {
        self.kind
    }

    /// All calls with their outcomes, the oldest first.
    pub fn history(&self) -> &[(Call<T>, Outcome<T>)]
        ensures { result.now ≡ self.now.history }
    {
        self.history.as_slice()
    }

    /// The number of clerks.
    pub fn clerks(&self) -> usize
        ensures { result ≡ length self.now.places }
    {
        self.places.len()
    }

    /// The places in the history of the calls of the clerk at `index`. Clerks are in the order in
    /// which they were handed in.
    #[tactic(auto, using(crate::proofs::Lists::get_list))]
    pub fn places(&self, index: usize) -> Option<&[usize]>
        ensures { option_map (λ places. places.now) result ≡ slice_get self.now.places index }
    {
        Some(self.places.get(index)?.as_slice())
    }
}
