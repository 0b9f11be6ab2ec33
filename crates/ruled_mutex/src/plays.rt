//! What each step on the table tells.
ghost use Rattle.ruled_mutex.specs.Rule.{doing, outside, sat, locked, learned, unlocked, paid};

use crate::mutex::Lesson;
use crate::pass::Doing;
use atomic_table::{Join, Play, Split};
use crossbeam_utils::rule::Outcome;
use std::marker::PhantomData;

pub(crate) struct Sit;

impl<T, V> Play<T, Doing<T, V>> for Sit {
    ghost then = { sat };
}

pub(crate) struct Lock;

impl<T, V> Play<T, Doing<T, V>> for Lock {
    ghost then = { locked };
}

pub(crate) struct Learn<L> {
    lesson: PhantomData<L>,
}

impl<T, V, L: Lesson<T, V>> Play<T, Doing<T, V>> for Learn<L> {
    ghost then = { learned L.fact };
}

pub(crate) struct Unlock<M> {
    outcome: PhantomData<M>,
}

impl<T, V, M: Outcome<T, V>> Play<T, Doing<T, V>> for Unlock<M> {
    ghost then = { unlocked M.then };
}

pub(crate) struct Pay;

impl<T, V> Play<T, Doing<T, V>> for Pay {
    ghost then = { paid };
}

pub(crate) struct Cut<M> {
    split: PhantomData<M>,
}

impl<T, V, M: Split<V>> Split<Doing<T, V>> for Cut<M> {
    ghost left = { λ d. doing d.stage (M.left d.client) };

    ghost right = { λ d. outside (M.right d.client) };
}

pub(crate) struct Glue<M> {
    join: PhantomData<M>,
}

impl<T, V, M: Join<V>> Join<Doing<T, V>> for Glue<M> {
    ghost both = { λ d e. doing d.stage (M.both d.client e.client) };

    ghost spent = { outside M.spent };
}
