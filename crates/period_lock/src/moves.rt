// What the steps of a seat tell.
ghost use Rattle.std.specs.Prelude.{Option, None};
ghost use Rattle.period_lock.specs.Kept.{Tries, Gives, Counts, without_first, first_of, joined_view, spent};

use crate::rule::View;
use crate::storied::Storied;
use atomic_table::{Join, Play, Split};
use std::marker::{Brand, PhantomData};

/// A try for the turn: it was free, and the value is out with the seat; or nothing has changed.
pub struct Try<T> {
    of: PhantomData<T>,
}

impl<T: Storied> Play<Option<T>, View<T::Start, T::Entry>> for Try<T> {
    ghost then = { λ step before found after. Tries T.stands before found after };
}

/// The entry that a turn adds, if there is one. Each call picks it.
pub trait Adding<X> {
    ghost entry: { Option X };
}

impl<X> Adding<X> for Brand {
    ghost entry = { None };
}

/// The change is counted, if there is one, and its entry is told.
pub struct Count<T, N> {
    of: PhantomData<(T, N)>,
}

impl<T: Storied, N: Adding<T::Entry>> Play<Option<T>, View<T::Start, T::Entry>> for Count<T, N> {
    ghost then = { λ step before found after. Counts N.entry before after };
}

/// The turn is given back.
pub struct Give<T> {
    of: PhantomData<T>,
}

impl<T: Storied> Play<Option<T>, View<T::Start, T::Entry>> for Give<T> {
    ghost then = { λ step before found after. Gives before after };
}

/// A new seat gets one part of those that a seat has beside its own.
pub struct Parting;

impl<S, X> Split<View<S, X>> for Parting {
    ghost left = { without_first };

    ghost right = { first_of };
}

/// A seat gets all parts of another.
pub struct Meeting;

impl<S, X> Join<View<S, X>> for Meeting {
    ghost both = { joined_view };

    ghost spent = { spent };
}
