//! What each kind of step tells the pass that makes it.
use crate::kept::Kept;
use crate::view::View;
use atomic_table::{Join, Play, Split};
use std::marker::PhantomData;

/// Draws the next ticket.
pub(crate) struct Draw<T> {
    kept: PhantomData<T>,
}

impl<T: Kept> Play<Option<T>, View<T::Entry, T::Fixed>> for Draw<T> {
    ghost use Rattle.turn_cell.specs.Steps.{Draw};

    ghost then = { Draw T.log T.fixed };
}

/// Looks which ticket is served.
pub(crate) struct Look<T> {
    kept: PhantomData<T>,
}

impl<T: Kept> Play<Option<T>, View<T::Entry, T::Fixed>> for Look<T> {
    ghost use Rattle.turn_cell.specs.Steps.{Look};

    ghost then = { Look T.log T.fixed };
}

/// Serves the next ticket.
pub(crate) struct Serve<T> {
    kept: PhantomData<T>,
}

impl<T: Kept> Play<Option<T>, View<T::Entry, T::Fixed>> for Serve<T> {
    ghost use Rattle.turn_cell.specs.Steps.{Serve};

    ghost then = { Serve T.log T.fixed };
}

/// Draws the next number of a pass.
pub(crate) struct Number<T> {
    kept: PhantomData<T>,
}

impl<T: Kept> Play<Option<T>, View<T::Entry, T::Fixed>> for Number<T> {
    ghost use Rattle.turn_cell.specs.Steps.{Number};

    ghost then = { Number T.log T.fixed };
}

/// Hears, behind a join, that the log seen begins with both logs.
pub(crate) struct Hear<T> {
    kept: PhantomData<T>,
}

impl<T: Kept> Play<Option<T>, View<T::Entry, T::Fixed>> for Hear<T> {
    ghost use Rattle.turn_cell.specs.Steps.{Hear};

    ghost then = { Hear T.log T.fixed };
}

/// Gives the number that was drawn to a new pass.
pub(crate) struct SplitOff;

impl<E, F> Split<View<E, F>> for SplitOff {
    ghost use Rattle.turn_cell.specs.Steps.{view_after_split, view_split_off};

    ghost left = { view_after_split };

    ghost right = { view_split_off };
}

/// Takes in another pass.
pub(crate) struct TakeIn;

impl<E, F> Join<View<E, F>> for TakeIn {
    ghost use Rattle.turn_cell.specs.Steps.{view_joined, view_spent};

    ghost both = { view_joined };

    ghost spent = { view_spent };
}
