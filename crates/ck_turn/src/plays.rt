//! What each step tells the pass that makes it. These types are for the proofs alone.
ghost use Rattle.ck_turn.specs.Steps.{DrawsTicket, LooksAtServing, TakesValue, VacatesSlot, RaisesLength, GivesBack, RaisesServing, after_split, split_off, after_join, spent};

use crate::stands::Stands;
use crate::view::View;
use atomic_table::{Join, Play, Split};

pub(crate) struct Draw;

impl<T, E, O> Play<Option<T>, View<E, O>> for Draw {
    ghost then = { λ _ before found after. DrawsTicket before found after };
}

pub(crate) struct Look;

impl<T, E, O> Play<Option<T>, View<E, O>> for Look {
    ghost then = { λ _ before found after. LooksAtServing before found after };
}

pub(crate) struct Take;

impl<T: Stands> Play<Option<T>, View<T::Entry, T::Origin>> for Take {
    ghost then = { λ _ before _ after. TakesValue T.entries T.origin before after };
}

pub(crate) struct Vacate;

impl<T, E, O> Play<Option<T>, View<E, O>> for Vacate {
    ghost then = { λ _ before _ after. VacatesSlot before after };
}

pub(crate) struct RaiseLength;

impl<T: Stands> Play<Option<T>, View<T::Entry, T::Origin>> for RaiseLength {
    ghost then = { λ _ before _ after. RaisesLength T.entries before after };
}

pub(crate) struct GiveBack;

impl<T, E, O> Play<Option<T>, View<E, O>> for GiveBack {
    ghost then = { λ _ before _ after. GivesBack before after };
}

pub(crate) struct RaiseServing;

impl<T, E, O> Play<Option<T>, View<E, O>> for RaiseServing {
    ghost then = { λ _ before _ after. RaisesServing before after };
}

pub(crate) struct Parting;

impl<E, O> Split<View<E, O>> for Parting {
    ghost left = { after_split };

    ghost right = { split_off };
}

pub(crate) struct Meeting;

impl<E, O> Join<View<E, O>> for Meeting {
    ghost both = { after_join };

    ghost spent = { spent };
}
