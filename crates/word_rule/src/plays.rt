//! The rule that the table keeps, and what each play of it tells.
ghost use Rattle.std.specs.Prelude.{ℕ, Bool, true};
ghost use Rattle.word_rule.specs.Rule.{Tells, Raises, Loads, Looks};
ghost use Rattle.word_rule.specs.Views.{first_view, left_of, right_of, joined};
ghost use Rattle.word_rule.specs.declared.view.View.TheVariants.{Spent};

use crate::view::View;
use atomic_table::{Join, Play, Split, TableRule};
use phase_laws::Job;
use std::marker::{Brand, PhantomData};

/// The counts of all views together are reached, and every word is the one that they tell.
pub struct Rule;

impl<'a> TableRule<(), View<'a>, Job<'a>> for Rule {
    ghost holds = { Tells };

    ghost first = { first_view };
}

/// The sequence for which a step is made, and what a word has to be for it to go on.
pub trait Named {
    ghost seq: { ℕ };

    ghost enables: { ℕ → Bool };
}

impl Named for Brand {
    ghost seq = { 0 };

    ghost enables = { λ n. true };
}

/// A signal, an advance of a turn, a take from a semaphore that was seen, or a store.
pub struct Raising<N>(PhantomData<N>);

impl<'a, N: Named> Play<(), View<'a>> for Raising<N> {
    ghost then = { Raises N.seq };
}

/// A load of an element.
pub struct Loading<N>(PhantomData<N>);

impl<'a, N: Named> Play<(), View<'a>> for Loading<N> {
    ghost then = { Loads N.seq };
}

/// A take of a semaphore, a look at one, or a wait for a turn.
pub struct Looking<N>(PhantomData<N>);

impl<'a, N: Named> Play<(), View<'a>> for Looking<N> {
    ghost then = { Looks N.seq N.enables };
}

/// Which sequences are split off.
pub trait Picking {
    ghost test: { ℕ → Bool };
}

impl Picking for Brand {
    ghost test = { λ s. true };
}

/// A view is cut in two.
pub struct Parting<N>(PhantomData<N>);

impl<'a, N: Picking> Split<View<'a>> for Parting<N> {
    ghost left = { left_of N.test };

    ghost right = { right_of N.test };
}

/// Two views are made one.
pub struct Joining;

impl<'a> Join<View<'a>> for Joining {
    ghost both = { joined };

    ghost spent = { Spent };
}
