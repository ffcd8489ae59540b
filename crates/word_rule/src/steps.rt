//! The steps of a seat, each on one word for one sequence. A step is made by a play of the table, whose ghost
//! members `N` says at the call: the sequence, what its word has to be, or which sequences are split off.
ghost use Rattle.std.specs.Prelude.{◌≡◌, ◌⊎◌, ◌%◌, nat_eq};
ghost use Rattle.word_rule.specs.Given.{IsTake, Waits, AddsOne, IsLower, IsLoad, Stores, enables};
ghost use Rattle.word_rule.specs.Rule.{FindsBy, InTold};
ghost use Rattle.word_rule.specs.Steps.{CanStep, moved, looked_at, kept_by, split_off, with_seat};

use crate::next::Next;
use crate::plays::{Joining, Loading, Looking, Named, Parting, Picking, Raising};
use crate::table::{WordSeat, WordTable};
use executive_program::MicroStep;
use std::marker::Brand;

impl<'a> WordTable<'a> {
    /// `take`, where `N` names the sequence and what its word has to be.
    fn take_by<N: Named>(&self, seat: &mut WordSeat<'a>, next: Next) -> u64
        requires named { (N.seq ≡ next.seq) × (N.enables ≡ enables next.reaction next.step) }
        requires can { CanStep self.now seat.old next }
        requires kind { IsTake next.step }
        ensures seat { seat.new ≡ looked_at seat.old next result }
        ensures found { FindsBy seat.old.view next.word result }
    {
        let table = &self.table.shared;
        table.compare_exchange::<Looking<N>>(&mut seat.seat, next.word, 1, 0)
    }

    /// Takes a semaphore where it is 1, and returns what was found.
    pub fn take(&self, seat: &mut WordSeat<'a>, next: Next) -> u64
        requires can { CanStep self.now seat.old next }
        requires kind { IsTake next.step }
        ensures seat { seat.new ≡ looked_at seat.old next result }
        ensures found { FindsBy seat.old.view next.word result }
    {
        self.take_by::<Brand>(seat, next)
    }

    /// `wait`, where `N` names the sequence and what its word has to be.
    fn wait_by<N: Named>(&self, seat: &mut WordSeat<'a>, next: Next) -> u64
        requires named { (N.seq ≡ next.seq) × (N.enables ≡ enables next.reaction next.step) }
        requires can { CanStep self.now seat.old next }
        requires kind { Waits next.step }
        ensures seat { seat.new ≡ looked_at seat.old next result }
        ensures found { FindsBy seat.old.view next.word result }
    {
        let table = &self.table.shared;
        table.load::<Looking<N>>(&mut seat.seat, next.word)
    }

    /// Looks whether a semaphore of several places is at least 1, or at a turn, and returns what was found.
    pub fn wait(&self, seat: &mut WordSeat<'a>, next: Next) -> u64
        requires can { CanStep self.now seat.old next }
        requires kind { Waits next.step }
        ensures seat { seat.new ≡ looked_at seat.old next result }
        ensures found { FindsBy seat.old.view next.word result }
    {
        self.wait_by::<Brand>(seat, next)
    }

    /// Takes a semaphore where it is 1, or looks at a word, and returns what was found.
    pub fn look(&self, seat: &mut WordSeat<'a>, next: Next) -> u64
        requires can { CanStep self.now seat.old next }
        requires kind { IsTake next.step ⊎ Waits next.step }
        ensures seat { seat.new ≡ looked_at seat.old next result }
        ensures found { FindsBy seat.old.view next.word result }
    {
        match next.step {
            MicroStep::Take(_) => self.take(seat, next),
            _ => self.wait(seat, next),
        }
    }

    /// `add`, where `N` names the sequence.
    fn add_by<N: Named>(&self, seat: &mut WordSeat<'a>, next: Next)
        requires named { N.seq ≡ next.seq }
        requires can { CanStep self.now seat.old next }
        requires kind { AddsOne next.step }
        ensures seat { seat.new ≡ moved seat.old next }
        ensures agree { InTold seat.old.view (λ z. Unit {0}) }
    {
        let table = &self.table.shared;
        table.fetch_add::<Raising<N>>(&mut seat.seat, next.word, 1);
    }

    /// Signals a semaphore, or advances a turn.
    pub fn add(&self, seat: &mut WordSeat<'a>, next: Next)
        requires can { CanStep self.now seat.old next }
        requires kind { AddsOne next.step }
        ensures seat { seat.new ≡ moved seat.old next }
        ensures agree { InTold seat.old.view (λ z. Unit {0}) }
    {
        self.add_by::<Brand>(seat, next);
    }

    /// `lower`, where `N` names the sequence.
    fn lower_by<N: Named>(&self, seat: &mut WordSeat<'a>, next: Next)
        requires named { N.seq ≡ next.seq }
        requires can { CanStep self.now seat.old next }
        requires kind { IsLower next.step }
        ensures seat { seat.new ≡ moved seat.old next }
        ensures agree { InTold seat.old.view (λ z. Unit {0}) }
    {
        let table = &self.table.shared;
        table.fetch_sub::<Raising<N>>(&mut seat.seat, next.word, 1);
    }

    /// Lowers a semaphore of several places by one, after it was seen.
    pub fn lower(&self, seat: &mut WordSeat<'a>, next: Next)
        requires can { CanStep self.now seat.old next }
        requires kind { IsLower next.step }
        ensures seat { seat.new ≡ moved seat.old next }
        ensures agree { InTold seat.old.view (λ z. Unit {0}) }
    {
        self.lower_by::<Brand>(seat, next);
    }

    /// `load`, where `N` names the sequence.
    fn load_by<N: Named>(&self, seat: &mut WordSeat<'a>, next: Next) -> u64
        requires named { N.seq ≡ next.seq }
        requires can { CanStep self.now seat.old next }
        requires kind { IsLoad next.step }
        ensures seat { seat.new ≡ moved seat.old next }
        ensures found { FindsBy seat.old.view next.word result }
    {
        let table = &self.table.shared;
        table.load::<Loading<N>>(&mut seat.seat, next.word)
    }

    /// Loads an element, and returns its word.
    pub fn load(&self, seat: &mut WordSeat<'a>, next: Next) -> u64
        requires can { CanStep self.now seat.old next }
        requires kind { IsLoad next.step }
        ensures seat { seat.new ≡ moved seat.old next }
        ensures found { FindsBy seat.old.view next.word result }
    {
        self.load_by::<Brand>(seat, next)
    }

    /// `store`, where `N` names the sequence.
    fn store_by<N: Named>(&self, seat: &mut WordSeat<'a>, next: Next, value: i64)
        requires named { N.seq ≡ next.seq }
        requires can { CanStep self.now seat.old next }
        requires value { Stores seat.old.view next.seq next.reaction next.step value }
        ensures seat { seat.new ≡ moved seat.old next }
        ensures agree { InTold seat.old.view (λ z. Unit {0}) }
    {
        let table = &self.table.shared;
        table.store::<Raising<N>>(&mut seat.seat, next.word, value.cast_unsigned());
    }

    /// Stores an element, which is the one that its micro-step stores, whatever the other sequences have made.
    pub fn store(&self, seat: &mut WordSeat<'a>, next: Next, value: i64)
        requires can { CanStep self.now seat.old next }
        requires value { Stores seat.old.view next.seq next.reaction next.step value }
        ensures seat { seat.new ≡ moved seat.old next }
        ensures agree { InTold seat.old.view (λ z. Unit {0}) }
    {
        self.store_by::<Brand>(seat, next, value);
    }

    /// `split`, where `N` says which sequences are split off.
    fn split_by<N: Picking>(&self, seat: &mut WordSeat<'a>, groups: u32, group: u32) -> WordSeat<'a>
        requires named { N.test ≡ (λ s. nat_eq (s % groups) group) }
        requires seat { seat.old.table ≡ self.now.table }
        ensures left { seat.new ≡ kept_by groups group seat.old }
        ensures right { result ≡ split_off groups group seat.old }
    {
        let table = &self.table.shared;
        let seat = table.split_seat::<Parting<N>>(&mut seat.seat);
        WordSeat { seat }
    }

    /// Splits off a seat for the sequences whose number leaves this remainder.
    pub fn split(&self, seat: &mut WordSeat<'a>, groups: u32, group: u32) -> WordSeat<'a>
        requires seat { seat.old.table ≡ self.now.table }
        ensures left { seat.new ≡ kept_by groups group seat.old }
        ensures right { result ≡ split_off groups group seat.old }
    {
        self.split_by::<Brand>(seat, groups, group)
    }

    /// A seat takes over what another one drives.
    pub fn join(&self, seat: &mut WordSeat<'a>, other: WordSeat<'a>)
        requires seat { seat.old.table ≡ self.now.table }
        requires other { other.table ≡ self.now.table }
        ensures { seat.new ≡ with_seat seat.old other.entry }
    {
        let WordSeat { seat: other } = other;
        let table = &self.table.shared;
        table.join_seat::<Joining>(&mut seat.seat, other);
    }
}
