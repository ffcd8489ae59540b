//! What a fabric keeps: the table of a job and its micro-steps laid out; and one micro-step of a driver on it.
ghost use Rattle.std.specs.Prelude.{◌≡◌, ◌+◌, ◌*◌, ◌<◌, ◌%◌, ◌⊎◌, IfNone, IfSome, true, false, length, slice_index_or};
ghost use Rattle.executive_program.specs.declared.steps.MicroStep.TheVariants.{Load, Store};
ghost use Rattle.word_rule.specs.Core.{full};
ghost use Rattle.word_rule.specs.Given.{IsThere, IsHere, IsTake, Waits, AddsOne, IsLower, enables};
ghost use Rattle.word_rule.specs.Words.{word_at, element_word};
ghost use Rattle.word_table.specs.Answers.{Answers, Steps, Misses};
ghost use Rattle.word_table.specs.Parts.{AreFabricParts, IsOf, SameDriver, CanMake, Looked, driver_view};

use crate::answer::MicroAnswer;
use crate::driver_parts::{DriverParts, count_up};
use crate::loop_place::{Due, LoopPlace};
use crate::remains::Remains;
use executive_program::{MicroStep, OnLoad, OnStore, Place, SeqSteps};
use word_rule::{Job, Next, WordTable, home, slot, turn_reached};

/// What a `Fabric` keeps.
#[derive(Drop)]
pub struct FabricParts<'a> {
    pub table: WordTable<'a>,
    pub job: &'a Job<'a>,
    pub groups: u32,
    pub steps: Vec<SeqSteps>,
    /// The word of the first turn, and where the elements of each buffer and wire begin.
    pub turns: usize,
    pub starts: Vec<usize>,
    pub remains: Remains,
}

/// Whether the word that a micro-step touches enables it.
fn enables(reaction: u64, step: MicroStep, found: u64) -> bool
    ensures { result ≡ enables reaction step found }
{
    match step {
        MicroStep::Take(_) => found == 1,
        MicroStep::See(_) => found >= 1,
        MicroStep::Await {
            half,
            halves,
            exact,
            ..
        } => turn_reached(
            exact,
            found,
            reaction as u128 * halves as u128 + half as u128,
        ),
        _ => true,
    }
}

/// The number of all micro-steps of a sequence in this many reactions.
fn full_in(steps: &SeqSteps, reactions: u64) -> u128
    ensures { result ≡ length steps.now.prologue + reactions * length steps.now.turn }
{
    let prologue = steps.prologue.as_slice();
    let turn = steps.turn.as_slice();
    prologue.len() as u128 + reactions as u128 * turn.len() as u128
}

impl<'a> FabricParts<'a> {
    /// Takes a semaphore, or looks at a word and waits for no one.
    fn look(&self, driver: &mut DriverParts<'a>, next: Next) -> bool
        requires fabric { AreFabricParts self.now }
        requires can { CanMake self.now driver.old next }
        requires kind { IsTake next.step ⊎ Waits next.step }
        ensures of { IsOf self.now driver.new }
        ensures same { SameDriver driver.old driver.new }
        ensures looked { Looked driver.old driver.new next result }
    {
        let found = self.table.look(&mut driver.seat, next);
        let ready = enables(next.reaction, next.step, found);
        if ready {
            count_up(&mut driver.counts, next.seq);
        }
        ready
    }

    /// Signals a semaphore, or advances a turn.
    fn raise(&self, driver: &mut DriverParts<'a>, next: Next)
        requires fabric { AreFabricParts self.now }
        requires can { CanMake self.now driver.old next }
        requires kind { AddsOne next.step }
        ensures of { IsOf self.now driver.new }
        ensures same { SameDriver driver.old driver.new }
        ensures made { Steps (driver_view driver.old) (driver_view driver.new) next.seq next.reaction next.step }
    {
        self.table.add(&mut driver.seat, next);
        count_up(&mut driver.counts, next.seq);
    }

    /// Lowers a semaphore of several places by one, after it was seen.
    fn lower(&self, driver: &mut DriverParts<'a>, next: Next)
        requires fabric { AreFabricParts self.now }
        requires can { CanMake self.now driver.old next }
        requires kind { IsLower next.step }
        ensures of { IsOf self.now driver.new }
        ensures same { SameDriver driver.old driver.new }
        ensures made { Steps (driver_view driver.old) (driver_view driver.new) next.seq next.reaction next.step }
    {
        self.table.lower(&mut driver.seat, next);
        count_up(&mut driver.counts, next.seq);
    }

    /// Loads an element.
    fn load_into(&self, driver: &mut DriverParts<'a>, next: Next, place: Place, then: OnLoad)
        requires fabric { AreFabricParts self.now }
        requires can { CanMake self.now driver.old next }
        requires kind { next.step ≡ Load place then }
        ensures of { IsOf self.now driver.new }
        ensures same { SameDriver driver.old driver.new }
        ensures made { Steps (driver_view driver.old) (driver_view driver.new) next.seq next.reaction next.step }
    {
        let found = self.table.load(&mut driver.seat, next);
        count_up(&mut driver.counts, next.seq);
        driver.own.absorb(
            self.job,
            next.seq as usize,
            next.reaction,
            then,
            found.cast_signed(),
        );
    }

    /// Stores an element.
    fn store_from(&self, driver: &mut DriverParts<'a>, next: Next, place: Place, what: OnStore)
        requires fabric { AreFabricParts self.now }
        requires can { CanMake self.now driver.old next }
        requires kind { next.step ≡ Store place what }
        ensures of { IsOf self.now driver.new }
        ensures same { SameDriver driver.old driver.new }
        ensures made { Steps (driver_view driver.old) (driver_view driver.new) next.seq next.reaction next.step }
    {
        let value = driver
            .own
            .emit(self.job, next.seq as usize, next.reaction, what);
        self.table.store(&mut driver.seat, next, value);
        count_up(&mut driver.counts, next.seq);
    }

    /// The word of an element in a reaction.
    fn element_word(&self, place: Place, reaction: u64) -> usize
        requires fabric { AreFabricParts self.now }
        requires here { IsHere self.now.job.now place }
        ensures { result ≡ element_word self.now.job.now place reaction }
    {
        let program = self.job.program();
        self.starts[home(program, place)] + slot(program, place, reaction)
    }

    /// The word that a micro-step touches in a reaction.
    fn word_of(&self, step: MicroStep, reaction: u64) -> usize
        requires fabric { AreFabricParts self.now }
        requires there { IsThere self.now.job.now step }
        ensures { result ≡ word_at self.now.job.now reaction step }
    {
        match step {
            MicroStep::Take(x) | MicroStep::See(x) | MicroStep::Lower(x) | MicroStep::Signal(x) => {
                x as usize + 1
            }
            MicroStep::Await { medium, .. } | MicroStep::Advance { medium } => {
                self.turns + medium as usize
            }
            MicroStep::Load { place, .. } => self.element_word(place, reaction),
            MicroStep::Store { place, .. } => self.element_word(place, reaction),
        }
    }

    /// Makes the next micro-step of a sequence, if the word that it needs is ready.
    fn make(&self, driver: &mut DriverParts<'a>, next: Next) -> bool
        requires fabric { AreFabricParts self.now }
        requires can { CanMake self.now driver.old next }
        ensures of { IsOf self.now driver.new }
        ensures same { SameDriver driver.old driver.new }
        ensures made { result ≡ true → Steps (driver_view driver.old) (driver_view driver.new) next.seq
            next.reaction next.step }
        ensures missed { result ≡ false → Misses (driver_view driver.old) (driver_view driver.new)
            next.reaction next.step }
    {
        match next.step {
            MicroStep::Take(_) => self.look(driver, next),
            MicroStep::See(_) => self.look(driver, next),
            MicroStep::Await { .. } => self.look(driver, next),
            MicroStep::Lower(_) => {
                self.lower(driver, next);
                true
            }
            MicroStep::Signal(_) => {
                self.raise(driver, next);
                true
            }
            MicroStep::Advance { .. } => {
                self.raise(driver, next);
                true
            }
            MicroStep::Load { place, then } => {
                self.load_into(driver, next, place, then);
                true
            }
            MicroStep::Store { place, what } => {
                self.store_from(driver, next, place, what);
                true
            }
        }
    }

    /// The number of the next micro-step of a sequence of a driver of this fabric, counted from 0.
    pub fn next_step(&self, driver: &DriverParts<'a>, seq: u32) -> Option<u64>
        requires fabric { AreFabricParts self.now }
        requires of { IsOf self.now driver.now }
        requires there { seq < length self.now.job.now.program.seqs }
        requires drives { seq % driver.now.groups ≡ driver.now.group }
        ensures next { IfSome result (λ n. (n ≡ slice_index_or (driver_view driver.now).counts seq 0) ×
            (n < full driver.now.job.now seq)) }
        ensures none { IfNone result
            (slice_index_or (driver_view driver.now).counts seq 0 ≡ full driver.now.job.now seq) }
    {
        let count = driver.counts[seq as usize];
        let code = &self.steps[seq as usize];
        if (count as u128) < full_in(code, self.job.reactions() as u64) {
            Some(count)
        } else {
            None
        }
    }

    /// Tries a sequence of a driver of this fabric, whose place in its loop is guessed. It takes no memory and
    /// waits for nobody.
    pub fn try_micro(
        &self,
        driver: &mut DriverParts<'a>,
        place: &mut LoopPlace,
        seq: u32,
    ) -> MicroAnswer
        requires fabric { AreFabricParts self.now }
        requires of { IsOf self.now driver.old }
        requires there { seq < length self.now.job.now.program.seqs }
        requires drives { seq % driver.old.groups ≡ driver.old.group }
        ensures of { IsOf self.now driver.new }
        ensures same { SameDriver driver.old driver.new }
        ensures answer { Answers (driver_view driver.old) (driver_view driver.new) seq result }
    {
        let count = driver.counts[seq as usize];
        let code = &self.steps[seq as usize];
        let Due { step, reaction } = place.due(code, self.job.reactions() as u64, count);
        match step {
            None => MicroAnswer::Finished,
            Some(step) => {
                let word = self.word_of(step, reaction);
                let next = Next {
                    seq,
                    reaction,
                    word,
                    step,
                };
                if self.make(driver, next) {
                    place.go_on(code, count);
                    MicroAnswer::Stepped
                } else {
                    MicroAnswer::NotYet
                }
            }
        }
    }
}
