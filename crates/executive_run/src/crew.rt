//! The workers of a run, who share its groups.
ghost use Rattle.std.specs.Prelude.{◌<◌, length, vec_len, vec_capacity};
ghost use Rattle.executive_run.specs.Each.{Each};
ghost use Rattle.executive_run.specs.Groups.{Belongs, IsDriven};
ghost use Rattle.executive_run.specs.Places.{ArePlaces, IsPlaceOf};
ghost use Rattle.executive_run.specs.Prepared.{AreGroups, IsRoom};

use crate::group::{Ask, Group};
use crate::idling::Idling;
use crate::place::Place;
use crossbeam_utils::Backoff;
use std::alloc::AllocError;
use std::sync::Wait;
use std::sync::atomic::{AtomicU64, Ordering};
use word_table::Fabric;

/// What all workers of a run share. There are at most as many workers as groups.
pub struct Crew<'e, 'a, R, G> {
    pub rt: &'e R,
    pub fabric: &'e Fabric<'a>,
    pub gate: &'e G,
    /// The places of all groups, by their numbers.
    pub places: &'e [Place<'a>],
    /// How many groups are not finished.
    pub unfinished: &'e AtomicU64,
    /// How many workers have begun and did not return.
    pub at_work: &'e AtomicU64,
    ghost places_are: { ArePlaces fabric.now places.now },
}

impl<'e, 'a, R, G> Clone for Crew<'e, 'a, R, G> {
    fn clone(&self) -> Result<Self, AllocError> {
        Ok(*self)
    }
}

impl<'e, 'a, R, G> Copy for Crew<'e, 'a, R, G> {}

impl<'e, 'a, R, G> Crew<'e, 'a, R, G> {
    /// Whether a worker that has nothing to do may return, and is counted no more. It may where more workers are at
    /// work than groups are not finished, since each of these groups may then be in the hands of another one. The
    /// number of these groups only falls, so that there stay as many workers as groups.
    fn leaves(&self) -> bool {
        let at_work = self.at_work.load(Ordering::SeqCst);
        if at_work <= self.unfinished.load(Ordering::SeqCst) {
            return false;
        }
        let left = self
            .at_work
            .compare_exchange(at_work, at_work - 1, Ordering::SeqCst, Ordering::SeqCst);
        left.is_ok()
    }
}

impl<'e, 'a, R: Wait, G: Ask> Crew<'e, 'a, R, G> {
    /// What the worker of this number does: it drives groups until all are finished, or until it is not needed.
    /// Where it makes no step it waits.
    pub fn work(self, worker: usize) {
        self.at_work.fetch_add(1, Ordering::SeqCst);
        let mut idling = Idling::new();
        'rounds: for _ in self.rt.forever() {
            if self.unfinished.load(Ordering::SeqCst) == 0 {
                return;
            }
            if self.round(worker) > 0 {
                idling.end();
            } else if self.leaves() {
                return;
            } else {
                idling.wait(self.rt, self.unfinished);
            }
        }
        unreachable!()
    }

    /// Drives each group that is free by one turn, beginning with the place of the worker's own number, and says
    /// how many steps were made, at most the last number.
    fn round(&self, worker: usize) -> u64 {
        let count = self.places.len();
        let mut steps: u64 = 0;
        for offset in 0..count {
            let number = worker.wrapping_add(offset) % count;
            steps = steps.saturating_add(self.turn_at(number));
        }
        steps
    }

    /// Drives the group of a place by one turn, if it is free, and says how many steps were made.
    fn turn_at(&self, number: usize) -> u64
        requires { number < length self.now.places.now }
    {
        let place = self.place(number);
        let Some(mut group) = place.take() else {
            return 0;
        };
        let progress = group.turn(self.fabric, self.gate);
        let is_finished = progress.waiting == 0;
        place.put_back(self.rt, group, is_finished);
        if is_finished {
            self.count_finished();
        }
        progress.steps
    }

    /// Counts one group less that is not finished. After the last one, workers that sleep are woken.
    fn count_finished(&self) {
        if self.unfinished.fetch_sub(1, Ordering::SeqCst) == 1 {
            self.unfinished.wake_all();
        }
    }

    /// The place of the group of this number.
    fn place(&self, number: usize) -> &Place<'a>
        requires { number < length self.now.places.now }
        ensures place { IsPlaceOf self.now.fabric.now number result.now }
        ensures below { number < self.now.fabric.now.groups }
    {
        &self.places[number]
    }

    /// Takes all groups in order of their numbers, each once it is finished.
    pub fn collect(&self, mut done: Vec<Group<'a>>) -> Vec<Group<'a>>
        requires room { IsRoom self.now.fabric.now.groups (vec_len done) (vec_capacity done) }
        ensures groups { AreGroups self.now.fabric.now result.items }
        ensures driven { Each (λ k. IsDriven) result.items }
    {
        for number in 0..self.places.len() {
            done.push_reserved(self.collect_from(number));
        }
        done
    }

    /// Takes the group of a place once it is finished. What the place says of it is no proof that it is, so it
    /// is driven to its end, which it finds without a step.
    fn collect_from(&self, number: usize) -> Group<'a>
        requires { number < length self.now.places.now }
        ensures belongs { Belongs self.now.fabric.now number result }
        ensures driven { IsDriven result }
    {
        let mut group = self.await_finished(number);
        self.drive(&mut group);
        group
    }

    /// Waits until the group of a place is finished, and takes it.
    fn await_finished(&self, number: usize) -> Group<'a>
        requires { number < length self.now.places.now }
        ensures { Belongs self.now.fabric.now number result }
    {
        let place = self.place(number);
        let backoff = Backoff::new();
        'looks: for _ in self.rt.forever() {
            if let Some(group) = place.take_finished() {
                return group;
            }
            backoff.snooze();
        }
        unreachable!()
    }

    /// Drives a group to its end.
    fn drive(&self, group: &mut Group<'a>)
        requires { Belongs self.now.fabric.now group.old.driver.group group.old }
        ensures belongs { Belongs self.now.fabric.now group.old.driver.group group.new }
        ensures driven { IsDriven group.new }
    {
        let backoff = Backoff::new();
        'turns: for _ in self.rt.forever() {
            let progress = group.turn(self.fabric, self.gate);
            if progress.waiting == 0 {
                return;
            }
            if progress.steps == 0 {
                backoff.snooze();
            }
        }
        unreachable!()
    }
}
