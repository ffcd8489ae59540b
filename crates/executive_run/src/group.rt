//! A group: one driver, whose sequences are driven in turn.
ghost use Rattle.std.specs.Prelude.{◌≡◌, ◌≢◌, ◌<◌, ◌%◌, ℕ, length, slice_index_or, vec_len};
ghost use Rattle.word_table.specs.Answers.{Answers, AnswersAlone};
ghost use Rattle.word_table.specs.Driver.{IsFinished};
ghost use Rattle.executive_run.specs.Going.{GoesOn, GoesTo, IsHalted, IsStuck};

use crate::progress::Progress;
use word_table::{Driver, Fabric, MicroAnswer};

/// What is asked before a step.
pub trait Ask {
    /// Asks for step `n` of a sequence. It may wait.
    fn ask(&self, seq: u32, n: u64);
}

/// The sequences of a driver, and of each whether the gate was asked for its next step.
#[derive(Drop)]
pub struct Group<'a> {
    pub driver: Driver<'a>,
    pub asked: Vec<bool>,
    ghost many_asked: { vec_len asked ≡ length driver.fabric.job.program.seqs },
    ghost many_counts: { length driver.counts ≡ length driver.fabric.job.program.seqs },
}

impl<'a> Group<'a> {
    /// Asks the gate for the next step of a sequence, if it has one.
    fn ask_for_next<A: Ask>(&self, fabric: &Fabric<'a>, gate: &A, seq: u32)
        requires of { self.now.driver.fabric ≡ fabric.now }
        requires there { seq < length fabric.now.job.program.seqs }
        requires drives { seq % fabric.now.groups ≡ self.now.driver.group }
    {
        if let Some(step) = fabric.next_step(&self.driver, seq) {
            gate.ask(seq, step);
        }
    }

    /// Tries a sequence once, and asks the gate before the first try of each step.
    fn try_step<A: Ask>(&mut self, fabric: &Fabric<'a>, gate: &A, seq: u32) -> MicroAnswer
        requires of { self.old.driver.fabric ≡ fabric.now }
        requires there { seq < length fabric.now.job.program.seqs }
        requires drives { seq % fabric.now.groups ≡ self.old.driver.group }
        ensures of { self.new.driver.fabric ≡ fabric.now }
        ensures group { self.new.driver.group ≡ self.old.driver.group }
        ensures answer { Answers self.old.driver self.new.driver seq result }
        ensures alone { fabric.now.groups ≡ 1 → AnswersAlone self.old.driver self.new.driver seq result }
    {
        if !self.asked[seq as usize] {
            self.ask_for_next(fabric, gate, seq);
        }
        let answer = fabric.try_micro(&mut self.driver, seq);
        self.asked[seq as usize] = answer != MicroAnswer::Stepped;
        answer
    }

    /// Drives a sequence as far as it goes.
    fn go_on<A: Ask>(&mut self, fabric: &Fabric<'a>, gate: &A, seq: u32) -> Progress
        requires of { self.old.driver.fabric ≡ fabric.now }
        requires there { seq < length fabric.now.job.program.seqs }
        requires drives { seq % fabric.now.groups ≡ self.old.driver.group }
        ensures goes { GoesOn self.old.driver self.new.driver result.steps }
        ensures others { (s : ℕ) → s ≢ seq → slice_index_or self.new.driver.counts s 0 ≡
            slice_index_or self.old.driver.counts s 0 }
        ensures ends { GoesTo self.new.driver seq result.waiting }
        ensures alone { fabric.now.groups ≡ 1 → IsHalted self.new.driver seq }
    {
        let mut steps: u64 = 0;
        loop {
            match self.try_step(fabric, gate, seq) {
                MicroAnswer::Stepped => steps = steps.saturating_add(1),
                MicroAnswer::NotYet => return Progress { steps, waiting: 1 },
                MicroAnswer::Finished => return Progress { steps, waiting: 0 },
            }
        }
    }

    /// Drives each of its sequences in turn, as far as it goes.
    pub fn turn<A: Ask>(&mut self, fabric: &Fabric<'a>, gate: &A) -> Progress
        requires of { self.old.driver.fabric ≡ fabric.now }
        requires group { self.old.driver.group < fabric.now.groups }
        ensures goes { GoesOn self.old.driver self.new.driver result.steps }
        ensures finished { result.waiting ≡ 0 → IsFinished self.new.driver }
        ensures alone { fabric.now.groups ≡ 1 → result.steps ≡ 0 → 0 < result.waiting → IsStuck self.new.driver }
    {
        let first = self.driver.group();
        let groups = fabric.groups() as usize;
        let mut progress = Progress::NONE;
        for seq in (first..fabric.sequences()).step_by(groups) {
            progress = progress.and(self.go_on(fabric, gate, seq));
        }
        progress
    }
}
