//! The state of a run, and the calls that step it.
ghost use Rattle.std.specs.Prelude.{◌≡◌, ℕ, ◌+◌, ◌*◌, ◌%◌, ◌^◌, ◌<◌, length, slice_index_or, slice_set, Some, IfOk};
ghost use Rattle.semaphore_core.specs.Core.{count, counted, done_in, next, reaction, step, run_from, enabled_in, is_enabled, load_by, store_by, home_of, slot_of, opening};
ghost use Rattle.semaphore_core.specs.Held.{AreReady, IsLaid, IsOpened, FitsWord, NeedsReaction, answer, kept_of};
ghost use Rattle.operation_desks.specs.Rooms.{top, top_load, top_store};
ghost use Rattle.executive_program.specs.Instructions.{HasPlaces, depth_of};

use crate::answer::StepAnswer;
use crate::job::Job;
use crate::own_parts::OwnParts;
use crate::words;
use crate::words::{words_of, zero_elements};
use executive_program::{
    MicroStep, OnLoad, OnStore, Place, Program, SeqSteps, buffer_depth, buffer_len, micro_steps_of,
};
use std::alloc::Global;
use std::marker::Model;
use syn_base::{ActRows, Items, OutOfMemory, to_u32};

/// The state of a run of a job.
#[derive(Drop)]
pub struct State {
    steps: Vec<SeqSteps>,
    counts: Vec<u64>,
    semaphores: Vec<u64>,
    turns: Vec<u64>,
    elements: Vec<Items<i64>>,
    own: OwnParts,
}

impl Model for State {
    ghost use Rattle.semaphore_core.specs.Held.{Held};

    ghost Value = { Held };

    ghost view = { λ s. record {
      core = record {
        counts = s.counts.items;
        semaphores = s.semaphores.items;
        turns = s.turns.items;
        elements = s.elements.items;
        registers = s.own.registers;
        cells = s.own.kept.cells;
        rows = s.own.kept.rows;
      };
      steps = s.steps.items;
      rooms = s.own.rooms;
      lens = s.own.kept.lens;
      desks = s.own.kept.desks;
    } };
}

/// The list of elements that holds a place.
pub fn home(program: &Program, place: Place) -> usize
    ensures { result ≡ home_of program.now place }
{
    match place {
        Place::Buffer { buffer, .. } => buffer as usize,
        Place::Wire { medium, .. } => program.buffers.as_slice().len() + medium as usize,
    }
}

/// The place of a buffer that is used in a reaction.
fn turn_of(program: &Program, buffer: u32, reaction: u64) -> u32
    requires { HasPlaces program.now }
    ensures { result ≡ reaction % depth_of program.now buffer }
{
    let depth = buffer_depth(program, buffer);
    if depth == 1 {
        0
    } else {
        (reaction % depth as u64) as u32
    }
}

/// The place of an element in its list in a reaction.
pub fn slot(program: &Program, place: Place, reaction: u64) -> usize
    requires { HasPlaces program.now }
    ensures { result ≡ slot_of program.now place reaction }
{
    match place {
        Place::Buffer { buffer, number } => {
            let before = turn_of(program, buffer, reaction) as usize;
            before * buffer_len(program, buffer) as usize + number as usize
        }
        Place::Wire { number, .. } => number as usize,
    }
}

impl State {
    /// The state before any step: all semaphores, turns, elements and counts are 0, and the cells are
    /// the job's opening values.
    pub fn new(alloc: Global, job: &Job) -> Result<State, OutOfMemory>
        ensures core { IfOk result (λ s. s.core ≡ opening job.now) }
        ensures opened { IfOk result (λ s. IsOpened job.now s) }
    {
        let program = job.program();
        let sequences = program.seqs.as_slice().len();
        let steps = micro_steps_of(alloc, program)?;
        let counts = words_of(alloc, 0, sequences)?;
        let semaphores = words_of(alloc, 0, 2 * program.pairs.as_slice().len())?;
        let turns = words_of(alloc, 0, job.media())?;
        let elements = zero_elements(alloc, program, to_u32(job.media())?)?;
        let own = OwnParts::new(alloc, job, steps.as_slice())?;
        Ok(State {
            steps,
            counts,
            semaphores,
            turns,
            elements,
            own,
        })
    }

    /// Whether a micro-step of this reaction is enabled.
    fn allows(&self, step: MicroStep, reaction: u64) -> bool
        ensures { result ≡ enabled_in self.now.core reaction step }
    {
        match step {
            MicroStep::Take(x) => words::word_at(&self.semaphores, x as usize) == 1,
            MicroStep::See(x) => words::word_at(&self.semaphores, x as usize) >= 1,
            MicroStep::Await {
                medium,
                half,
                halves,
                exact,
            } => {
                let half = reaction as u128 * halves as u128 + half as u128;
                words::turn_reached(exact, words::word_at(&self.turns, medium as usize), half)
            }
            _ => true,
        }
    }

    /// Makes a load of a sequence.
    fn load(&mut self, job: &Job, seq: usize, reaction: u64, place: Place, then: OnLoad)
        requires places { HasPlaces job.now.program }
        requires ready { AreReady job.now (kept_of self.old) }
        requires laid { (v : ℕ) → IsLaid job.now self.old.lens self.old.desks v }
        requires reaction { reaction < length job.now.sensors }
        requires counted { (seq < length self.old.core.counts) × (count self.old.core seq + 1 < 2 ^ 64) }
        requires room { (seq < length self.old.rooms) ×
            (top_load job.now.graph then < slice_index_or self.old.rooms seq 0) }
        ensures { self.new ≡ record self.old { core = load_by job.now self.old.core seq place then reaction } }
    {
        let program = job.program();
        let at = slot(program, place, reaction);
        let value = words::element_in(&self.elements, home(program, place), at);
        self.counts[seq] += 1;
        self.own.absorb(job, seq, reaction, then, value);
    }

    /// Makes a store of a sequence.
    fn store(&mut self, job: &Job, seq: usize, reaction: u64, place: Place, what: OnStore)
        requires places { HasPlaces job.now.program }
        requires ready { AreReady job.now (kept_of self.old) }
        requires laid { (v : ℕ) → IsLaid job.now self.old.lens self.old.desks v }
        requires reaction { reaction < length job.now.sensors }
        requires counted { (seq < length self.old.core.counts) × (count self.old.core seq + 1 < 2 ^ 64) }
        requires room { (seq < length self.old.rooms) ×
            (top_store job.now.graph what < slice_index_or self.old.rooms seq 0) }
        ensures { self.new ≡ record self.old { core = store_by job.now self.old.core seq place what reaction } }
    {
        self.counts[seq] += 1;
        let value = self.own.emit(job, seq, reaction, what);
        let program = job.program();
        words::put_element(
            &mut self.elements,
            home(program, place),
            slot(program, place, reaction),
            value,
        );
    }

    /// Counts one more micro-step of a sequence.
    fn count_up(&mut self, seq: usize)
        requires { (seq < length self.old.core.counts) × (count self.old.core seq + 1 < 2 ^ 64) }
        ensures { self.new ≡ record self.old { core = record self.old.core { counts = counted self.old.core seq } } }
    {
        self.counts[seq] += 1;
    }

    /// Puts a word in a semaphore.
    fn put_semaphore(&mut self, x: u64, word: u64)
        ensures { self.new ≡ record self.old {
          core = record self.old.core
              { semaphores = slice_set self.old.core.semaphores x word };
        } }
    {
        let x = x as usize;
        if x < self.semaphores.len() {
            self.semaphores[x] = word;
        }
    }

    /// Puts a word in the turn of a medium.
    fn put_turn(&mut self, medium: u32, word: u64)
        ensures { self.new ≡ record self.old {
          core = record self.old.core
              { turns = slice_set self.old.core.turns medium word };
        } }
    {
        let medium = medium as usize;
        if medium < self.turns.len() {
            self.turns[medium] = word;
        }
    }

    /// Makes a micro-step of a sequence.
    fn make(&mut self, job: &Job, seq: usize, reaction: u64, step: MicroStep)
        requires places { HasPlaces job.now.program }
        requires ready { AreReady job.now (kept_of self.old) }
        requires laid { (v : ℕ) → IsLaid job.now self.old.lens self.old.desks v }
        requires reaction { NeedsReaction step reaction (length job.now.sensors) }
        requires counted { (seq < length self.old.core.counts) × (count self.old.core seq + 1 < 2 ^ 64) }
        requires room { (seq < length self.old.rooms) × (top job.now.graph step < slice_index_or self.old.rooms seq 0) }
        requires words { FitsWord self.old.core step }
        ensures { self.new ≡ record self.old { core = done_in job.now self.old.core seq reaction step } }
    {
        match step {
            MicroStep::Take(x) => {
                self.count_up(seq);
                self.put_semaphore(x, 0);
            }
            MicroStep::Lower(x) => {
                self.count_up(seq);
                let word = words::word_at(&self.semaphores, x as usize);
                self.put_semaphore(x, word.saturating_sub(1));
            }
            MicroStep::Signal(x) => {
                self.count_up(seq);
                let word = words::word_at(&self.semaphores, x as usize);
                self.put_semaphore(x, word + 1);
            }
            MicroStep::Advance { medium } => {
                self.count_up(seq);
                let turn = words::word_at(&self.turns, medium as usize);
                self.put_turn(medium, turn + 1);
            }
            MicroStep::See(_) | MicroStep::Await { .. } => self.count_up(seq),
            MicroStep::Load { place, then } => self.load(job, seq, reaction, place, then),
            MicroStep::Store { place, what } => self.store(job, seq, reaction, place, what),
        }
    }

    /// How many micro-steps a sequence has made.
    pub fn count(&self, seq: u32) -> u64
        requires { seq < length self.now.core.counts }
        ensures { result ≡ count self.now.core seq }
    {
        self.counts[seq as usize]
    }

    /// What the actuators have taken; zeros before.
    pub fn rows(&self) -> &ActRows
        ensures { result.now ≡ record { lens = self.now.lens; reactions = self.now.core.rows } }
    {
        self.own.rows()
    }

    /// The next micro-step of a sequence.
    fn next(&self, job: &Job, seq: usize) -> Option<MicroStep>
        requires opened { IsOpened job.now self.now }
        requires there { seq < length job.now.program.seqs }
        ensures { result ≡ next job.now self.now.core seq }
    {
        words::next_in(&self.steps[seq], job.reactions() as u64, self.counts[seq])
    }

    /// The reaction of the next micro-step of a sequence.
    fn reaction(&self, job: &Job, seq: usize) -> u64
        requires opened { IsOpened job.now self.now }
        requires there { seq < length job.now.program.seqs }
        ensures { result ≡ reaction job.now self.now.core seq }
    {
        words::reaction_at(&self.steps[seq], self.counts[seq])
    }

    /// Whether a step of a sequence would make its next micro-step. It is false of a sequence that has
    /// made all. It takes no memory.
    pub fn is_enabled(&self, job: &Job, seq: u32) -> bool
        requires opened { IsOpened job.now self.now }
        requires there { seq < length job.now.program.seqs }
        ensures { result ≡ is_enabled job.now self.now.core seq }
    {
        let seq = seq as usize;
        match self.next(job, seq) {
            None => false,
            Some(step) => self.allows(step, self.reaction(job, seq)),
        }
    }
}

/// Makes the next micro-step of a sequence where it is enabled. It takes no memory.
pub fn try_step(job: &Job, state: &mut State, seq: u32) -> StepAnswer
    requires opened { IsOpened job.now state.old }
    requires there { seq < length job.now.program.seqs }
    ensures answer { result ≡ answer job.now state.old.core seq }
    ensures state { state.new ≡ record state.old { core = step job.now state.old.core seq } }
    ensures opened { IsOpened job.now state.new }
{
    let seq = seq as usize;
    match state.next(job, seq) {
        None => StepAnswer::Finished,
        Some(step) => {
            let reaction = state.reaction(job, seq);
            if state.allows(step, reaction) {
                state.make(job, seq, reaction, step);
                StepAnswer::Stepped
            } else {
                StepAnswer::NotYet
            }
        }
    }
}

/// Makes the next micro-step of the sequence of this number, if there is one and it is enabled.
fn try_named(job: &Job, state: &mut State, seq: u32)
    requires { IsOpened job.now state.old }
    ensures state { state.new ≡ record state.old { core = step job.now state.old.core seq } }
    ensures opened { IsOpened job.now state.new }
{
    if (seq as usize) < job.program().seqs.as_slice().len() {
        let _ = try_step(job, state, seq);
    }
}

/// Tries each named sequence in order, and passes over a number that names none. It takes no memory.
pub fn run_list(job: &Job, state: &mut State, list: &[u32])
    requires { IsOpened job.now state.old }
    ensures state { state.new ≡ record state.old { core = run_from job.now state.old.core list.now } }
    ensures opened { IsOpened job.now state.new }
{
    for seq in list {
        try_named(job, state, *seq);
    }
}
