//! Straight code, and its run over a store.
ghost use Rattle.std.specs.Prelude.{◌≡◌, ◌+◌, ◌≤◌, [], length, take, IfOk};
ghost use Rattle.expression_code.specs.Code.{size, end_of, AreWithin, HasRun, IsRun, IsWithin, Pushed, PutAt};
ghost use Rattle.expression_code.specs.Compiled.{GivesValues};

use crate::step::{Action, Step};
use crate::writes::put;
use std::alloc::Global;
use std::marker::Model;
use syn_base::OutOfMemory;

/// Steps over a store whose first words are given: each step puts its words after those of the steps
/// before, and reads only words that stand there already.
#[derive(Drop)]
pub struct Code {
    from: usize,
    steps: Vec<Step>,
    end: usize,
}

impl Model for Code {
    ghost use Rattle.std.specs.Prelude.{◌≡◌};
    ghost use Rattle.expression_code.specs.Code.{AreWithin, end_of, Straight};

    ghost Value = { Straight };

    ghost view = { λ s. record { from = s.from; steps = s.steps.items } };

    ghost invariant = { λ s. AreWithin s.from s.steps.items × (s.end ≡ end_of s.from s.steps.items) };
}

impl Code {
    /// No steps yet, over a store whose first words are given. It takes no memory.
    pub fn new(alloc: Global, from: usize) -> Code
        ensures { result ≡ record { from = from; steps = [] } }
    {
        Code {
            from,
            steps: Vec::new(alloc),
            end: from,
        }
    }

    /// How many words a store of the code has.
    pub fn end(&self) -> usize
        ensures { result ≡ size self.now }
    {
        self.end
    }

    /// One step more, which reads only words that stand before its own. It returns the place of its
    /// words; `OutOfMemory` comes also if the store would have more words than 64 bits count.
    #[tactic(auto, using(crate::proofs::Runs::within_more, crate::proofs::Runs::end_of_more))]
    pub fn push(&mut self, len: usize, action: Action) -> Result<usize, OutOfMemory>
        requires { IsWithin (size self.old) len action }
        ensures { IfOk result (λ at. Pushed self.old self.new len action at) }
    {
        let at = self.end;
        let end = at.checked_add(len).ok_or(OutOfMemory)?;
        self.steps.push(Step { len, action })?;
        self.end = end;
        Ok(at)
    }

    /// Puts the words of all steps into the store, and leaves those before them as they are. Then the
    /// values of each expression that the code was compiled for stand at its place, whatever vectors
    /// its ports have. It takes no memory.
    pub fn run(&self, store: &mut [i64])
        requires { length store.old ≡ size self.now }
        ensures given { take self.now.from store.new ≡ take self.now.from store.old }
        ensures run { HasRun self.now store.new }
        ensures values { GivesValues self.now store.old store.new }
    {
        run_steps(self.from, &self.steps, store);
    }
}

/// Puts the words of these steps, the first of which begins at this place.
fn run_steps(from: usize, steps: &[Step], store: &mut [i64])
    requires within { AreWithin from steps.now }
    requires end { length store.old ≡ end_of from steps.now }
    ensures given { take from store.new ≡ take from store.old }
    ensures run { IsRun from steps.now store.new }
{
    let mut at = from;
    for step in steps {
        put_step(*step, at, store);
        at += step.len;
    }
}

/// Puts the words of one step, which begin at this place.
#[inline(always)]
fn put_step(step: Step, at: usize, store: &mut [i64])
    requires within { IsWithin at step.len step.action }
    requires room { at + step.len ≤ length store.old }
    ensures given { take at store.new ≡ take at store.old }
    ensures step { PutAt step at store.old store.new }
{
    let (known, rest) = store.split_at_mut(at);
    put(step.action, known, &mut rest[..step.len]);
}
