//! Threshold accepting: random changes of a plan, of which those are kept by which it costs less, and those
//! by which it costs more by less than a threshold, which falls to nothing.
use crate::moves::change;
use crate::random::Chances;
use plan_costs::{Chain, Judge, NOBODY, Plan, Tables};
use std::alloc::Global;
use syn_base::OutOfMemory;

/// The steps in which the threshold falls.
const STEPS: u64 = 1024;

/// The most rounds of a search.
const ROUNDS: u32 = 8;

/// A search under way: the plan that is changed, a copy of it with a change, and what was done by it.
#[derive(Drop)]
pub(crate) struct Annealing {
    current: Plan,
    trial: Plan,
    /// What the current plan costs.
    cost: u64,
    /// The chain of operations that fixes this cost.
    chain: Chain,
}

/// The best plan so far, with what it costs.
#[derive(Drop)]
pub(crate) struct Best {
    pub plan: Plan,
    pub cost: u64,
}

impl Best {
    /// Notes a plan that costs less than the best one.
    pub fn note(&mut self, plan: &Plan, cost: u64) {
        if cost < self.cost {
            self.plan.copy(plan);
            self.cost = cost;
        }
    }
}

impl Annealing {
    /// It begins with any plan.
    pub fn new(alloc: Global, operations: usize) -> Result<Annealing, OutOfMemory> {
        let current = Plan::new(alloc, operations)?;
        let trial = Plan::new(alloc, operations)?;
        let chain = Chain::new(alloc, operations)?;
        Ok(Annealing {
            current,
            trial,
            cost: u64::MAX,
            chain,
        })
    }

    /// Begins again from a plan.
    fn begin(&mut self, tables: &Tables, judge: &mut Judge, plan: &Plan) {
        self.trial.copy(plan);
        let cost = judge.cost(tables, &self.trial);
        self.accept(judge, cost);
    }

    /// The trial becomes the current plan.
    fn accept(&mut self, judge: &Judge, cost: u64) {
        self.current.copy(&self.trial);
        self.cost = cost;
        judge.find_chain(&self.current, &mut self.chain);
    }

    /// One try: some changes, one after another.
    fn try_once(
        &mut self,
        tables: &Tables,
        judge: &mut Judge,
        chances: &mut Chances,
        threshold: u32,
        best: &mut Best,
    ) {
        for _change in 0..judge.changes() {
            self.step(tables, judge, chances, threshold, best);
        }
    }

    /// Makes one change: it is kept where the plan costs more by at most the threshold.
    fn step(
        &mut self,
        tables: &Tables,
        judge: &mut Judge,
        chances: &mut Chances,
        threshold: u32,
        best: &mut Best,
    ) {
        self.trial.copy(&self.current);
        let link = self.link(chances);
        let op = self.chain.op(link);
        let cause = self.chain.op(link.saturating_add(1));
        let any = chances.holds(30) || op == NOBODY;
        let op = if any {
            chances.below(tables.operations)
        } else {
            op
        };
        let cause = if any { NOBODY } else { cause };
        if change(tables, &mut self.trial, chances, op, cause) {
            let cost = judge.cost(tables, &self.trial);
            if cost <= self.allowed(chances, threshold) {
                self.accept(judge, cost);
                best.note(&self.current, cost);
            }
        }
    }

    /// A place of the chain.
    fn link(&self, chances: &mut Chances) -> u32 {
        chances.below(self.chain.links)
    }

    /// The greatest cost that is accepted, by chance.
    fn allowed(&self, chances: &mut Chances, threshold: u32) -> u64 {
        let more = chances.below(threshold.saturating_add(1));
        self.cost.saturating_add(u64::from(more))
    }
}

/// This many tries from the best plan, each of some changes, in rounds, each of which begins from the best
/// plan so far.
pub(crate) fn anneal(
    tables: &Tables,
    tries: u32,
    annealing: &mut Annealing,
    judge: &mut Judge,
    chances: &mut Chances,
    best: &mut Best,
) {
    let rounds = tries / tables.operations.saturating_mul(128).max(1);
    let span = (tries / rounds.min(ROUNDS).max(1)).max(1);
    for number in 0..tries {
        let done = number % span;
        if done == 0 {
            annealing.begin(tables, judge, &best.plan);
        }
        let threshold = threshold(best.cost, tables.operations, span - done, span);
        annealing.try_once(tables, judge, chances, threshold, best);
    }
}

/// The threshold where this many tries of a round are left: at first one and a half times the cost over the
/// number of operations, then less by the square of what is left.
fn threshold(cost: u64, operations: u32, left: u32, span: u32) -> u32 {
    let step = u64::from(left).saturating_mul(STEPS) / u64::from(span.max(1));
    let twice = u64::from(operations.max(1)).saturating_mul(2);
    let part = cost.saturating_mul(3) / twice.max(1);
    let now = part.saturating_mul(step).saturating_mul(step) / (STEPS * STEPS);
    u32::try_from(now).unwrap_or(NOBODY)
}
