//! What a plan costs by the goal of the search, and why.
use crate::acts::Acts;
use crate::chain::Chain;
use crate::dates::Dates;
use crate::numbers::NOBODY;
use crate::plan::Plan;
use crate::reactions::Reactions;
use crate::site::Goal;
use crate::tables::Tables;
use std::alloc::Global;
use syn_base::OutOfMemory;

/// The reactions of a plan's acts.
#[derive(Drop)]
struct Pace {
    acts: Acts,
    reactions: Reactions,
}

/// Who says what a plan costs.
#[derive(Drop)]
pub struct Judge {
    /// The dates of one reaction, which make lists, and are the cost where there is no pace.
    pub dates: Dates,
    /// What is looked at where the period is to become short.
    pace: Option<Pace>,
}

impl Judge {
    /// The judge of a search with this goal, whose buffers have this depth.
    pub fn new(
        alloc: Global,
        tables: &Tables,
        goal: Goal,
        depth: u32,
    ) -> Result<Judge, OutOfMemory> {
        let dates = Dates::new(alloc, tables)?;
        let pace = match goal {
            Goal::Length => None,
            Goal::Period => Some(new_pace(alloc, tables, depth)?),
        };
        Ok(Judge { dates, pace })
    }

    /// How many changes a try makes: fewer where each of them is judged by several reactions.
    pub fn changes(&self) -> u32 {
        match &self.pace {
            Some(_pace) => 2,
            None => 8,
        }
    }

    /// What a plan costs.
    pub fn cost(&mut self, tables: &Tables, plan: &Plan) -> u64 {
        match &mut self.pace {
            Some(pace) => pace.cost(tables, plan),
            None => self.dates.follow(tables, plan),
        }
    }

    /// Finds the chain of operations that fixes the cost of the plan that was judged last.
    pub fn find_chain(&self, plan: &Plan, chain: &mut Chain) {
        chain.clear();
        match &self.pace {
            Some(pace) => pace.find_chain(chain),
            None => find_chain(&self.dates, plan, chain),
        }
    }
}

/// Nothing was run so far.
fn new_pace(alloc: Global, tables: &Tables, depth: u32) -> Result<Pace, OutOfMemory> {
    let acts = Acts::new(alloc, tables)?;
    let reactions = Reactions::new(alloc, acts.most(), depth)?;
    Ok(Pace { acts, reactions })
}

impl Pace {
    /// What a plan costs.
    fn cost(&mut self, tables: &Tables, plan: &Plan) -> u64 {
        self.acts.follow(tables, plan);
        self.reactions.follow(&self.acts)
    }

    /// Follows from the act that ends last those that made each other start so late, which in the end go
    /// round the line or the cycle that fixes the period.
    fn find_chain(&self, chain: &mut Chain) {
        let mut act = self.reactions.last_act();
        let mut last = NOBODY;
        for _link in 0..chain.most() {
            let op = self.acts.op(act);
            if op != last && op != NOBODY {
                chain.add(op);
            }
            last = op;
            act = self.reactions.cause(act);
        }
    }
}

/// Follows from the operation that ends last those that made each other start so late.
fn find_chain(dates: &Dates, plan: &Plan, chain: &mut Chain) {
    let mut op = last_to_end(dates, plan.order.as_slice());
    for _link in 0..chain.most() {
        if op == NOBODY {
            return;
        }
        chain.add(op);
        op = dates.cause(op);
    }
}

/// The operation that ends last, or `NOBODY`.
fn last_to_end(dates: &Dates, order: &[u32]) -> u32 {
    let mut last = NOBODY;
    for op in order {
        if dates.end(*op) == dates.length {
            last = *op;
        }
    }
    last
}
