//! Pipelines: the operations in a given order, split into stages, each of which stands on an operator of its
//! own, next to that of the stage before.
use crate::filling::Filling;
use crate::listing::bit;
use plan_costs::{NOBODY, PLACES, Plan, Tables, number_at, put_number};

/// A great number, by which rates are whole numbers.
const WORK: u64 = 1 << 40;

/// The operators of a pipeline, by stage.
#[derive(Clone, Copy)]
pub(crate) struct Pipeline {
    operators: [u32; PLACES],
    /// How many stages there are.
    stages: u32,
    /// How long the operations of a stage last together on its operator before the next one begins.
    most: u64,
}

/// The stage that is filled.
#[derive(Drop)]
struct Stage {
    number: u32,
    load: u64,
}

impl Pipeline {
    /// This many stages, the first one on this operator, whose operations last together at most this many
    /// eighths of an equal part.
    pub fn new(tables: &Tables, first: u32, stages: u32, eighths: u64) -> Pipeline {
        let operators = operators_from(tables, first);
        let part = equal_part(tables, &operators, stages);
        Pipeline {
            operators,
            stages,
            most: part.saturating_mul(eighths) / 8,
        }
    }

    /// The operator of a stage.
    fn operator(&self, stage: u32) -> u32 {
        number_at(&self.operators, stage)
    }

    /// Splits an order into the stages.
    pub fn split(&self, tables: &Tables, order: &[u32], plan: &mut Plan) {
        plan.clear();
        let mut filling = Filling::new();
        let mut stage = Stage { number: 0, load: 0 };
        for op in order {
            if !tables.is_ready_made(*op) {
                self.fill(tables, &mut stage, *op);
                filling.add(tables, plan, *op, self.operator(stage.number));
            }
        }
    }

    /// Takes an operation into the stage, or into the next one where this one is full.
    fn fill(&self, tables: &Tables, stage: &mut Stage, op: u32) {
        let now = self.operator(stage.number);
        let ticks = if tables.stands.may_stand(op, now) {
            tables.stands.ticks(op, now)
        } else {
            0
        };
        let last = stage.number.saturating_add(1) >= self.stages;
        if !last && stage.load.saturating_add(ticks / 2) > self.most {
            stage.number = stage.number.saturating_add(1);
            stage.load = 0;
        }
        stage.load = stage.load.saturating_add(ticks);
    }
}

/// How long each of the first stages lasts where all last equally long, together doing all operations.
fn equal_part(tables: &Tables, operators: &[u32], stages: u32) -> u64 {
    let mut rates = 0u64;
    for stage in 0..stages {
        let total = tables.stands.total_ticks(number_at(operators, stage));
        rates = rates.saturating_add(WORK / total.max(1));
    }
    WORK / rates.max(1)
}

/// All operators, this one first, and then each next to the one before, if one is left there.
fn operators_from(tables: &Tables, first: u32) -> [u32; PLACES] {
    let mut operators = [NOBODY; PLACES];
    let mut used = 0u32;
    let mut next = first;
    for stage in 0..tables.stands.operators() {
        put_number(&mut operators, stage, next);
        used |= bit(next);
        next = nearest(tables, next, used);
    }
    operators
}

/// The operator with the shortest way from this one among those that are not used.
fn nearest(tables: &Tables, from: u32, used: u32) -> u32 {
    let mut best = NOBODY;
    let mut least = usize::MAX;
    for operator in 0..tables.stands.operators() {
        let way = tables.route(from, operator).len();
        if used & bit(operator) == 0 && way < least {
            best = operator;
            least = way;
        }
    }
    best
}
