//! Changes of a plan that move many operations at once.
use crate::moves::move_one;
use crate::random::Chances;
use plan_costs::{Lists, NOBODY, Plan, Tables, number_at};

/// How many operations a chain has at most, by chance.
const LENGTHS: [u32; 12] = [1, 2, 4, 8, 16, 32, 64, 128, 256, 512, 1024, 2048];

/// From which operator to which a chain moves, and how many operations of it at most.
#[derive(Clone, Copy)]
struct Haul {
    from: u32,
    to: u32,
    most: u32,
}

/// Moves an operation to another operator, and with it a chain of those that depend on it, of those on
/// which it depends, or both, as far as they stand where it stood. Returns whether it moved.
pub(crate) fn move_chain(
    tables: &Tables,
    plan: &mut Plan,
    chances: &mut Chances,
    op: u32,
    to: u32,
) -> bool {
    let from = plan.operator(op);
    if !move_one(tables, plan, op, to) {
        return false;
    }
    let most = number_at(&LENGTHS, chances.below(12));
    let haul = Haul { from, to, most };
    let ways = chances.below(3);
    if ways != 1 {
        pull(tables, plan, &tables.links.after, op, haul);
    }
    if ways != 0 {
        pull(tables, plan, &tables.links.before, op, haul);
    }
    true
}

/// Moves a neighbour of an operation, then a neighbour of that one, and so on.
fn pull(tables: &Tables, plan: &mut Plan, neighbours: &Lists, op: u32, haul: Haul) {
    let mut at = op;
    for _link in 0..haul.most {
        at = first_on(plan, neighbours.of(at), haul.from);
        if at == NOBODY || !move_one(tables, plan, at, haul.to) {
            return;
        }
    }
}

/// The first of these operations that stands on an operator, or `NOBODY`.
fn first_on(plan: &Plan, ops: &[u32], operator: u32) -> u32 {
    for op in ops {
        if plan.operator(*op) == operator {
            return *op;
        }
    }
    NOBODY
}

/// Exchanges two operators: what stands on one of them goes to the other one, if it may stand there.
pub(crate) fn exchange(tables: &Tables, plan: &mut Plan, one: u32, other: u32) {
    for op in 0..tables.operations {
        // The first half of a delay takes the other one with it.
        if op < tables.stands.twin(op) {
            let to = across(plan.operator(op), one, other);
            move_one(tables, plan, op, to);
        }
    }
}

/// The other one of two operators, or this one where it is none of them.
fn across(operator: u32, one: u32, other: u32) -> u32 {
    if operator == one {
        other
    } else if operator == other {
        one
    } else {
        operator
    }
}
