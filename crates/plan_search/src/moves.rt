//! Random changes of a plan.
use crate::crowds::{exchange, move_chain};
use crate::random::Chances;
use plan_costs::{NOBODY, Plan, Tables, number_at};

/// Moves an operation to another operator, or to another place of the order. Returns whether that
/// changed the plan.
pub(crate) fn change(
    tables: &Tables,
    plan: &mut Plan,
    chances: &mut Chances,
    op: u32,
    cause: u32,
) -> bool {
    if tables.stands.operators() > 1 && chances.holds(50) {
        change_operator(tables, plan, chances, op)
    } else {
        let wish = if chances.holds(50) {
            plan.place(cause)
        } else {
            NOBODY
        };
        move_along(tables, plan, chances, op, wish)
    }
}

/// Moves an operation to another operator: with a chain of its neighbours, with all that stands on both
/// operators, or with some of its sources. Returns whether that changed the plan.
fn change_operator(tables: &Tables, plan: &mut Plan, chances: &mut Chances, op: u32) -> bool {
    let from = plan.operator(op);
    let to = other_operator(tables, plan, chances, op, from);
    if chances.holds(40) {
        return move_chain(tables, plan, chances, op, to);
    }
    if chances.holds(5) {
        exchange(tables, plan, from, to);
        return true;
    }
    move_over(tables, plan, chances, op, to)
}

/// Moves an operation to another operator, some of its sources with it. Returns whether it moved.
fn move_over(tables: &Tables, plan: &mut Plan, chances: &mut Chances, op: u32, to: u32) -> bool {
    let from = plan.operator(op);
    if !move_one(tables, plan, op, to) {
        return false;
    }
    if chances.holds(50) {
        move_ready_made(tables, plan, op, from, to);
    }
    if chances.holds(25) {
        move_source(tables, plan, chances, op, from, to);
    }
    if chances.holds(50) {
        move_along(tables, plan, chances, op, NOBODY);
    }
    true
}

/// An operator that is not this one: in half of the cases that of a neighbour, where it differs.
fn other_operator(tables: &Tables, plan: &Plan, chances: &mut Chances, op: u32, from: u32) -> u32 {
    let beside = plan.operator(neighbour(tables, chances, op));
    if beside != NOBODY && beside != from && chances.holds(50) {
        return beside;
    }
    let other = chances.below(tables.stands.operators().saturating_sub(1));
    if other >= from {
        other.saturating_add(1)
    } else {
        other
    }
}

/// An operation that this one depends on or that depends on it, or `NOBODY`.
fn neighbour(tables: &Tables, chances: &mut Chances, op: u32) -> u32 {
    if chances.holds(50) {
        one_of(chances, tables.links.before.of(op))
    } else {
        one_of(chances, tables.links.after.of(op))
    }
}

/// One of these numbers, `NOBODY` where there is none.
pub(crate) fn one_of(chances: &mut Chances, numbers: &[u32]) -> u32 {
    let count = u32::try_from(numbers.len()).unwrap_or(0);
    number_at(numbers, chances.below(count))
}

/// Moves an operation, with its other half, to an operator where both may stand.
pub(crate) fn move_one(tables: &Tables, plan: &mut Plan, op: u32, to: u32) -> bool {
    let twin = tables.stands.twin(op);
    let alone = twin == NOBODY;
    if !tables.stands.may_stand(op, to) || !(alone || tables.stands.may_stand(twin, to)) {
        return false;
    }
    plan.assign(op, to);
    if !alone {
        plan.assign(twin, to);
    }
    true
}

/// Moves the sources of an operation that are ready made from one operator to another.
fn move_ready_made(tables: &Tables, plan: &mut Plan, op: u32, from: u32, to: u32) {
    for source in tables.links.before.of(op) {
        if plan.operator(*source) == from && tables.is_ready_made(*source) {
            move_one(tables, plan, *source, to);
        }
    }
}

/// Moves a source of an operation from one operator to another.
fn move_source(
    tables: &Tables,
    plan: &mut Plan,
    chances: &mut Chances,
    op: u32,
    from: u32,
    to: u32,
) {
    let source = one_of(chances, tables.links.before.of(op));
    if source != NOBODY && plan.operator(source) == from {
        move_one(tables, plan, source, to);
    }
}

/// Moves an operation to a place of the order, between those on which it depends and those that depend on
/// it: this one if it is there, else any. Returns whether it moved.
fn move_along(tables: &Tables, plan: &mut Plan, chances: &mut Chances, op: u32, wish: u32) -> bool {
    let first = first_place(tables, plan, op);
    let last = last_place(tables, plan, op);
    if first >= last {
        return false;
    }
    let any = first.saturating_add(chances.below((last - first).saturating_add(1)));
    let to = if first <= wish && wish <= last {
        wish
    } else {
        any
    };
    let from = plan.place(op);
    plan.shift(op, to);
    from != to
}

/// The first place of an operation after those on which it depends.
fn first_place(tables: &Tables, plan: &Plan, op: u32) -> u32 {
    let mut first = 0;
    for source in tables.links.before.of(op) {
        first = first.max(plan.place(*source).saturating_add(1));
    }
    first
}

/// The last place of an operation before those that depend on it.
fn last_place(tables: &Tables, plan: &Plan, op: u32) -> u32 {
    let mut last = tables.operations.saturating_sub(1);
    for next in tables.links.after.of(op) {
        last = last.min(plan.place(*next).saturating_sub(1));
    }
    last
}
