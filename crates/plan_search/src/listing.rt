//! List schedules: operations in a given order, each where it ends first.
use plan_costs::{Dates, NEVER, NOBODY, Plan, Tables};

/// The plan of a list schedule: in the order, each operation on the operator of these (as bits) where it
/// ends first, or on any other where it may stand on none of them. Those that are ready made are placed
/// right before their first reader, on its operator. Returns its length.
pub(crate) fn list(
    tables: &Tables,
    order: &[u32],
    allowed: u32,
    plan: &mut Plan,
    dates: &mut Dates,
) -> u64 {
    plan.clear();
    dates.clear();
    let mut place = 0;
    for op in order {
        if !tables.is_ready_made(*op) {
            let operator = best_operator(tables, allowed, plan, dates, *op);
            place = put_sources(tables, plan, dates, *op, operator, place);
            place = put(tables, plan, dates, *op, operator, place);
        }
    }
    dates.length
}

/// Places an operation, with this place in the order. Returns the next one.
fn put(
    tables: &Tables,
    plan: &mut Plan,
    dates: &mut Dates,
    op: u32,
    operator: u32,
    place: u32,
) -> u32 {
    dates.place(tables, plan, op, operator);
    plan.assign(op, operator);
    plan.put(place, op);
    place.saturating_add(1)
}

/// Places those on which an operation depends and which are not placed. Returns the next place.
fn put_sources(
    tables: &Tables,
    plan: &mut Plan,
    dates: &mut Dates,
    op: u32,
    operator: u32,
    place: u32,
) -> u32 {
    let mut place = place;
    for source in tables.links.before.of(op) {
        if plan.operator(*source) == NOBODY {
            let beside = beside(tables, *source, operator);
            place = put(tables, plan, dates, *source, beside, place);
        }
    }
    place
}

/// The operator, or the first one on which the operation may stand.
pub(crate) fn beside(tables: &Tables, op: u32, operator: u32) -> u32 {
    if tables.stands.may_stand(op, operator) {
        return operator;
    }
    for other in 0..tables.stands.operators() {
        if tables.stands.may_stand(op, other) {
            return other;
        }
    }
    operator
}

/// The operator on which an operation ends first; that of its get half where it is a set half whose get
/// half is placed.
fn best_operator(tables: &Tables, allowed: u32, plan: &Plan, dates: &Dates, op: u32) -> u32 {
    let half = plan.operator(tables.stands.get_half(op));
    if half != NOBODY {
        return half;
    }
    let among = if has_any(tables, allowed, op) {
        allowed
    } else {
        u32::MAX
    };
    let mut best = 0;
    let mut first = NEVER;
    for operator in 0..tables.stands.operators() {
        let end = end_among(tables, among, plan, dates, op, operator);
        if end < first {
            first = end;
            best = operator;
        }
    }
    best
}

/// When an operation would end on an operator, `NEVER` where that is not among these.
fn end_among(
    tables: &Tables,
    among: u32,
    plan: &Plan,
    dates: &Dates,
    op: u32,
    operator: u32,
) -> u64 {
    if has_bit(among, operator) && tables.stands.may_stand(op, operator) {
        dates.end_on(tables, plan, op, operator)
    } else {
        NEVER
    }
}

/// Whether an operation may stand on some of these operators.
fn has_any(tables: &Tables, allowed: u32, op: u32) -> bool {
    (0..tables.stands.operators()).any(|operator| has_bit(allowed, operator)
        && tables.stands.may_stand(op, operator))
}

/// Whether an operator is among these.
fn has_bit(operators: u32, operator: u32) -> bool {
    operator < 32 && operators & bit(operator) != 0
}

/// The operator, as a bit.
pub(crate) fn bit(operator: u32) -> u32 {
    if operator < 32 { 1 << operator } else { 0 }
}
