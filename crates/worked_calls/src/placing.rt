//! Schedules: decisions one by one, and those of the pressure run.
use crate::stages::{find_schedule, two_operators};
use comm_routing::Draft;
use pressure_heuristic::routes_of;
use sequence_build_laws::{Decision, Source, Transfer};
use std::process::Abort;
use std::test::Fail;

/// Places an operation that may be placed.
fn place(rt: &impl Abort, draft: &mut Draft, op: u32, operator: u32) -> Result<(), Fail> {
    assert!(rt; draft.may_place(op, operator));
    draft.place(op, operator)?;
    Ok(())
}

/// When a candidate would have all that it reads on an operator.
fn arrival(draft: &Draft, op: u32, operator: u32) -> Option<u64> {
    if draft.may_place(op, operator) {
        Some(draft.arrival(op, operator))
    } else {
        None
    }
}

/// Whether the decision places this operation on this operator from one date to the other.
fn places(decision: &Decision, op: u32, operator: u32, start: u64, end: u64) -> bool {
    decision.op == op
        && decision.operator == operator
        && decision.start == start
        && decision.end == end
}

#[test]
fn candidates_and_arrivals_follow_what_is_placed(rt: HostRuntime) -> Result<(), Fail> {
    let alloc = rt.alloc();
    let site = two_operators(&rt, alloc)?;
    let routes = routes_of(alloc, &site.text.archi)?;
    let mut draft = Draft::new(
        alloc,
        &site.flat,
        &site.text.archi,
        &site.durations,
        &routes,
    )?;
    place(&rt, &mut draft, 0, 0)?;
    place(&rt, &mut draft, 1, 0)?;
    assert!(rt; draft.ready() == [2, 3].as_slice());
    assert_eq!(rt; arrival(&draft, 2, 0), Some(1));
    assert_eq!(rt; arrival(&draft, 2, 1), Some(3));
    assert_eq!(rt; arrival(&draft, 3, 0), Some(11));
    Ok(())
}

#[test]
fn a_placement_is_the_last_decision(rt: HostRuntime) -> Result<(), Fail> {
    let alloc = rt.alloc();
    let site = two_operators(&rt, alloc)?;
    let routes = routes_of(alloc, &site.text.archi)?;
    let mut draft = Draft::new(
        alloc,
        &site.flat,
        &site.text.archi,
        &site.durations,
        &routes,
    )?;
    place(&rt, &mut draft, 0, 0)?;
    place(&rt, &mut draft, 2, 1)?;
    let decisions = draft.decisions();
    assert_eq!(rt; decisions.len(), 2);
    assert!(rt; places(&decisions[0], 0, 0, 0, 1));
    assert!(rt; places(&decisions[1], 2, 1, 3, 13));
    Ok(())
}

/// The value of the sensor from the first operator to the second one.
fn carried() -> Transfer {
    Transfer {
        source: Source { vertex: 0, port: 0 },
        medium: 0,
        from: 0,
        to: 1,
        start: 1,
        end: 3,
    }
}

#[test]
fn the_pressure_run_decides_in_this_order(rt: HostRuntime) -> Result<(), Fail> {
    let alloc = rt.alloc();
    let site = two_operators(&rt, alloc)?;
    let schedule = find_schedule(alloc, &site)?;
    let decisions = schedule.decisions.as_slice();
    assert_eq!(rt; decisions.len(), 5);
    assert!(rt; places(&decisions[0], 0, 0, 0, 1));
    assert!(rt; places(&decisions[1], 1, 0, 1, 11));
    assert!(rt; places(&decisions[2], 2, 1, 3, 13));
    assert!(rt; places(&decisions[3], 4, 1, 13, 14));
    assert!(rt; places(&decisions[4], 3, 0, 11, 12));
    assert!(rt; decisions[2].transfers.as_slice() == [carried()].as_slice());
    Ok(())
}
