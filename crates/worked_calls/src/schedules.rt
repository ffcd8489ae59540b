//! Schedules: what is none, beside what is one (`schedule`), and the halves of a delay (`durations`).
ghost use Rattle.std.specs.Prelude.{IfOk, length};
ghost use Rattle.sequence_build_laws.specs.DurationLines.{AreDurations};

use crate::graphs::{alone, bus, delayed, operations, operators};
use crate::lists::{one, two};
use sequence_build_laws::{
    Archi, ArchiText, Decision, Durations, Flat, Schedule, Source, Transfer, Vertex, durations_of,
    is_archi, is_flat, is_valid,
};
use std::alloc::Global;
use std::process::Abort;
use std::test::Fail;
use syn_base::{Items, OutOfMemory};

/// The flat graph of these operations, which are one.
fn flat_graph(rt: &impl Abort, alloc: Global, operations: Vec<Vertex>) -> Flat {
    let bodies = Vec::new(alloc);
    assert!(rt; is_flat(&operations, &bodies));
    Flat::new(operations, bodies)
}

/// Two operators on a bus, and no durations.
fn two_operators(rt: &impl Abort, alloc: Global) -> Result<ArchiText, Fail>
    ensures { IfOk result (λ text. AreDurations (length text.archi.operators) text.lines) }
{
    let operators = operators(alloc, &[b"P", b"Q"])?;
    let media = bus(alloc)?;
    assert!(rt; is_archi(&operators, &media));
    Ok(ArchiText {
        version: 1,
        archi: Archi::new(operators, media),
        lines: Items::new(Vec::new(alloc)),
    })
}

/// The durations of these operations on two operators: all are 0.
fn untimed(rt: &impl Abort, alloc: Global, operations: Vec<Vertex>) -> Result<Durations, Fail> {
    let flat = flat_graph(rt, alloc, operations);
    let text = two_operators(rt, alloc)?;
    Ok(durations_of(alloc, &flat, &text)?)
}

/// An operation that lasts no time.
fn placed(op: u32, operator: u32, at: u64, transfers: Vec<Transfer>) -> Decision {
    Decision {
        op,
        operator,
        start: at,
        end: at,
        transfers: Items::new(transfers),
    }
}

/// The constant is made on the first operator at 0, brought to the second one until 2, and passed on there at
/// this date.
fn schedule(alloc: Global, at: u64) -> Result<Schedule, OutOfMemory> {
    let transfer = Transfer {
        source: Source { vertex: 0, port: 0 },
        medium: 0,
        from: 0,
        to: 1,
        start: 0,
        end: 2,
    };
    let made = placed(0, 0, 0, Vec::new(alloc));
    let passed = placed(1, 1, at, one(alloc, transfer)?);
    Ok(Schedule {
        decisions: Items::new(two(alloc, made, passed)?),
    })
}

/// Whether the constant may be passed on at this date, by these durations.
fn may_be_passed_on(
    rt: &impl Abort,
    alloc: Global,
    durations: &Durations,
    at: u64,
) -> Result<bool, Fail> {
    let flat = flat_graph(rt, alloc, operations(alloc, 0)?);
    let text = two_operators(rt, alloc)?;
    let schedule = schedule(alloc, at)?;
    Ok(is_valid(&flat, &text.archi, durations, &schedule))
}

/// The constant has come to the second operator at 2.
#[test]
fn an_operation_waits_for_what_it_reads(rt: HostRuntime) -> Result<(), Fail> {
    let alloc = rt.alloc();
    let durations = untimed(&rt, alloc, operations(alloc, 0)?)?;
    assert_eq!(rt; may_be_passed_on(&rt, alloc, &durations, 2)?, true);
    assert_eq!(rt; may_be_passed_on(&rt, alloc, &durations, 1)?, false);
    Ok(())
}

#[test]
fn an_operation_without_an_entry_stands_nowhere(rt: HostRuntime) -> Result<(), Fail> {
    let alloc = rt.alloc();
    let durations = untimed(&rt, alloc, alone(alloc)?)?;
    assert_eq!(rt; may_be_passed_on(&rt, alloc, &durations, 2)?, false);
    Ok(())
}

#[test]
fn only_a_set_half_has_a_get_half(rt: HostRuntime) -> Result<(), Fail> {
    let alloc = rt.alloc();
    let halves = untimed(&rt, alloc, delayed(alloc)?)?;
    let found = (
        halves.get_half(0),
        halves.get_half(1),
        halves.get_half(2),
        halves.get_half(3),
    );
    assert_eq!(rt; found, (None, None, Some(1), None));
    Ok(())
}
