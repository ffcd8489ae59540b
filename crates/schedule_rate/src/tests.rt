//! Rates of schedules that were worked by hand.
ghost use Rattle.std.specs.Prelude.{◌≡◌, IfOk, IsTrue, length};
ghost use Rattle.self_timed.specs.Archi.{is_depth};
ghost use Rattle.self_timed.specs.DurationLines.{AreDurations};

use crate::rate_of;
use rates::Rate;
use self_timed::{
    Archi, ArchiText, Decision, DurationLine, Flat, Kind, Medium, MediumKind, Schedule, Source,
    Transfer, Vertex,
};
use sequence_build_laws::{durations_of, is_archi, is_flat, is_valid};
use std::alloc::Global;
use std::process::Abort;
use std::test::Fail;
use syn_base::{Items, Name, OutOfMemory};

/// An operation without guards, with one output or none.
fn operation(
    alloc: Global,
    name: &[u8],
    definition: &[u8],
    kind: Kind,
    ins: &[Source],
    outs: &[u32],
) -> Result<Vertex, Fail> {
    Ok(Vertex {
        name: Items::new(Vec::from_slice(alloc, name)?),
        def: Name::new(alloc, definition)?,
        kind,
        guards: Items::new(Vec::new(alloc)),
        ins: Items::new(Vec::from_slice(alloc, ins)?),
        outs: Items::new(Vec::from_slice(alloc, outs)?),
        twin: None,
    })
}

/// The only output of an operation.
fn output_of(vertex: u32) -> Source {
    Source { vertex, port: 0 }
}

/// Two sensors, an operation that passes on what the second one gives, an actuator that takes what
/// is passed on, and one that takes what the first sensor gives.
fn graph(rt: &impl Abort, alloc: Global) -> Result<Flat, Fail> {
    let mut vertices = Vec::new(alloc);
    let first = operation(alloc, b"first", b"read", Kind::Sensor(0), &[], &[1])?;
    let second = operation(alloc, b"second", b"read", Kind::Sensor(1), &[], &[1])?;
    let passed = operation(
        alloc,
        b"passed",
        b"pass",
        Kind::Implode,
        &[output_of(1)],
        &[1],
    )?;
    let late = operation(
        alloc,
        b"late",
        b"write",
        Kind::Actuator(0),
        &[output_of(2)],
        &[],
    )?;
    let last = operation(
        alloc,
        b"last",
        b"write",
        Kind::Actuator(1),
        &[output_of(0)],
        &[],
    )?;
    vertices.push(first)?;
    vertices.push(second)?;
    vertices.push(passed)?;
    vertices.push(late)?;
    vertices.push(last)?;
    let bodies = Vec::new(alloc);
    assert!(rt; is_flat(&vertices, &bodies));
    Ok(Flat::new(vertices, bodies))
}

/// A medium that takes this long for each transfer.
fn medium(
    alloc: Global,
    name: &[u8],
    kind: MediumKind,
    fixed: u32,
    stands: &[u32],
) -> Result<Medium, Fail> {
    Ok(Medium {
        name: Name::new(alloc, name)?,
        kind,
        fixed,
        per: 0,
        stands: Items::new(Vec::from_slice(alloc, stands)?),
    })
}

/// A line that says how long a definition lasts on an operator.
fn line(alloc: Global, definition: &[u8], operator: u32, ticks: u32) -> Result<DurationLine, Fail>
    ensures { IfOk result (λ l. (l.operator ≡ operator) × (l.ticks ≡ ticks)) }
{
    Ok(DurationLine {
        def: Name::new(alloc, definition)?,
        operator,
        ticks,
    })
}

/// Sensors and actuators last a tick, on the first operator and, these only, on the second one.
fn lines(alloc: Global) -> Result<Vec<DurationLine>, Fail>
    ensures { IfOk result (λ lines. AreDurations 3 lines.items) }
{
    let mut lines = Vec::new(alloc);
    lines.push(line(alloc, b"read", 0, 1)?)?;
    lines.push(line(alloc, b"write", 0, 1)?)?;
    lines.push(line(alloc, b"write", 1, 1)?)?;
    Ok(lines)
}

/// Three operators at a bus, of which the last two are joined by a link as well.
fn three_operators(rt: &impl Abort, alloc: Global, depth: u32) -> Result<ArchiText, Fail>
    requires { IsTrue (is_depth depth) }
    ensures { IfOk result (λ text. AreDurations (length text.archi.operators) text.lines) }
{
    let mut operators = Vec::new(alloc);
    operators.push(Name::new(alloc, b"P")?)?;
    operators.push(Name::new(alloc, b"Q")?)?;
    operators.push(Name::new(alloc, b"R")?)?;
    let mut media = Vec::new(alloc);
    media.push(medium(alloc, b"bus", MediumKind::Multipoint, 1, &[0, 1, 2])?)?;
    media.push(medium(alloc, b"link", MediumKind::PointToPoint, 3, &[1, 2])?)?;
    assert!(rt; is_archi(&operators, &media));
    let lines = lines(alloc)?;
    Ok(ArchiText {
        version: 1,
        archi: Archi::with_depth(operators, media, depth),
        lines: Items::new(lines),
    })
}

/// A value of one element on its way from an operator to another one.
fn carried(vertex: u32, medium: u32, from: u32, to: u32, start: u64, end: u64) -> Transfer {
    Transfer {
        source: output_of(vertex),
        medium,
        from,
        to,
        start,
        end,
    }
}

/// An operation on an operator, after these transfers.
fn placed(
    alloc: Global,
    op: u32,
    operator: u32,
    start: u64,
    end: u64,
    transfers: &[Transfer],
) -> Result<Decision, OutOfMemory> {
    Ok(Decision {
        op,
        operator,
        start,
        end,
        transfers: Items::new(Vec::from_slice(alloc, transfers)?),
    })
}

/// All on the first operator, one after another: four ticks.
fn alone(alloc: Global) -> Result<Schedule, OutOfMemory> {
    let mut decisions = Vec::new(alloc);
    decisions.push(placed(alloc, 0, 0, 0, 1, &[])?)?;
    decisions.push(placed(alloc, 1, 0, 1, 2, &[])?)?;
    decisions.push(placed(alloc, 2, 0, 2, 2, &[])?)?;
    decisions.push(placed(alloc, 3, 0, 2, 3, &[])?)?;
    decisions.push(placed(alloc, 4, 0, 3, 4, &[])?)?;
    Ok(Schedule {
        decisions: Items::new(decisions),
    })
}

/// The first sensor's value goes to the second operator at once, and is taken there after the second
/// one's, which goes round by the third operator. So from the first transfer of the bus to the last
/// actuator there are 1 + 1 + 0 + 3 + 1 + 1 ticks, and the first transfer waits for the last
/// actuator of as many reactions before as the buffer has places.
fn round(alloc: Global) -> Result<Schedule, OutOfMemory> {
    let bus = [carried(0, 0, 0, 1, 1, 2), carried(1, 0, 0, 2, 2, 3)];
    let link = [carried(2, 1, 2, 1, 3, 6)];
    let mut decisions = Vec::new(alloc);
    decisions.push(placed(alloc, 0, 0, 0, 1, &[])?)?;
    decisions.push(placed(alloc, 1, 0, 1, 2, &[])?)?;
    decisions.push(placed(alloc, 2, 2, 3, 3, &bus)?)?;
    decisions.push(placed(alloc, 3, 1, 6, 7, &link)?)?;
    decisions.push(placed(alloc, 4, 1, 7, 8, &[])?)?;
    Ok(Schedule {
        decisions: Items::new(decisions),
    })
}

/// The exact rate of a schedule, if buffers have so many places.
fn rate_at(
    rt: &impl Abort,
    alloc: Global,
    depth: u32,
    schedule: &Schedule,
) -> Result<(u64, u32), Fail>
    requires { IsTrue (is_depth depth) }
{
    let flat = graph(rt, alloc)?;
    let text = three_operators(rt, alloc, depth)?;
    let durations = durations_of(alloc, &flat, &text)?;
    // The proof takes from this call what the durations keep.
    let _operators = durations.operators();
    assert!(rt; is_valid(&flat, &text.archi, &durations, schedule));
    let Rate { ticks, reactions } = rate_of(alloc, &flat, &text.archi, schedule)?.rate;
    Ok((ticks, reactions))
}

#[test]
fn one_operator_has_the_length_as_its_rate(rt: HostRuntime) -> Result<(), Fail> {
    let alloc = rt.alloc();
    let schedule = alone(alloc)?;
    assert_eq!(rt; rate_at(&rt, alloc, 1, &schedule)?, (4, 1));
    assert_eq!(rt; rate_at(&rt, alloc, 4, &schedule)?, (4, 1));
    Ok(())
}

/// With three places the link is slower than the way round.
#[test]
fn places_of_buffers_divide_a_cycle(rt: HostRuntime) -> Result<(), Fail> {
    let alloc = rt.alloc();
    let schedule = round(alloc)?;
    assert_eq!(rt; rate_at(&rt, alloc, 1, &schedule)?, (7, 1));
    assert_eq!(rt; rate_at(&rt, alloc, 2, &schedule)?, (7, 2));
    assert_eq!(rt; rate_at(&rt, alloc, 3, &schedule)?, (3, 1));
    assert_eq!(rt; rate_at(&rt, alloc, 4, &schedule)?, (3, 1));
    Ok(())
}
