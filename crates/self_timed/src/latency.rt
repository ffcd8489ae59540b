//! The latencies themselves.
ghost use Rattle.std.specs.Prelude.{◌≡◌, ◌&&◌, ◌++◌, ◌<◌, ◌≤◌, ◌∷◌, [], IfOk, IsTrue, OnOk, filter, if◌then◌else◌, length, map};
ghost use Rattle.syn_base.specs.Limits.{most_operations};
ghost use Rattle.sequence_build_laws.specs.FlatOrder.{is_acyclic};
ghost use Rattle.self_timed.specs.Latency.{all_operations, drives, is_reached, latencies, latencies_from, latency, senses, ticks_in};
ghost use Rattle.self_timed.specs.Turns.{HaveEntry, HaveOperations, IsTable};

use crate::dates::{Dates, Span};
use crate::reach::dependents;
use sequence_build_laws::{Flat, Kind, Vertex};
use std::alloc::Global;
use syn_base::{Items, OutOfMemory};

/// How many ticks it takes at most, over all reactions, from the start of a sensor to the end of an
/// actuator, both by the number of the operation.
#[derive(Clone, Copy, Debug, PartialEq, Eq)]
pub struct Latency {
    pub sensor: u32,
    pub actuator: u32,
    pub ticks: u64,
}

/// The latency from each sensor to each actuator that depends on it within a reaction, by the numbers of
/// the operations. The dates are those of a schedule of the graph. The time is in proportion to the sensors
/// and what the operations read, where each operation stands after those that it reads.
pub fn latencies(alloc: Global, flat: &Flat, dates: &Dates) -> Result<Items<Latency>, OutOfMemory>
    requires { HaveOperations flat.now.vertices dates.now }
    ensures { IfOk result (λ list. list ≡ latencies flat.now.vertices dates.now) }
{
    let vertices = flat.vertices();
    let mut list = Vec::new(alloc);
    for op in 0..vertices.len() {
        append_from(alloc, &mut list, vertices, dates, op)?;
    }
    Ok(Items::new(list))
}

/// Appends the latencies from an operation, where it is a sensor.
fn append_from(
    alloc: Global,
    list: &mut Vec<Latency>,
    vertices: &[Vertex],
    dates: &Dates,
    op: usize,
) -> Result<(), OutOfMemory>
    requires here { op < length vertices.now }
    requires few { length vertices.now ≤ most_operations }
    requires acyclic { IsTrue (is_acyclic vertices.now) }
    requires spans { HaveOperations vertices.now dates.now }
    ensures { OnOk result (list.new.items ≡ list.old.items ++ latencies_from vertices.now dates.now op) }
{
    if !senses(&vertices[op].kind) {
        return Ok(());
    }
    let table = dependents(alloc, vertices, op as u32)?;
    append_reached(list, vertices, dates, table.as_slice(), op as u32)?;
    Ok(())
}

/// Appends the latencies from a sensor to all actuators of which the table says that they depend on it.
fn append_reached(
    list: &mut Vec<Latency>,
    vertices: &[Vertex],
    dates: &Dates,
    table: &[bool],
    sensor: u32,
) -> Result<(), OutOfMemory>
    requires few { length vertices.now ≤ most_operations }
    requires here { sensor < length vertices.now }
    requires table { IsTable vertices.now sensor table.now }
    requires spans { HaveOperations vertices.now dates.now }
    ensures { OnOk result (list.new.items ≡ list.old.items ++ map (latency dates.now sensor)
        (filter (is_reached vertices.now sensor) (all_operations vertices.now dates.now))) }
{
    for op in 0..vertices.len() {
        let reached = is_end(&vertices[op].kind, table[op]);
        append_if(reached, list, dates, sensor, op as u32)?;
    }
    Ok(())
}

/// Whether an operation of this kind is an actuator, and the sensor leads to it.
fn is_end(kind: &Kind, leads: bool) -> bool
    ensures { result ≡ (drives kind.now && leads) }
{
    drives(kind) && leads
}

/// Appends the latency from a sensor to an actuator, where it is asked for.
fn append_if(
    asked: bool,
    list: &mut Vec<Latency>,
    dates: &Dates,
    sensor: u32,
    actuator: u32,
) -> Result<(), OutOfMemory>
    requires sensor { HaveEntry dates.now sensor }
    requires actuator { HaveEntry dates.now actuator }
    ensures { OnOk result (list.new.items ≡ list.old.items ++
        (if asked then latency dates.now sensor actuator ∷ [] else [])) }
{
    if asked {
        list.push(latency_between(dates, sensor, actuator))?;
    }
    Ok(())
}

/// The latency from a sensor to an actuator.
fn latency_between(dates: &Dates, sensor: u32, actuator: u32) -> Latency
    requires sensor { HaveEntry dates.now sensor }
    requires actuator { HaveEntry dates.now actuator }
    ensures { result ≡ latency dates.now sensor actuator }
{
    let mut ticks = 0;
    for reaction in 0..dates.reactions() {
        ticks = ticks_in(dates.row(reaction), sensor, actuator).max(ticks);
    }
    Latency {
        sensor,
        actuator,
        ticks,
    }
}

/// From the start of a sensor to the end of an actuator in one reaction.
fn ticks_in(row: &[Span], sensor: u32, actuator: u32) -> u64
    requires sensor { sensor < length row.now }
    requires actuator { actuator < length row.now }
    ensures { result ≡ ticks_in sensor actuator row.now }
{
    row[actuator as usize]
        .end
        .saturating_sub(row[sensor as usize].start)
}

/// Whether an operation of this kind is a sensor.
fn senses(kind: &Kind) -> bool
    ensures { result ≡ senses kind.now }
{
    matches!(kind, Kind::Sensor(_))
}

/// Whether an operation of this kind is an actuator.
fn drives(kind: &Kind) -> bool
    ensures { result ≡ drives kind.now }
{
    matches!(kind, Kind::Actuator(_))
}
