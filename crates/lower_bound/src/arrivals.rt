//! When an operation can end at the earliest, by the dates of those that it depends on. `chains`
//! calls `first_end`.
ghost use Rattle.std.specs.Prelude.{◌≡◌, ℕ, ◌+◌, ◌<◌, ◌≤◌, length, map};
ghost use Rattle.self_timed.specs.Graph.{len_of};
ghost use Rattle.self_timed.specs.FlatOrder.{get_half};
ghost use Rattle.self_timed.specs.Archi.{stands_at};
ghost use Rattle.self_timed.specs.Table.{entry_in};
ghost use Rattle.lower_bound.specs.Bound.{arrival, brought_in, end_on, first_end, least_transfer, start_on};
ghost use Rattle.lower_bound.specs.Turns.{at, most_date, most_transfer, AreShort};
ghost use Rattle.syn_base.specs.Numbers.{greatest, lesser};

use self_timed::{Durations, Guard, Kind, Medium, Source, Vertex, len_of};

/// When the operation can end on the operator on which it can end first.
pub(crate) fn first_end(
    ends: &[u64],
    vertices: &[Vertex],
    media: &[Medium],
    durations: &Durations,
    op: u32,
) -> u64
    requires there { op < length vertices.now }
    requires low { (v : ℕ) → at ends.now v ≤ most_date }
    requires short { AreShort media.now vertices.now }
    ensures { result ≡ first_end durations.now.operators (entry_in durations.now) vertices.now
        media.now (at ends.now) op }
{
    let mut first = None;
    for operator in 0..durations.operators() {
        let end = end_on(ends, vertices, media, durations, op, operator);
        first = lesser(first, end);
    }
    first.unwrap_or(0)
}

/// When the operation can end on this operator, where it may stand there.
fn end_on(
    ends: &[u64],
    vertices: &[Vertex],
    media: &[Medium],
    durations: &Durations,
    op: u32,
    operator: u32,
) -> Option<u64>
    requires there { op < length vertices.now }
    requires low { (v : ℕ) → at ends.now v ≤ most_date }
    requires short { AreShort media.now vertices.now }
    ensures { result ≡ end_on durations.now.operators (entry_in durations.now) vertices.now
        media.now (at ends.now) op operator }
{
    let Some(ticks) = durations.ticks(op, operator) else {
        return None;
    };
    let vertex = &vertices[op as usize];
    Some(ticks + start_on(ends, vertices, media, durations, vertex, operator))
}

/// When all that the operation reads can be there on this operator, and of a set half the get half
/// has ended.
fn start_on(
    ends: &[u64],
    vertices: &[Vertex],
    media: &[Medium],
    durations: &Durations,
    vertex: &Vertex,
    operator: u32,
) -> u64
    requires low { (v : ℕ) → at ends.now v ≤ most_date }
    requires short { AreShort media.now vertices.now }
    ensures start { result ≡ start_on durations.now.operators (entry_in durations.now)
        vertices.now media.now (at ends.now) operator vertex.now }
    ensures low { result ≤ most_date + most_transfer }
{
    let guards = last_of_guards(
        ends,
        vertices,
        media,
        durations,
        vertex.guards.as_slice(),
        operator,
    );
    let inputs = last_of_sources(
        ends,
        vertices,
        media,
        durations,
        vertex.ins.as_slice(),
        operator,
    );
    guards
        .max(inputs)
        .max(end_of_half(ends, &vertex.kind, vertex.twin))
}

/// When the last of what these guards read can be there on the operator.
fn last_of_guards(
    ends: &[u64],
    vertices: &[Vertex],
    media: &[Medium],
    durations: &Durations,
    guards: &[Guard],
    operator: u32,
) -> u64
    requires low { (v : ℕ) → at ends.now v ≤ most_date }
    requires short { AreShort media.now vertices.now }
    ensures last { result ≡ greatest (map (arrival durations.now.operators
        (entry_in durations.now) vertices.now media.now (at ends.now) operator)
        (map (λ g. g.source) guards.now)) }
    ensures low { result ≤ most_date + most_transfer }
{
    let mut last = 0;
    for guard in guards {
        let date = arrival(ends, vertices, media, durations, guard.source, operator);
        last = date.max(last);
    }
    last
}

/// When the last of these sources can be there on the operator.
fn last_of_sources(
    ends: &[u64],
    vertices: &[Vertex],
    media: &[Medium],
    durations: &Durations,
    sources: &[Source],
    operator: u32,
) -> u64
    requires low { (v : ℕ) → at ends.now v ≤ most_date }
    requires short { AreShort media.now vertices.now }
    ensures last { result ≡ greatest (map (arrival durations.now.operators
        (entry_in durations.now) vertices.now media.now (at ends.now) operator) sources.now) }
    ensures low { result ≤ most_date + most_transfer }
{
    let mut last = 0;
    for source in sources {
        let date = arrival(ends, vertices, media, durations, *source, operator);
        last = date.max(last);
    }
    last
}

/// When a source can be there on the operator: once its operation has ended, where that may stand
/// there, else after a transfer.
fn arrival(
    ends: &[u64],
    vertices: &[Vertex],
    media: &[Medium],
    durations: &Durations,
    source: Source,
    operator: u32,
) -> u64
    requires low { (v : ℕ) → at ends.now v ≤ most_date }
    requires short { AreShort media.now vertices.now }
    ensures arrival { result ≡ arrival durations.now.operators (entry_in durations.now)
        vertices.now media.now (at ends.now) operator source }
    ensures low { result ≤ most_date + most_transfer }
{
    let end = end_at(ends, source.vertex);
    if durations.ticks(source.vertex, operator).is_some() {
        end
    } else {
        end + least_transfer(media, operator, len_of(vertices, source))
    }
}

/// The least time in which a medium carries this many elements to the operator, 0 where none does.
fn least_transfer(media: &[Medium], operator: u32, len: u32) -> u64
    ensures { result ≡ least_transfer media.now operator len }
{
    let mut least = None;
    for medium in media {
        least = lesser(least, brought_in(medium, operator, len));
    }
    least.unwrap_or(0)
}

/// The time in which the medium carries this many elements to the operator, where that stands at it.
fn brought_in(medium: &Medium, operator: u32, len: u32) -> Option<u64>
    ensures { result ≡ brought_in operator len medium.now }
{
    if stands_at(medium, operator) {
        Some(u64::from(medium.fixed) + u64::from(len) * u64::from(medium.per))
    } else {
        None
    }
}

/// Whether the operator stands at the medium.
fn stands_at(medium: &Medium, operator: u32) -> bool
    ensures { result ≡ stands_at medium.now operator }
{
    medium
        .stands
        .as_slice()
        .iter()
        .any(|stand| operator == *stand)
}

/// The lesser of two numbers, where they are there.
fn lesser(one: Option<u64>, other: Option<u64>) -> Option<u64>
    ensures { result ≡ lesser one other }
{
    match (one, other) {
        (Some(one), Some(other)) => Some(one.min(other)),
        (Some(one), None) => Some(one),
        (None, other) => other,
    }
}

/// The date of the get half, where the operation is a set half.
pub(crate) fn end_of_half(ends: &[u64], kind: &Kind, twin: Option<u32>) -> u64
    ensures { result ≡ greatest (map (at ends.now) (get_half kind.now twin)) }
{
    match (kind, twin) {
        (Kind::Set, Some(twin)) => end_at(ends, twin),
        _ => 0,
    }
}

/// The date of an operation, 0 where there is none of this number.
pub(crate) fn end_at(ends: &[u64], op: u32) -> u64
    ensures { result ≡ at ends.now op }
{
    let op = op as usize;
    if op < ends.len() { ends[op] } else { 0 }
}
