//! The wires of a level: where its sources lead in the flat graph. `level`, `inlining` and `operation` follow them.
ghost use Rattle.std.specs.Prelude.{◌≡◌, IfOk, map, slice_index_or};
ghost use Rattle.flat_laws.specs.Inlined.{nowhere};
ghost use Rattle.hierarchy.specs.Wires.{led, output_led};

use algo_tree::Source;
use std::alloc::Global;
use syn_base::{Items, OutOfMemory};

/// Where the outputs of a vertex lead. A source says which operation's output it is, and one that leads
/// nowhere is `Own(0)`.
#[derive(Drop)]
pub enum Led {
    /// To those of the operation of this number.
    Operation(u32),
    /// The outputs of a graph, each to the source after it.
    Graph(Items<Source>),
}

/// A level: where its own inputs lead, and where the outputs of each of its vertices lead.
#[derive(Clone, Copy)]
pub struct Level<'a> {
    pub own: &'a [Source],
    pub leds: &'a [Led],
}

/// The source at this place, or `Own(0)`, which leads nowhere.
fn source_at(sources: &[Source], at: usize) -> Source
    ensures { result ≡ slice_index_or sources.now at nowhere }
{
    if at < sources.len() {
        sources[at]
    } else {
        Source::Own(0)
    }
}

/// Where this output of a vertex leads.
fn output(led: &Led, at: u32) -> Source
    ensures { result ≡ output_led led.now at }
{
    match led {
        Led::Operation(number) => Source::Of(*number, at),
        Led::Graph(sources) => source_at(sources.as_slice(), at as usize),
    }
}

/// Where a source of the level leads.
pub fn follow(level: &Level<'_>, source: Source) -> Source
    ensures { result ≡ led level.now.leds.now level.now.own.now source }
{
    match source {
        Source::Own(input) => source_at(level.own, input as usize),
        Source::Of(vertex, at) => match level.leds.get(vertex as usize) {
            Some(led) => output(led, at),
            None => Source::Own(0),
        },
    }
}

/// Where these sources of the level lead.
pub fn follow_all(
    alloc: Global,
    level: &Level<'_>,
    sources: &[Source],
) -> Result<Vec<Source>, OutOfMemory>
    ensures { IfOk result (λ ss. ss.items ≡ map (led level.now.leds.now level.now.own.now) sources.now) }
{
    let mut all = Vec::with_capacity(alloc, sources.len())?;
    for source in sources {
        all.push(follow(level, *source))?;
    }
    Ok(all)
}
