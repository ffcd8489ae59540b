//! The frontier of an unrolled repetition: the vertices and sources that its lines become. `pass` and `vertices` call
//! it.
ghost use Rattle.std.specs.Prelude.{◌≡◌, ◌<◌, ◌≤◌, ◌+◌, ◌++◌, IfOk, OnOk, length, map, replicate, slice_index_or, ◌-◌, ◌==◌, if◌then◌else◌};
ghost use Rattle.algo_tree.specs.View.{kind_view, view};
ghost use Rattle.algo_tree.specs.Well.{fork_names, join_names};
ghost use Rattle.flat_laws.specs.Unrolled.{made as vertex_made, explode_of, implode_of, explodes as exploded, implodes as imploded, copy_sources, give_sources as sources_given};
ghost use Rattle.syn_base.specs.Numbers.{numbers_below};

use crate::lines::place_of;
use algo_tree::{Feed, Give, Kind, Part, Source, Vertex, copy_bytes};
use std::alloc::Global;
use syn_base::{OutOfMemory, Shared, len_at};

/// The most vertices that stand before the implodes of a repetition, so that each of them has a number of 32
/// bits: an implode is an operation, of which a tree has at most 2,048.
pub const MOST_COPIES: u32 = u32::MAX - 2048;

/// The copies of a repetition: the number of the first, and how many there are.
#[derive(Clone, Copy)]
pub struct Copies {
    pub begin: u32,
    pub count: u32,
}

/// A vertex that flattening makes for a port of a repetition of this definition.
fn vertex_for_port(
    alloc: Global,
    definition: &Shared<u8>,
    name: &[u8],
    ins: Vec<Source>,
    outs: Vec<u32>,
    kind: Kind,
) -> Result<Vertex, OutOfMemory>
    ensures { IfOk result (λ u. view u ≡ vertex_made definition.now name.now ins.items outs.items (kind_view kind)) }
{
    let ins = Shared::new(alloc, ins)?;
    let outs = Shared::new(alloc, outs)?;
    let guards = Shared::empty(alloc)?;
    let names = Shared::empty(alloc)?;
    Ok(Vertex {
        part: Part::Port(copy_bytes(alloc, name)?),
        definition: definition.share()?,
        ins,
        guards,
        outs,
        names,
        kind,
        inner: Vec::new(alloc),
    })
}

/// The same length `count` times.
fn same_lengths(alloc: Global, len: u32, count: u32) -> Result<Vec<u32>, OutOfMemory>
    ensures { IfOk result (λ lens. lens.items ≡ replicate count len) }
{
    Ok(vec![in alloc; len; count as usize]?)
}

/// An explode of an own input into `count` parts of this length.
fn explode(
    alloc: Global,
    definition: &Shared<u8>,
    count: u32,
    name: &[u8],
    input: u32,
    len: u32,
) -> Result<Vertex, OutOfMemory>
    ensures { IfOk result (λ u. view u ≡ explode_of definition.now count name.now input len) }
{
    let ins = vec![in alloc; Source::Own(input)]?;
    let outs = same_lengths(alloc, len, count)?;
    vertex_for_port(alloc, definition, name, ins, outs, Kind::Explode)
}

/// An explode for each fork line among these lines.
pub fn explodes(
    alloc: Global,
    definition: &Shared<u8>,
    count: u32,
    lines: &[&Feed],
) -> Result<Vec<Vertex>, OutOfMemory>
    ensures { IfOk result (λ us. map view us.items ≡ exploded definition.now count (map (λ f. f.now) lines.now)) }
{
    let mut all = Vec::new(alloc);
    for line in lines {
        if let Feed::Fork(name, input, len) = line {
            all.push(explode(alloc, definition, count, name.as_slice(), *input, *len)?)?;
        }
    }
    Ok(all)
}

/// The number of fork lines: the number of the first copy.
pub fn begin_of(feeds: &[Feed]) -> u32
    requires { length (fork_names feeds.now) ≤ 2048 }
    ensures { result ≡ length (fork_names feeds.now) }
{
    let mut count = 0;
    for feed in feeds {
        if let Feed::Fork(..) = feed {
            count += 1;
        }
    }
    count
}

/// The source of an iterated input of copy `i`: the outer input for copy 0, and the body's output for
/// the copies after it.
fn iterated_source(copies: Copies, i: u32, input: u32, output: u32) -> Source
    requires { copies.begin + i ≤ MOST_COPIES }
    ensures { result ≡ (if i == 0 then Source.Own input else Source.Of (copies.begin + (i - 1)) output) }
{
    if i == 0 {
        Source::Own(input)
    } else {
        Source::Of(copies.begin + (i - 1), output)
    }
}

/// The sources of the inputs of copy `i`, where the explodes stand in the order of `lines`.
pub fn copy_ins(
    alloc: Global,
    copies: Copies,
    i: u32,
    feeds: &[Feed],
    lines: &[&Feed],
) -> Result<Vec<Source>, OutOfMemory>
    requires few { length (fork_names (map (λ f. f.now) lines.now)) ≤ 2048 }
    requires small { copies.begin + i ≤ MOST_COPIES }
    ensures { IfOk result (λ ins. ins.items ≡ copy_sources copies.begin i (map (λ f. f.now) lines.now) feeds.now) }
{
    let mut all = Vec::new(alloc);
    for feed in feeds {
        match feed {
            Feed::Fork(name, ..) => all.push(Source::Of(place_of(name.as_slice(), lines), i))?,
            Feed::Diffuse(input) => all.push(Source::Own(*input))?,
            Feed::Iterate(input, output) => all.push(iterated_source(copies, i, *input, *output))?,
        }
    }
    Ok(all)
}

/// Output `output` of each of the copies, in order.
fn outputs_of(alloc: Global, copies: Copies, output: u32) -> Result<Vec<Source>, OutOfMemory>
    requires { copies.begin + copies.count ≤ MOST_COPIES }
    ensures { IfOk result (λ ins. ins.items ≡
        map (λ i. Source.Of (copies.begin + i) output) (numbers_below copies.count)) }
{
    let mut ins = Vec::new(alloc);
    for i in 0..copies.count {
        ins.push(Source::Of(copies.begin + i, output))?;
    }
    Ok(ins)
}

/// An implode of an output of each copy.
fn implode(
    alloc: Global,
    definition: &Shared<u8>,
    copies: Copies,
    name: &[u8],
    output: u32,
    len: u32,
) -> Result<Vertex, OutOfMemory>
    requires { copies.begin + copies.count ≤ MOST_COPIES }
    ensures { IfOk result (λ u. view u ≡ implode_of definition.now copies.begin copies.count name.now output len) }
{
    let ins = outputs_of(alloc, copies, output)?;
    let outs = vec![in alloc; len]?;
    vertex_for_port(alloc, definition, name, ins, outs, Kind::Implode)
}

/// Adds an implode for each join line, in order, of the lengths of the repetition's outputs.
pub fn add_implodes(
    alloc: Global,
    definition: &Shared<u8>,
    copies: Copies,
    outs: &[u32],
    gives: &[Give],
    all: &mut Vec<Vertex>,
) -> Result<(), OutOfMemory>
    requires { copies.begin + copies.count ≤ MOST_COPIES }
    ensures { OnOk result (map view all.new.items ≡ map view all.old.items ++
        imploded definition.now copies.begin copies.count outs.now 0 gives.now) }
{
    let mut place = 0;
    for give in gives {
        if let Give::Join(name, output) = give {
            let len = len_at(outs, place);
            let name = name.as_slice();
            all.push(implode(alloc, definition, copies, name, *output, len)?)?;
        }
        place += 1;
    }
    Ok(())
}

/// The sources of the graph's outputs: an implode, or an output of the last copy.
pub fn give_sources(
    alloc: Global,
    copies: Copies,
    gives: &[Give],
) -> Result<Vec<Source>, OutOfMemory>
    requires some { 0 < copies.count }
    requires few { length (join_names gives.now) ≤ 2048 }
    requires small { copies.begin + copies.count ≤ MOST_COPIES }
    ensures { IfOk result (λ sources. sources.items ≡ sources_given copies.begin copies.count 0 gives.now) }
{
    let mut all = Vec::new(alloc);
    let mut joins = 0;
    for give in gives {
        let source = match give {
            Give::Join(..) => {
                let implode = Source::Of(copies.begin + copies.count + joins, 0);
                joins += 1;
                implode
            }
            Give::Last(output) => Source::Of(copies.begin + (copies.count - 1), *output),
        };
        all.push(source)?;
    }
    Ok(all)
}
