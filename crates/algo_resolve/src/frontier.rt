//! The frontier of a repetition as a tree has it: how it feeds its body, and what it gives.
ghost use Rattle.std.specs.Prelude.{◌≡◌, ℕ, IfOk, List, map, option_to_list};
ghost use Rattle.std.specs.List.{flat_map};
ghost use Rattle.algo_laws.specs.declared.Frontier.TheVariants.{Diffuse, Fork, Iterate};
ghost use Rattle.algo_laws.specs.Resolved.{feed_by, feed_of, give_by};

use crate::lookup::{copy_name, port_len};
use algo_laws::{Feed, Frontier, FrontierLine, Give, Ports};
use body_check::find_port;
use std::alloc::Global;
use syn_base::{Name, OutOfMemory, Shared, to_u32};

/// How the inputs of the body are fed, in order.
pub fn feeds(
    alloc: Global,
    inner: &Ports,
    outer: &Ports,
    lines: &[FrontierLine],
) -> Result<Shared<Feed>, OutOfMemory>
    ensures { IfOk result (λ fs. fs ≡ map (λ p. feed_of inner.now outer.now lines.now p.name) inner.now.ins) }
{
    let mut feeds = Vec::new(alloc);
    for port in inner.ins.as_slice() {
        feeds.push(feed(alloc, inner, outer, lines, &port.name)?)?;
    }
    Shared::new(alloc, feeds)
}

/// How one input of the body is fed: by the first line that uses it.
fn feed(
    alloc: Global,
    inner: &Ports,
    outer: &Ports,
    lines: &[FrontierLine],
    name: &Name,
) -> Result<Feed, OutOfMemory>
    ensures { IfOk result (λ f. f ≡ feed_of inner.now outer.now lines.now name.now) }
{
    for line in lines {
        if let Some(feed) = feed_by(alloc, inner, outer, name, &line.frontier)? {
            return Ok(feed);
        }
    }
    Ok(Feed::Diffuse(0))
}

/// How a line feeds an input of the body, if it uses it.
fn feed_by(
    alloc: Global,
    inner: &Ports,
    outer: &Ports,
    name: &Name,
    frontier: &Frontier,
) -> Result<Option<Feed>, OutOfMemory>
    ensures { IfOk result (λ f. f ≡ feed_by inner.now outer.now name.now frontier.now) }
{
    match frontier {
        Frontier::Fork {
            outer: from,
            inner: input,
        } => fork(alloc, inner, outer, name, from, input),
        Frontier::Diffuse {
            outer: from,
            inner: input,
        } => diffuse(outer, name, from, input),
        Frontier::Iterate {
            outer: from,
            inner: input,
            given,
            ..
        } => iterate(inner, outer, name, from, input, given),
        Frontier::Join { .. } => Ok(None),
    }
}

/// How a fork line feeds an input of the body, if it uses it.
fn fork(
    alloc: Global,
    inner: &Ports,
    outer: &Ports,
    name: &Name,
    from: &Name,
    input: &Name,
) -> Result<Option<Feed>, OutOfMemory>
    ensures { IfOk result (λ f. f ≡ feed_by inner.now outer.now name.now (Fork from.now input.now)) }
{
    if name.as_bytes() != input.as_bytes() {
        return Ok(None);
    }
    let number = to_u32(find_port(outer.ins.as_slice(), from.as_bytes()))?;
    let len = port_len(inner.ins.as_slice(), input);
    Ok(Some(Feed::Fork(copy_name(alloc, from)?, number, len)))
}

/// How a diffuse line feeds an input of the body, if it uses it.
fn diffuse(
    outer: &Ports,
    name: &Name,
    from: &Name,
    input: &Name,
) -> Result<Option<Feed>, OutOfMemory>
    ensures { IfOk result (λ f. (inner : Ports) → f ≡ feed_by inner outer.now name.now (Diffuse from.now input.now)) }
{
    if name.as_bytes() != input.as_bytes() {
        return Ok(None);
    }
    let number = to_u32(find_port(outer.ins.as_slice(), from.as_bytes()))?;
    Ok(Some(Feed::Diffuse(number)))
}

/// How an iterate line feeds an input of the body, if it uses it.
fn iterate(
    inner: &Ports,
    outer: &Ports,
    name: &Name,
    from: &Name,
    input: &Name,
    given: &Name,
) -> Result<Option<Feed>, OutOfMemory>
    ensures { IfOk result (λ f. (last : List ℕ) →
        f ≡ feed_by inner.now outer.now name.now (Iterate from.now input.now given.now last)) }
{
    if name.as_bytes() != input.as_bytes() {
        return Ok(None);
    }
    let first = to_u32(find_port(outer.ins.as_slice(), from.as_bytes()))?;
    let next = to_u32(find_port(inner.outs.as_slice(), given.as_bytes()))?;
    Ok(Some(Feed::Iterate(first, next)))
}

/// The outputs of a repetition, in the order of its lines.
pub fn gives(
    alloc: Global,
    inner: &Ports,
    lines: &[FrontierLine],
) -> Result<Shared<Give>, OutOfMemory>
    ensures { IfOk result (λ gs. (outer : Ports) → gs ≡ flat_map (λ l. give_by inner.now outer l.frontier) lines.now) }
{
    let mut gives = Vec::new(alloc);
    for line in lines {
        if let Some(give) = give(alloc, inner, &line.frontier)? {
            gives.push(give)?;
        }
    }
    Shared::new(alloc, gives)
}

/// The output of a line, if it has one.
fn give(alloc: Global, inner: &Ports, frontier: &Frontier) -> Result<Option<Give>, OutOfMemory>
    ensures { IfOk result (λ g. (outer : Ports) → option_to_list g ≡ give_by inner.now outer frontier.now) }
{
    match frontier {
        Frontier::Iterate { given, .. } => {
            Ok(Some(Give::Last(to_u32(find_port(inner.outs.as_slice(), given.as_bytes()))?)))
        }
        Frontier::Join { given, outer } => {
            let number = to_u32(find_port(inner.outs.as_slice(), given.as_bytes()))?;
            Ok(Some(Give::Join(copy_name(alloc, outer)?, number)))
        }
        Frontier::Fork { .. } | Frontier::Diffuse { .. } => Ok(None),
    }
}
