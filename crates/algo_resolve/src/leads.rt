//! Where the outputs of a vertex lead that stands for no operation: each to one of its inputs.
ghost use Rattle.std.specs.Prelude.{◌≡◌, IfOk, None, map, slice_index_or};
ghost use Rattle.wiring_laws.specs.Wiring.{body_leads, copy_lead, give_lead, lead, lead_out, lead_source};
ghost use Rattle.algo_resolve.specs.Rounds.{hop, unit_view};

use algo_laws::{Feed, Give, Source};
use std::alloc::Global;
use syn_base::{Items, OutOfMemory};

/// A vertex of a level: the sources of its inputs, and for each output the input to which it leads.
#[derive(Clone, Copy)]
pub struct Unit<'a> {
    pub ins: &'a [Source],
    pub leads: &'a [Option<u32>],
}

/// The inputs of a level to which these sources lead.
pub fn graph_leads(
    alloc: Global,
    units: &[Unit],
    sources: &[Source],
) -> Result<Items<Option<u32>>, OutOfMemory>
    ensures { IfOk result (λ leads. leads ≡ map (lead (map unit_view units.now)) sources.now) }
{
    let mut leads = Vec::new(alloc);
    for source in sources {
        leads.push(lead_within(units, units.len(), *source))?;
    }
    Ok(Items::new(leads))
}

/// The input of a level to which a source leads, over this many of its vertices at most.
fn lead_within(units: &[Unit], most: usize, source: Source) -> Option<u32>
    ensures { result ≡ lead_source (lead_out (map unit_view units.now) most) source }
{
    match source {
        Source::Own(own) => Some(own),
        Source::Of(unit, port) => {
            if most == 0 {
                return None;
            }
            let next = hop(units, unit as usize, port as usize)?;
            lead_within(units, most - 1, next)
        }
    }
}

/// The source of the input to which an output of a vertex leads.
fn hop(units: &[Unit], unit: usize, port: usize) -> Option<Source>
    ensures { result ≡ hop (map unit_view units.now) unit port }
{
    if unit >= units.len() {
        return None;
    }
    let input = lead_at(units[unit].leads, port)? as usize;
    let ins = units[unit].ins;
    if input < ins.len() {
        Some(ins[input])
    } else {
        None
    }
}

/// Where the output of this number leads.
fn lead_at(leads: &[Option<u32>], port: usize) -> Option<u32>
    ensures { result ≡ slice_index_or leads.now port None }
{
    if port < leads.len() {
        leads[port]
    } else {
        None
    }
}

/// The inputs of a repetition to which its outputs lead, whose body leads so.
pub fn repeat_leads(
    alloc: Global,
    copies: u32,
    feeds: &[Feed],
    leads: &[Option<u32>],
    gives: &[Give],
) -> Result<Items<Option<u32>>, OutOfMemory>
    ensures { IfOk result (λ all. all ≡ map (give_lead copies feeds.now leads.now) gives.now) }
{
    let mut all = Vec::new(alloc);
    for give in gives {
        all.push(give_lead(copies, feeds, leads, give))?;
    }
    Ok(Items::new(all))
}

/// The input of a repetition to which one of its outputs leads.
fn give_lead(copies: u32, feeds: &[Feed], leads: &[Option<u32>], give: &Give) -> Option<u32>
    ensures { result ≡ give_lead copies feeds.now leads.now give.now }
{
    match give {
        Give::Last(output) => copy_lead(feeds, leads, copies.saturating_sub(1), *output),
        Give::Join(..) => None,
    }
}

/// The input of a repetition to which an output of this copy of its body leads.
fn copy_lead(feeds: &[Feed], leads: &[Option<u32>], copy: u32, output: u32) -> Option<u32>
    ensures { result ≡ copy_lead feeds.now leads.now copy output }
{
    let input = lead_at(leads, output as usize)? as usize;
    if input >= feeds.len() {
        return None;
    }
    match &feeds[input] {
        Feed::Fork(..) => None,
        Feed::Diffuse(outer) => Some(*outer),
        Feed::Iterate(outer, given) => {
            if copy == 0 {
                Some(*outer)
            } else {
                copy_lead(feeds, leads, copy - 1, *given)
            }
        }
    }
}

/// Where the outputs of the body of a repetition lead, which is alone on its level.
pub fn body_leads<'a>(units: &[Unit<'a>]) -> &'a [Option<u32>]
    ensures { result.now ≡ body_leads (map unit_view units.now) }
{
    if units.is_empty() {
        &[]
    } else {
        units[0].leads
    }
}
