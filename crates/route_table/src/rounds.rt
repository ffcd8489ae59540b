//! The routes of an architecture, by rounds: each round finds those that are one hop longer.
//! `pressure_heuristic` calls `routes_of`.
ghost use Rattle.std.specs.Prelude.{◌≡◌, ℕ, ◌<◌, ◌≤◌, ◌+◌, ◌∷◌, length, IfOk, OnOk};
ghost use Rattle.syn_base.specs.Limits.{bound_of};
ghost use Rattle.syn_base.specs.declared.limits.LimitKind.TheVariants.{Media};
ghost use Rattle.archi_graph.specs.Routes.{AreOperators};
ghost use Rattle.route_table.specs.Table.{IsTableOf, most_hops};
ghost use Rattle.route_table.specs.Known.{Covers, Grows, IsKnownWithin};

use crate::search::first_hop;
use crate::table::Routes;
use archi_graph::{Archi, Hop, Medium};
use std::alloc::Global;
use syn_base::{Items, OutOfMemory};

/// The least route between each two operators of an architecture. It takes memory for the routes
/// alone.
pub fn routes_of(alloc: Global, archi: &Archi) -> Result<Routes, OutOfMemory>
    ensures { IfOk result (λ r. IsTableOf archi.now r) }
{
    let operators = archi.operators().len() as u32;
    let mut routes = Routes::new(alloc, operators)?;
    // Each operator is joined with operator 0 by at most as many hops as there are operators, and so
    // each two are joined by at most twice as many.
    for hops in 0..2 * operators {
        add_routes(alloc, hops, archi.media(), &mut routes)?;
    }
    Ok(routes)
}

/// Puts the routes that are one hop longer than this many into the table, from each operator to
/// each.
fn add_routes(
    alloc: Global,
    hops: u32,
    media: &[Medium],
    routes: &mut Routes,
) -> Result<(), OutOfMemory>
    requires few { (hops < most_hops) × (length media.now ≤ bound_of Media) }
    requires known { AreOperators routes.old.operators media.now }
    requires so_far { IsKnownWithin media.now routes.old hops }
    ensures grows { OnOk result (Grows routes.old routes.new) }
    ensures further { OnOk result (IsKnownWithin media.now routes.new (hops + 1)) }
{
    for from in 0..routes.operators() {
        add_routes_from(alloc, hops, media, from, routes)?;
    }
    Ok(())
}

/// The same from one operator to each.
fn add_routes_from(
    alloc: Global,
    hops: u32,
    media: &[Medium],
    from: u32,
    routes: &mut Routes,
) -> Result<(), OutOfMemory>
    requires few { (hops < most_hops) × (length media.now ≤ bound_of Media) }
    requires from { from < routes.old.operators }
    requires known { AreOperators routes.old.operators media.now }
    requires so_far { IsKnownWithin media.now routes.old hops }
    ensures grows { OnOk result (Grows routes.old routes.new) }
    ensures keeps { OnOk result (IsKnownWithin media.now routes.new hops) }
    ensures further { OnOk result ((to : ℕ) → to < routes.old.operators →
        Covers media.now routes.new (hops + 1) from to) }
{
    for to in 0..routes.operators() {
        add_route(alloc, hops, media, from, to, routes)?;
    }
    Ok(())
}

/// The same from one operator to another one. A route that is there stays, since it has fewer hops.
fn add_route(
    alloc: Global,
    hops: u32,
    media: &[Medium],
    from: u32,
    to: u32,
    routes: &mut Routes,
) -> Result<(), OutOfMemory>
    requires few { (hops < most_hops) × (length media.now ≤ bound_of Media) }
    requires places { (from < routes.old.operators) × (to < routes.old.operators) }
    requires known { AreOperators routes.old.operators media.now }
    requires so_far { IsKnownWithin media.now routes.old hops }
    ensures grows { OnOk result (Grows routes.old routes.new) }
    ensures keeps { OnOk result (IsKnownWithin media.now routes.new hops) }
    ensures further { OnOk result (Covers media.now routes.new (hops + 1) from to) }
{
    if routes.is_known(from, to) {
        return Ok(());
    }
    if let Some(hop) = first_hop(routes, hops, from, to, media) {
        let route = prepend(alloc, hop, routes.route(hop.to, to))?;
        routes.put(from, to, route);
    }
    Ok(())
}

/// The route over this hop and then along the rest.
fn prepend(alloc: Global, hop: Hop, rest: &[Hop]) -> Result<Items<Hop>, OutOfMemory>
    requires { length rest.now ≤ most_hops }
    ensures { IfOk result (λ r. r ≡ hop ∷ rest.now) }
{
    let mut route = Vec::with_capacity(alloc, rest.len() + 1)?;
    route.push(hop)?;
    route.extend_from_slice(rest)?;
    Ok(Items::new(route))
}
