//! The choice of a route's first hop, which `rounds` makes for each two operators.
ghost use Rattle.std.specs.Prelude.{◌≡◌, ◌<◌, ◌≤◌, All, length, None, IfSome};
ghost use Rattle.syn_base.specs.Limits.{bound_of};
ghost use Rattle.syn_base.specs.declared.limits.LimitKind.TheVariants.{Media};
ghost use Rattle.archi_graph.specs.Archi.{stands_at};
ghost use Rattle.archi_graph.specs.Routes.{AreOperators};
ghost use Rattle.route_table.specs.Search.{is_better, pick, pick_over, pick_among};

use crate::less::is_less;
use crate::table::Routes;
use archi_graph::{Hop, Medium};

/// The first hop of the least route from an operator to another, among the hops that lead to routes
/// of this many hops. Whole routes are compared, since the least medium may lead to several operators
/// of the same level. It takes no memory.
pub fn first_hop(routes: &Routes, hops: u32, from: u32, to: u32, media: &[Medium]) -> Option<Hop>
    requires to { to < routes.now.operators }
    requires known { AreOperators routes.now.operators media.now }
    requires few { length media.now ≤ bound_of Media }
    ensures chosen { result ≡ pick_among routes.now hops to from 0 None media.now }
    ensures below { IfSome result (λ h. h.to < routes.now.operators) }
{
    let mut best = None;
    for (number, medium) in media.iter().enumerate() {
        if is_stand(from, medium) {
            let stands = medium.stands.as_slice();
            best = first_over(routes, hops, to, number as u32, stands, best);
        }
    }
    best
}

/// Whether the operator stands at the medium.
fn is_stand(operator: u32, medium: &Medium) -> bool
    ensures { result ≡ stands_at medium.now operator }
{
    medium.stands.as_slice().contains(&operator)
}

/// The best hop so far, or a better one over this medium to one of these operators.
fn first_over(
    routes: &Routes,
    hops: u32,
    to: u32,
    medium: u32,
    stands: &[u32],
    mut best: Option<Hop>,
) -> Option<Hop>
    requires to { to < routes.now.operators }
    requires known { All (λ o. o < routes.now.operators) stands.now }
    requires best { IfSome best (λ h. h.to < routes.now.operators) }
    ensures chosen { result ≡ pick_over routes.now hops to medium best stands.now }
    ensures below { IfSome result (λ h. h.to < routes.now.operators) }
{
    for o in stands {
        best = better(routes, hops, to, best, Hop { medium, to: *o });
    }
    best
}

/// The best hop so far, or this one where it leads to a route of this many hops and makes a lesser
/// route.
fn better(routes: &Routes, hops: u32, to: u32, best: Option<Hop>, hop: Hop) -> Option<Hop>
    requires to { to < routes.now.operators }
    requires hop { hop.to < routes.now.operators }
    requires best { IfSome best (λ h. h.to < routes.now.operators) }
    ensures chosen { result ≡ pick routes.now hops to best hop }
    ensures below { IfSome result (λ h. h.to < routes.now.operators) }
{
    if routes.is_at(hops, hop.to, to) && is_better(routes, to, best, hop) {
        Some(hop)
    } else {
        best
    }
}

/// Whether a hop, with the route from where it leads, makes a lesser route than the best hop so
/// far.
fn is_better(routes: &Routes, to: u32, best: Option<Hop>, hop: Hop) -> bool
    requires to { to < routes.now.operators }
    requires hop { hop.to < routes.now.operators }
    requires best { IfSome best (λ h. h.to < routes.now.operators) }
    ensures { result ≡ is_better routes.now to best hop }
{
    match best {
        None => true,
        Some(best) => is_less(
            hop,
            routes.route(hop.to, to),
            best,
            routes.route(best.to, to),
        ),
    }
}
