//! The law of reachability, which says what the definition by rounds means. Whoever reads
//! `is_archi` may cite it; no code calls it.
ghost use Rattle.archi_graph.specs.Routes.{RoutesAreFound};

/// Reachability by rounds of hops is reachability by routes.
#[tactic(auto, using(crate::proofs::Rounds::routes_are_found))]
pub fn routes_are_found()
    ensures { RoutesAreFound }
{}
