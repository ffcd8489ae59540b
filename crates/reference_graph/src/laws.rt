//! Laws of links, each the contract of a function that does nothing.
ghost use Rattle.reference_graph.specs.Links.{Links};
ghost use Rattle.reference_graph.specs.Laws.{DepthsAreOneDeeper, LinksAreEnough};

/// Where a path of any length leads, one of at most as many links as there are vertices and one leads
/// too.
pub fn links_are_enough()
    ensures { (links : Links) → LinksAreEnough links }
{}

/// Where nothing reaches itself, the depth of a vertex is one more than that of its deepest reference.
pub fn depths_are_one_deeper()
    ensures { (links : Links) → DepthsAreOneDeeper links }
{}
