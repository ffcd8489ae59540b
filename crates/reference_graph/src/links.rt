//! The references of vertices.
ghost use Rattle.std.specs.Prelude.{◌≡◌, ◌<◌, ◌↔◌, length, IsTrue};
ghost use Rattle.std.specs.List.{All};
ghost use Rattle.reference_graph.specs.Links.{from};
ghost use Rattle.reference_graph.specs.Answer.{AreInside};

use syn_base::Items;

/// The vertices that a vertex refers to.
pub fn references(links: &[Items<u32>], a: usize) -> &[u32]
    requires place { a < length links.now }
    requires links { AreInside links.now }
    ensures are { result.now ≡ from links.now a }
    ensures inside { All (λ b. b < length links.now) result.now }
{
    links[a].as_slice()
}

/// Whether every number in the links is that of a vertex. It takes no memory.
pub fn are_inside(links: &[Items<u32>]) -> bool
    ensures { IsTrue result ↔ AreInside links.now }
{
    for row in links {
        if !are_below(row.as_slice(), links.len()) {
            return false;
        }
    }
    true
}

/// Whether each of these numbers is below this one.
fn are_below(refs: &[u32], count: usize) -> bool
    ensures { IsTrue result ↔ All (λ b. b < count) refs.now }
{
    refs.iter().all(|b| (*b as usize) < count)
}
