//! The order of routes, by which `search` compares two of them.
ghost use Rattle.std.specs.Prelude.{◌≡◌, ◌∷◌, length};
ghost use Rattle.route_table.specs.Least.{are_equal, comes_before, is_less, media_of, operators_of};

use archi_graph::Hop;

/// Whether a hop and the route after it are less than another hop and the route after that one: by
/// the number of hops, then by all media, then by all operators. It takes no memory.
pub fn is_less(hop: Hop, rest: &[Hop], other: Hop, other_rest: &[Hop]) -> bool
    ensures { result ≡ is_less (hop ∷ rest.now) (other ∷ other_rest.now) }
{
    if rest.len() != other_rest.len() {
        return rest.len() < other_rest.len();
    }
    if hop.medium != other.medium {
        return hop.medium < other.medium;
    }
    if !are_media_equal(rest, other_rest) {
        return media_come_before(rest, other_rest);
    }
    if hop.to != other.to {
        return hop.to < other.to;
    }
    operators_come_before(rest, other_rest)
}

/// Whether both routes go over the same media.
fn are_media_equal(hops: &[Hop], others: &[Hop]) -> bool
    requires { length hops.now ≡ length others.now }
    ensures { result ≡ are_equal (media_of hops.now) (media_of others.now) }
{
    for (i, hop) in hops.iter().enumerate() {
        if hop.medium != others[i].medium {
            return false;
        }
    }
    true
}

/// Whether the media of the first route come before those of the other one.
fn media_come_before(hops: &[Hop], others: &[Hop]) -> bool
    requires { length hops.now ≡ length others.now }
    ensures { result ≡ comes_before (media_of hops.now) (media_of others.now) }
{
    for (i, hop) in hops.iter().enumerate() {
        if hop.medium != others[i].medium {
            return hop.medium < others[i].medium;
        }
    }
    false
}

/// Whether the operators of the first route come before those of the other one.
fn operators_come_before(hops: &[Hop], others: &[Hop]) -> bool
    requires { length hops.now ≡ length others.now }
    ensures { result ≡ comes_before (operators_of hops.now) (operators_of others.now) }
{
    for (i, hop) in hops.iter().enumerate() {
        if hop.to != others[i].to {
            return hop.to < others[i].to;
        }
    }
    false
}
