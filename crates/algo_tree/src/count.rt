//! The number of flat operations that a vertex stands for, which limits ask for before anything is expanded.
ghost use Rattle.std.specs.Prelude.{◌≡◌, ◌^◌, ◌-◌, ◌+◌, length, min};
ghost use Rattle.algo_tree.specs.View.{kind_view, view};
ghost use Rattle.algo_tree.specs.Well.{fork_names, join_names};
ghost use Rattle.algo_tree.specs.Counted.{operations, operations_by};

use crate::vertex::{Kind, Vertex};
use level_meaning::{Feed, Give};

/// The number of flat operations that flattening makes of a vertex, or the last value of the type
/// where it is more. It takes no memory, and goes once through the vertex.
pub fn count_operations(vertex: &Vertex) -> u64
    ensures { result ≡ min (operations (view vertex.now)) (2 ^ 64 - 1) }
{
    let mut inside: u64 = 0;
    for vertex in &vertex.inner {
        inside = inside.saturating_add(count_operations(vertex));
    }
    count_by(&vertex.kind, inside)
}

/// The same of a vertex of this kind, where what is inside it stands for `inside`.
fn count_by(kind: &Kind, inside: u64) -> u64
    ensures { result ≡ min (operations_by (kind_view kind.now) inside) (2 ^ 64 - 1) }
{
    match kind {
        Kind::Delay(groups) => (groups.as_slice().len() as u64).saturating_mul(2),
        Kind::Graph(_) => inside,
        Kind::Switch(_, names) => inside.saturating_add(names.as_slice().len() as u64),
        Kind::Repeat(copies, feeds, gives) => count_forks(feeds.as_slice())
            .saturating_add(u64::from(*copies).saturating_mul(inside))
            .saturating_add(count_joins(gives.as_slice())),
        _ => 1,
    }
}

/// The number of fork lines.
pub fn count_forks(feeds: &[Feed]) -> u64
    ensures { result ≡ length (fork_names feeds.now) }
{
    let mut count = 0;
    for feed in feeds {
        if let Feed::Fork(..) = feed {
            count += 1;
        }
    }
    count
}

/// The number of join lines.
pub fn count_joins(gives: &[Give]) -> u64
    ensures { result ≡ length (join_names gives.now) }
{
    let mut count = 0;
    for give in gives {
        if let Give::Join(..) = give {
            count += 1;
        }
    }
    count
}
