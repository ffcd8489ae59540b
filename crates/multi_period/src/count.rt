//! The number of flat operations that marks add to a tree, which the pass asks for before it makes one.
ghost use Rattle.std.specs.Prelude.{◌≡◌, ◌≤◌, ◌<◌, ◌+◌, ◌-◌, ◌*◌, ◌^◌, length};
ghost use Rattle.std.specs.List.{All, sum_by};
ghost use Rattle.algo_tree.specs.View.{vertices_view};
ghost use Rattle.multi_period.specs.Seen.{label_seen};
ghost use Rattle.multi_period.specs.Within.{adds};

use crate::mark::Mark;
use algo_tree::Vertex;

/// How many operations a marked reference becomes beside its own: two for each reaction that its
/// count looks back, two for the delay that keeps an output, and a merge for each output.
fn added_by(vertex: &Vertex, every: u32) -> u128
    ensures is { result ≡ 2 * every + 3 * length (label_seen vertex.now).outs }
    ensures small { result < 2 ^ 65 }
{
    2 * u128::from(every) + 3 * (vertex.outs.as_slice().len() as u128)
}

/// How many operations the marks add to a main graph of these vertices.
pub fn added(vertices: &[Vertex], marks: &[Mark]) -> u128
    requires { All (λ m. m.reference < length vertices.now) marks.now }
    ensures is { result ≡ sum_by (adds (vertices_view vertices.now)) marks.now }
    ensures small { result ≤ 2 ^ 128 - 2 ^ 64 }
{
    let mut sum = 0;
    for mark in marks {
        sum += added_by(&vertices[mark.reference as usize], mark.every);
    }
    sum
}
