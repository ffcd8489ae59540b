//! The trees that a pass of flattening leaves as they are, so that it need not be made. `pass` asks for them.
ghost use Rattle.std.specs.Prelude.{◌≡◌, true, false};
ghost use Rattle.algo_tree.specs.View.{kind_view, view};
ghost use Rattle.algo_tree.specs.NoRepeat.{IsNoRepeat};
ghost use Rattle.flat_laws.specs.Unrolled.{unroll as unrolled};
ghost use Rattle.flat_laws.specs.Guarded.{guard as guarded};
ghost use Rattle.hierarchy.specs.Unchanged.{IsUnguarded};
ghost use Rattle.algo_tree.specs.declared.vertex.Vertex.{out-Vertex};

use algo_tree::{Kind, Vertex};

/// Whether nothing is to be unrolled: there is no repetition.
pub fn has_no_repeat(vertex: &Vertex) -> bool
    ensures { result ≡ true → unrolled (view vertex.now) ≡ view vertex.now }
{
    if is_repetition(&vertex.kind) {
        return false;
    }
    for inner in &vertex.inner {
        if !has_no_repeat(inner) {
            return false;
        }
    }
    true
}

/// Whether a vertex of this kind is a repetition.
fn is_repetition(kind: &Kind) -> bool
    ensures { result ≡ false → IsNoRepeat (kind_view kind.now) }
{
    matches!(kind, Kind::Repeat(..))
}

/// Whether nothing is to be put under guards: there is no case and no guard.
pub fn has_no_case(vertex: &Vertex) -> bool
    ensures { result ≡ true → guarded (view vertex.now) ≡ view vertex.now }
{
    if !is_unguarded(vertex) {
        return false;
    }
    for inner in &vertex.inner {
        if !has_no_case(inner) {
            return false;
        }
    }
    true
}

/// A vertex without guards that is a graph, or an operation with nothing inside.
fn is_unguarded(vertex: &Vertex) -> bool
    ensures { result ≡ true → IsUnguarded (out-Vertex vertex.now) }
{
    if !vertex.guards.as_slice().is_empty() {
        return false;
    }
    match &vertex.kind {
        Kind::Graph(_) => true,
        Kind::Switch(_, _) => false,
        _ => vertex.inner.is_empty(),
    }
}
