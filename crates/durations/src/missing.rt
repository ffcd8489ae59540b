//! The first operation whose duration is missing, which `durations_of` refuses.
ghost use Rattle.std.specs.Prelude.{◌≡◌, option_copied};
ghost use Rattle.durations.specs.Table.{is_missing, is_timed, missing};

use crate::given::Given;
use flat_graph::{Kind, Vertex};
use syn_base::Name;

/// Whether operations of this kind last as long as the text says; all others take no time.
pub fn is_timed(kind: &Kind) -> bool
    ensures { result ≡ is_timed kind.now }
{
    match kind {
        Kind::Sensor(_) | Kind::Actuator(_) | Kind::Function(_) => true,
        _ => false,
    }
}

/// Whether the operation needs a duration, and its definition has none on any operator.
fn is_missing(given: &Given, vertex: &Vertex) -> bool
    ensures { result ≡ is_missing given.now.lines vertex.now }
{
    is_timed(&vertex.kind) && !given.has(vertex.def.as_bytes())
}

/// The definition of the least operation of which a duration is missing. It takes no memory.
pub fn missing<'a>(given: &Given, vertices: &'a [Vertex]) -> Option<&'a Name>
    ensures { option_copied result ≡ missing given.now.lines vertices.now }
{
    for vertex in vertices {
        if is_missing(given, vertex) {
            return Some(&vertex.def);
        }
    }
    None
}
