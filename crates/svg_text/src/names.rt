//! Laws: names, and paths of operations, need no escape between quotes.
ghost use Rattle.std.specs.Prelude.{All, IsTrue};
ghost use Rattle.svg_text.specs.Plain.{needs_no_escape};

use flat_graph::Flat;
use syn_base::Name;

/// The name of a definition, a port, a reference, an operator or a medium needs no escape between
/// quotes.
pub fn names_need_no_escape(name: &Name)
    ensures { IsTrue (needs_no_escape name.now) }
{
    // The proof takes from this call what a name is.
    name.as_bytes();
}

/// Nor does the path of an operation.
pub fn paths_need_no_escape(flat: &Flat)
    ensures { All (λ x. IsTrue (needs_no_escape x.name)) flat.now.vertices }
{
    // The proof takes from this call that the flat graph is valid.
    flat.vertices();
}
