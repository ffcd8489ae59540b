//! The laws of drawings of flat graphs.
ghost use Rattle.graph_drawing.specs.Drawn.{DrawsExactly, DrawsOnce};

/// A drawing shows exactly what is in its flat graph: each operation, each input with its source,
/// each guard with its source, and each delay, and nothing else.
pub fn drawings_show_exactly()
    ensures { DrawsExactly }
{}

/// A drawing shows each of them once.
pub fn drawings_show_once()
    ensures { DrawsOnce }
{}
