//! The parts of paths: `Part`, by which trees and flat graphs tell units apart.
use syn_base::Items;

/// What a unit adds to the path of the unit around it.
#[derive(Drop)]
pub enum Part {
    /// The name of a reference.
    Named(Items<u8>),
    /// The number of a case or of a copy.
    Numbered(u32),
    /// The name of a port, for a vertex that flattening makes.
    Port(Items<u8>),
}

impl Part {
    ghost use Rattle.std.specs.Prelude.{◌≡◌};
    ghost use Rattle.level_meaning.specs.Parts.{name_of};

    /// The name of a reference or port; a case or copy has none.
    pub fn name(&self) -> &[u8]
        ensures { result.now ≡ name_of self.now }
    {
        match self {
            Part::Named(name) | Part::Port(name) => name.as_slice(),
            Part::Numbered(_) => &[],
        }
    }
}
