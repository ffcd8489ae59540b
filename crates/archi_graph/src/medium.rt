//! Media, hops over them, and sequences: the parts of an architecture, routes and programs, as
//! plain data.
use syn_base::{Items, Name};

/// How many operators may stand at a medium.
#[derive(Clone, Copy, Debug, PartialEq, Eq)]
pub enum MediumKind {
    /// Exactly two.
    PointToPoint,
    /// Two or more.
    Multipoint,
}

impl MediumKind {
    ghost use Rattle.std.specs.Prelude.{◌≡◌};
    ghost use Rattle.archi_graph.specs.Archi.{may_stand, same_kind};

    /// Whether this many operators may stand at a medium of this kind.
    pub fn may_have(self, operators: usize) -> bool
        ensures { result ≡ may_stand self operators }
    {
        match self {
            MediumKind::PointToPoint => operators == 2,
            MediumKind::Multipoint => operators >= 2,
        }
    }

    /// Whether both are the same kind.
    pub fn is_same(self, other: MediumKind) -> bool
        ensures { result ≡ same_kind self other }
    {
        match self {
            MediumKind::PointToPoint => match other {
                MediumKind::PointToPoint => true,
                MediumKind::Multipoint => false,
            },
            MediumKind::Multipoint => match other {
                MediumKind::PointToPoint => false,
                MediumKind::Multipoint => true,
            },
        }
    }
}

/// A medium of sequential access, first in, first out. A transfer of n elements takes
/// `fixed + n * per` ticks, each at most 1,000,000.
#[derive(Drop)]
pub struct Medium {
    pub name: Name,
    pub kind: MediumKind,
    pub fixed: u32,
    pub per: u32,
    /// The operators that stand at it, by number, strictly ascending: two where it is point to
    /// point, two or more where it is multipoint.
    pub stands: Items<u32>,
}

/// A step of a route: over a medium to another operator that stands at it.
#[derive(Clone, Copy, Debug, PartialEq, Eq)]
pub struct Hop {
    pub medium: u32,
    pub to: u32,
}

/// A sequence of an operator: its communicator at a medium, or its computation sequence.
#[derive(Clone, Copy, Debug, PartialEq, Eq)]
pub struct Seq {
    pub operator: u32,
    pub medium: Option<u32>,
}
