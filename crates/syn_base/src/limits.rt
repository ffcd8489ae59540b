//! The bounds of this profile, and how far a quantity is above one: for all that refuse a text or a program.
ghost use Rattle.std.specs.Prelude.{◌≡◌};

/// A quantity that is bounded.
#[derive(Clone, Copy, Debug, PartialEq, Eq)]
pub enum LimitKind {
    /// Bytes of one input file: 16,777,216.
    File,
    /// Tokens of one expression: 512.
    Tokens,
    /// Elements of a port, constant or delay: 64.
    PortLength,
    /// `in` lines, and likewise `out` lines, of one definition, and frontier lines of a
    /// repetition: 64.
    Ports,
    /// Copies of a repetition: 64.
    Copies,
    /// Cases of a conditioned definition: 64.
    Cases,
    /// References of one graph: 64.
    References,
    /// Nesting of definitions: 8.
    Depth,
    /// Reactions that a delay looks back: 16.
    Delay,
    /// Flat operations: 2,048.
    Operations,
    /// Operators: 16.
    Operators,
    /// Media: 16.
    Media,
    /// Connections of operators to media: 64.
    Connections,
    /// Semaphores, turns, buffer and wire elements: 65,536.
    Words,
    /// Micro-steps of one reaction of all sequences: 262,144.
    MicroSteps,
    /// Data rows of the sensor table: 10,000.
    Reactions,
    /// Reactions times actuator elements: 2,000,000.
    Output,
    /// Micro-steps of the whole run: 20,000,000.
    Total,
}

impl LimitKind {
    ghost use Rattle.syn_base.specs.Limits.{bound_of, word_of};

    /// The word by which messages name the quantity.
    pub fn word(self) -> &'static str
        ensures { result.now ≡ word_of self }
    {
        match self {
            LimitKind::File => "file",
            LimitKind::Tokens => "tokens",
            LimitKind::PortLength => "length",
            LimitKind::Ports => "ports",
            LimitKind::Copies => "copies",
            LimitKind::Cases => "cases",
            LimitKind::References => "references",
            LimitKind::Depth => "depth",
            LimitKind::Delay => "delay",
            LimitKind::Operations => "operations",
            LimitKind::Operators => "operators",
            LimitKind::Media => "media",
            LimitKind::Connections => "connections",
            LimitKind::Words => "words",
            LimitKind::MicroSteps => "steps",
            LimitKind::Reactions => "reactions",
            LimitKind::Output => "output",
            LimitKind::Total => "total",
        }
    }

    /// The most that the quantity may be.
    pub const fn bound(self) -> u128
        ensures { result ≡ bound_of self }
    {
        match self {
            LimitKind::File => 16_777_216,
            LimitKind::Tokens => 512,
            LimitKind::PortLength
            | LimitKind::Ports
            | LimitKind::Copies
            | LimitKind::Cases
            | LimitKind::References
            | LimitKind::Connections => 64,
            LimitKind::Depth => 8,
            LimitKind::Operations => 2_048,
            LimitKind::Delay | LimitKind::Operators | LimitKind::Media => 16,
            LimitKind::Words => 65_536,
            LimitKind::MicroSteps => 262_144,
            LimitKind::Reactions => 10_000,
            LimitKind::Output => 2_000_000,
            LimitKind::Total => 20_000_000,
        }
    }
}

/// A quantity is above its bound.
#[derive(Clone, Copy, Debug, PartialEq, Eq)]
pub struct LimitFault {
    pub which: LimitKind,
    pub count: u128,
    pub bound: u128,
}
