//! The finding: what every other file makes, and `print` writes.
use syn_base::Name;

/// Why a duration changes nothing.
#[derive(Clone, Copy, Drop)]
pub enum Why {
    /// No definition has the name.
    Unknown,
    /// Nothing of the definition takes time: it is a constant or a delay, or it is taken apart.
    Timeless,
    /// No line names the definition, so that it makes no operation.
    Unused,
}

/// What is accepted and probably not meant, at a line of its text, from 1. The first four stand in an
/// algorithm's text, the others in an architecture's.
#[derive(Drop)]
pub enum Finding {
    /// No line names this definition, and it is not `main`.
    UnusedDefinition {
        line: usize,
        def: Name,
    },
    /// An expression of the function that begins at the line takes an element by a number that its port of
    /// this length has not, and so takes 0.
    OutsideElement {
        line: usize,
        def: Name,
        port: Name,
        element: i64,
        len: u32,
    },
    /// A constant gives the value by which the switch of this reference selects, and it is not that of this case.
    NeverTaken {
        line: usize,
        reference: Name,
        value: i64,
    },
    /// No edge leads from this reference to a delay.
    UnreadDelay {
        line: usize,
        reference: Name,
    },
    /// The duration changes nothing.
    IdleDuration {
        line: usize,
        def: Name,
        operator: Name,
        why: Why,
    },
    /// No operation that takes time may stand on this operator.
    IdleOperator {
        line: usize,
        operator: Name,
    },
}
