//! Marks on references, which the pass is given.

/// A reference of the main graph runs in the reactions that `every` divides; in the others its
/// outputs keep their last values, and the delays inside it stand still.
#[derive(Clone, Copy, Debug, PartialEq, Eq)]
pub struct Mark {
    /// The place of the reference in the main graph, from 0.
    pub reference: u32,
    /// The number that divides the reactions in which it runs, 1 to 16.
    pub every: u32,
}
