//! The steps of straight code, and where vectors stand in its store.
use syn_base::Op;

/// A part of the store: where it begins, and how many words it has.
#[derive(Clone, Copy, Debug, PartialEq, Eq)]
pub struct Span {
    pub start: usize,
    pub len: usize,
}

/// What a step gives for element `j` of its words. Places are those of words in the store.
#[derive(Clone, Copy, Debug, PartialEq, Eq)]
pub enum Action {
    /// A number.
    Fill(i64),
    /// The number `j`.
    Count,
    /// The word `j` places after this one.
    Copy(usize),
    /// The word `j` places before this one.
    Back(usize),
    /// The word at this place, for each `j`.
    Spread(usize),
    /// An element of a vector, 0 outside it: where the vector begins, how long it is, and where the
    /// numbers of the elements begin, of which number `j` counts.
    Gather(usize, usize, usize),
    /// The sum of a vector: where it begins, and how long it is.
    Total(usize, usize),
    /// An operator on the words `j` places after these two.
    Both(Op, usize, usize),
    /// An operator on the word `j` places after this one, and a number.
    Right(Op, usize, i64),
    /// An operator on a number, and the word `j` places after this one.
    Left(Op, i64, usize),
    /// The word `j` places after the second place if the one after the first is not 0, else the one
    /// after the third.
    Choose(usize, usize, usize),
}

/// An action, and how many words it gives, which stand after those of the steps before.
#[derive(Clone, Copy, Debug, PartialEq, Eq)]
pub struct Step {
    pub len: usize,
    pub action: Action,
}
