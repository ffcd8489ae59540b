//! The refusal of a text of an algorithm, which the reader, the checks and the resolver return.
use syn_base::{Items, Name};
use text_lines::{TextError, TextFault};

/// The causes of a refusal, with what a message prints after the cause: the place, the word, the end of
/// an edge, or the names.
#[derive(Drop)]
pub enum AlgoCause {
    /// The place in the line, from 0, of a byte that may not stand there.
    NotText(usize),
    /// The form of the line is not allowed at this place, or its number of words is wrong.
    BadLine,
    /// A word that is no name, or the whole end of an edge.
    BadName(Items<u8>),
    /// A word that is no number, or a length or count below 1.
    BadNumber(Items<u8>),
    /// The place in the expression, from 0, at which the grammar fails.
    BadExpression(usize),
    /// A name that was given before.
    DuplicateName(Items<u8>),
    /// A definition, port or end of an edge that is not there.
    UnknownName(Items<u8>),
    /// The target of an edge between unequal lengths.
    WrongLength(Items<u8>),
    /// The first input without an edge.
    Unconnected(Items<u8>),
    /// The target of a second edge.
    TwiceConnected(Items<u8>),
    /// A definition that reaches itself through references.
    Recursive(Name),
    /// The references that reach themselves.
    Cycle(Items<Name>),
    NoMain,
    BadCase,
    /// The definition that the line names, which may not stand there.
    Misplaced(Name),
    BadRepeat,
    /// A number of initial values that is no multiple of the depth of their delay.
    BadDelay,
    /// The reference with a mark that may have none.
    BadEvery(Name),
}

/// A refusal of an algorithm's text, at a line of it.
pub type AlgoFault = TextFault<AlgoCause>;

/// Why a text gives no definitions.
pub type AlgoError = TextError<AlgoCause>;
