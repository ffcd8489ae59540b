//! The refusal of an architecture's text: its causes, and the error that `archi_reader` returns.
use syn_base::{Items, Name};
use text_lines::{TextError, TextFault};

/// The causes of a refusal, with what a message prints after the cause: the place, the word or the names.
#[derive(Drop)]
pub enum ArchiCause {
    /// The place in the line, from 0, of a byte that may not stand there.
    NotText(usize),
    /// The form of the line is not allowed at this place, or its number of words is wrong.
    BadLine,
    BadName(Items<u8>),
    /// A word that is no number, or a number outside its bounds.
    BadNumber(Items<u8>),
    /// An operator or medium that no line before has defined.
    UnknownName(Items<u8>),
    /// A name of an operator or medium, the operator of a connection, or the definition of a duration, that
    /// was given before.
    DuplicateName(Items<u8>),
    /// The first medium at which too few operators stand, or at a point to point one too many.
    BadMedium(Name),
    NoOperator,
    /// Operator 0, and the least operator to which no route leads from it.
    Disconnected(Name, Name),
    /// The definition of the least flat operation without a duration.
    NoDuration(Name),
}

/// A refusal of an architecture's text, at a line of it.
pub type ArchiFault = TextFault<ArchiCause>;

/// Why a text gives no architecture.
pub type ArchiError = TextError<ArchiCause>;
