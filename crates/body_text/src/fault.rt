//! Why a text is no expression, for whoever reads one.
use syn_base::LimitFault;

/// Why a text was read as no expression, in the order in which it is checked.
#[derive(Clone, Copy, Debug, PartialEq, Eq)]
pub enum BodyFault {
    /// More than 512 tokens; the count is of all tokens of the text.
    Limit(LimitFault),
    /// The place of the first token with which no expression's tokens can begin, or the text's length
    /// where the tokens end too early.
    BadExpression(usize),
    /// The place of the first port name that is no input.
    UnknownPort(usize),
    OutOfMemory,
}
