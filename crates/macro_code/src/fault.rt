//! The refusals of a text of macro-code.
use syn_base::Items;
use text_lines::{TextError, TextFault};

/// The causes of a refusal, with what a message prints after the cause.
#[derive(Drop)]
pub enum CodeCause {
    /// A byte is not allowed, the line has none of the forms, or its macro may not stand there. Where the text
    /// ends too early, it stands at the number of lines plus one.
    BadLine,
    /// The name of no macro.
    UnknownMacro(Items<u8>),
    /// The arguments have the wrong form or number, they do not ascend, or the numbers of buffers or of pairs are
    /// not those from 0 on.
    BadArgument,
    /// An operator, medium, operation, buffer or pair that is not declared there, as it is written.
    UnknownName(Items<u8>),
}

/// A refusal of a text of macro-code, at a line of it.
pub type CodeFault = TextFault<CodeCause>;

/// Why a text gives no program.
pub type CodeError = TextError<CodeCause>;
