//! The refusals of a line, for all who read one.
ghost use Rattle.std.specs.Prelude.{◌≡◌};
ghost use Rattle.text_lines.specs.Refusals.{IsStop, refusal, stop};
ghost use Rattle.macro_code.specs.declared.fault.CodeCause.TheVariants.{BadLine, UnknownMacro, BadArgument, UnknownName};

use macro_code::{CodeCause, CodeError};
use std::alloc::Global;
use syn_base::Items;
use text_lines::refused_at;

/// The line has none of the forms, or may not stand where it does.
pub fn bad_line(line: u32) -> CodeError
    ensures { result ≡ stop line BadLine }
{
    refused_at(line, CodeCause::BadLine)
}

/// The arguments are wrong.
pub fn bad_argument(line: u32) -> CodeError
    ensures { result ≡ stop line BadArgument }
{
    refused_at(line, CodeCause::BadArgument)
}

/// No macro has this name.
pub fn unknown_macro(alloc: Global, line: u32, name: &[u8]) -> CodeError
    ensures { IsStop result (refusal line (UnknownMacro name.now)) }
{
    match Vec::from_slice(alloc, name) {
        Ok(name) => refused_at(line, CodeCause::UnknownMacro(Items::new(name))),
        Err(_) => CodeError::OutOfMemory,
    }
}

/// What the word names is not declared there.
pub fn unknown_name(alloc: Global, line: u32, word: &[u8]) -> CodeError
    ensures { IsStop result (refusal line (UnknownName word.now)) }
{
    match Vec::from_slice(alloc, word) {
        Ok(word) => refused_at(line, CodeCause::UnknownName(Items::new(word))),
        Err(_) => CodeError::OutOfMemory,
    }
}
