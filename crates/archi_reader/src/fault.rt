//! The refusals of a line, which `reader` and `whole` return.
ghost use Rattle.std.specs.Prelude.{◌≡◌};
ghost use Rattle.text_lines.specs.Refusals.{IsStop, refusal, stop};
ghost use Rattle.archi_defs.specs.declared.fault.ArchiCause.TheVariants.{NotText, BadLine, BadName, BadNumber, UnknownName, DuplicateName};

use archi_defs::{ArchiCause, ArchiError};
use std::alloc::Global;
use syn_base::Items;
use text_lines::refused_at;

/// The form of the line is not allowed at its place.
pub fn bad_line(line: u32) -> ArchiError
    ensures { result ≡ stop line BadLine }
{
    refused_at(line, ArchiCause::BadLine)
}

/// A byte at this place of the line may not stand there.
pub fn not_text(line: u32, place: usize) -> ArchiError
    ensures { result ≡ stop line (NotText place) }
{
    refused_at(line, ArchiCause::NotText(place))
}

/// The word is no name.
pub fn bad_name(alloc: Global, line: u32, word: &[u8]) -> ArchiError
    ensures { IsStop result (refusal line (BadName word.now)) }
{
    match Vec::from_slice(alloc, word) {
        Ok(word) => refused_at(line, ArchiCause::BadName(Items::new(word))),
        Err(_) => ArchiError::OutOfMemory,
    }
}

/// The word is no number, or one outside its bounds.
pub fn bad_number(alloc: Global, line: u32, word: &[u8]) -> ArchiError
    ensures { IsStop result (refusal line (BadNumber word.now)) }
{
    match Vec::from_slice(alloc, word) {
        Ok(word) => refused_at(line, ArchiCause::BadNumber(Items::new(word))),
        Err(_) => ArchiError::OutOfMemory,
    }
}

/// No line before has defined the name.
pub fn unknown(alloc: Global, line: u32, word: &[u8]) -> ArchiError
    ensures { IsStop result (refusal line (UnknownName word.now)) }
{
    match Vec::from_slice(alloc, word) {
        Ok(word) => refused_at(line, ArchiCause::UnknownName(Items::new(word))),
        Err(_) => ArchiError::OutOfMemory,
    }
}

/// The name was given before.
pub fn duplicate(alloc: Global, line: u32, word: &[u8]) -> ArchiError
    ensures { IsStop result (refusal line (DuplicateName word.now)) }
{
    match Vec::from_slice(alloc, word) {
        Ok(word) => refused_at(line, ArchiCause::DuplicateName(Items::new(word))),
        Err(_) => ArchiError::OutOfMemory,
    }
}
