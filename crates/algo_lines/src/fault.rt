//! The refusals of a line, which every reader of lines makes.
ghost use Rattle.std.specs.Prelude.{◌≡◌};
ghost use Rattle.text_lines.specs.Refusals.{IsStop, refusal, stop};
ghost use Rattle.algo_text.specs.declared.fault.AlgoCause.TheVariants.{NotText, BadLine, BadName, BadNumber, BadExpression, DuplicateName, UnknownName, BadDelay};

use algo_text::{AlgoCause, AlgoError};
use std::alloc::Global;
use syn_base::Items;
use text_lines::refused_at;

/// The refusal of a line whose form is not allowed where it stands.
pub fn bad_line(line: u32) -> AlgoError
    ensures { result ≡ stop line BadLine }
{
    refused_at(line, AlgoCause::BadLine)
}

/// The refusal of a delay whose values are not as many groups of equal length as it is deep.
pub fn bad_delay(line: u32) -> AlgoError
    ensures { result ≡ stop line BadDelay }
{
    refused_at(line, AlgoCause::BadDelay)
}

/// The refusal of a line with a byte at this place that may not stand in a text.
pub fn not_text(line: u32, place: usize) -> AlgoError
    ensures { result ≡ stop line (NotText place) }
{
    refused_at(line, AlgoCause::NotText(place))
}

/// The refusal of an expression at the place where the grammar fails.
pub fn bad_expression(line: u32, place: usize) -> AlgoError
    ensures { result ≡ stop line (BadExpression place) }
{
    refused_at(line, AlgoCause::BadExpression(place))
}

/// The refusal of a word that is no name, or want of memory for the word.
pub fn bad_name(alloc: Global, line: u32, word: &[u8]) -> AlgoError
    ensures { IsStop result (refusal line (BadName word.now)) }
{
    match Vec::from_slice(alloc, word) {
        Ok(word) => refused_at(line, AlgoCause::BadName(Items::new(word))),
        Err(_) => AlgoError::OutOfMemory,
    }
}

/// The refusal of a word that is no number of the kind that stands there, or want of memory for the word.
pub fn bad_number(alloc: Global, line: u32, word: &[u8]) -> AlgoError
    ensures { IsStop result (refusal line (BadNumber word.now)) }
{
    match Vec::from_slice(alloc, word) {
        Ok(word) => refused_at(line, AlgoCause::BadNumber(Items::new(word))),
        Err(_) => AlgoError::OutOfMemory,
    }
}

/// The refusal of a name that was given before, or want of memory for the name.
pub fn duplicate(alloc: Global, line: u32, word: &[u8]) -> AlgoError
    ensures { IsStop result (refusal line (DuplicateName word.now)) }
{
    match Vec::from_slice(alloc, word) {
        Ok(word) => refused_at(line, AlgoCause::DuplicateName(Items::new(word))),
        Err(_) => AlgoError::OutOfMemory,
    }
}

/// The refusal of a name that nothing has, or want of memory for the name.
pub fn unknown(alloc: Global, line: u32, word: &[u8]) -> AlgoError
    ensures { IsStop result (refusal line (UnknownName word.now)) }
{
    match Vec::from_slice(alloc, word) {
        Ok(word) => refused_at(line, AlgoCause::UnknownName(Items::new(word))),
        Err(_) => AlgoError::OutOfMemory,
    }
}
