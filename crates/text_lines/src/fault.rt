//! The refusal of a text: one error for the readers of all texts, generic in the causes of a text.
ghost use Rattle.std.specs.Prelude.{◌≡◌};
ghost use Rattle.text_lines.specs.Refusals.{stop};
ghost use Rattle.text_lines.specs.declared.fault.TextError.TheVariants.{OutOfMemory as Wants};

use std::alloc::{AllocError, AllocFailed};
use std::fmt;
use syn_base::{LimitFault, OutOfMemory};
use thiserror::Error;

/// A refusal for one of the causes of a text, at a line of it, from 1; line 0 is the whole.
#[derive(Drop)]
pub struct TextFault<C> {
    pub line: u32,
    pub cause: C,
}

/// Why a text gives nothing. The lines that `syndex` prints are made elsewhere, from the fields.
#[derive(Drop, Error)]
pub enum TextError<C> {
    #[error("refused at line {line}", line = .0.line)]
    Refused(TextFault<C>),
    #[error("{count} above {bound}", count = .0.count, bound = .0.bound)]
    Limit(LimitFault),
    #[error("out of memory")]
    OutOfMemory,
}

/// The refusal of a text at a line.
pub fn refused_at<C>(line: u32, cause: C) -> TextError<C>
    ensures { result ≡ stop line cause }
{
    TextError::Refused(TextFault { line, cause })
}

/// The same words as its message, which `Error` asks for.
impl<C> fmt::Debug for TextError<C> {
    fn fmt<W: fmt::Write>(&self, f: &mut fmt::Formatter<W>) -> fmt::Result {
        fmt::Display::fmt(self, f)
    }
}

/// Want of memory stays want of memory, so that `?` hands it on.
impl<C> From<OutOfMemory> for TextError<C> {
    ghost from_gives = { λ _ error. error ≡ Wants };

    fn from(_want: OutOfMemory) -> TextError<C> {
        TextError::OutOfMemory
    }
}

/// An allocation that failed is want of memory.
impl<C> From<AllocError> for TextError<C> {
    ghost from_gives = { λ _ error. error ≡ Wants };

    fn from(_failed: AllocError) -> TextError<C> {
        TextError::OutOfMemory
    }
}

/// A value that found no room is want of memory.
impl<C, T: Drop> From<AllocFailed<T>> for TextError<C> {
    ghost from_gives = { λ _ error. error ≡ Wants };

    fn from(_failed: AllocFailed<T>) -> TextError<C> {
        TextError::OutOfMemory
    }
}

/// A quantity above its bound is a refusal of the text.
impl<C> From<LimitFault> for TextError<C> {
    ghost use Rattle.text_lines.specs.declared.fault.TextError.TheVariants.{Limit};

    ghost from_gives = { λ fault error. error ≡ Limit fault };

    fn from(fault: LimitFault) -> TextError<C> {
        TextError::Limit(fault)
    }
}
