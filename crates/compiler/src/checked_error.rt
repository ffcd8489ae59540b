//! The error of a text that gives no program to execute.
ghost use Rattle.std.specs.Prelude.{◌≡◌};
ghost use Rattle.compiler.specs.Checked.{lacks};
ghost use Rattle.compiler.specs.declared.checked_error.CheckedError.TheVariants.{Text as InText};

use macro_check::{CheckCause, CheckError};
use macro_code::CodeError;

/// The first refusal of a text, or of the check of its program.
#[derive(Drop)]
pub enum CheckedError {
    /// The text is refused, is above a limit, or there was not enough memory.
    Text(CodeError),
    /// The program of the text is not well formed.
    Lacks(CheckCause),
}

impl From<CodeError> for CheckedError {
    ghost from_gives = { λ x e. e ≡ InText x };

    fn from(error: CodeError) -> CheckedError {
        CheckedError::Text(error)
    }
}

impl From<CheckError> for CheckedError {
    ghost from_gives = { λ x e. e ≡ lacks x };

    fn from(error: CheckError) -> CheckedError {
        match error {
            CheckError::Refused(cause) => CheckedError::Lacks(cause),
            CheckError::OutOfMemory => CheckedError::Text(CodeError::OutOfMemory),
        }
    }
}
