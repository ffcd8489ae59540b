//! The error of a check.
ghost use Rattle.std.specs.Prelude.{◌≡◌};
ghost use Rattle.macro_check.specs.declared.cause.CheckError.TheVariants.{OutOfMemory as Wants};

use check_cause::CheckCause;
use syn_base::OutOfMemory;

/// Why a check has no order.
#[derive(Drop)]
pub enum CheckError {
    /// The program is not well formed.
    Refused(CheckCause),
    /// There was not enough memory.
    OutOfMemory,
}

impl From<OutOfMemory> for CheckError {
    ghost from_gives = { λ _ e. e ≡ Wants };

    fn from(_error: OutOfMemory) -> CheckError {
        CheckError::OutOfMemory
    }
}
