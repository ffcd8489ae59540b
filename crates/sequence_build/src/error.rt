//! Why a schedule gets no program.
ghost use Rattle.std.specs.Prelude.{◌≡◌};
ghost use Rattle.sequence_build.specs.declared.error.BuildError.TheVariants.{OutOfMemory as Wants};

use syn_base::{LimitFault, OutOfMemory};
use thiserror::Error;

/// Why a schedule gets no program. The lines that `syndex` prints are made elsewhere, from the fields.
#[derive(Clone, Copy, Debug, PartialEq, Eq, Drop, Error)]
pub enum BuildError {
    /// The words of the program's table, or else the micro-steps of one reaction, are above their bound.
    #[error("{count} above {bound}", count = .0.count, bound = .0.bound)]
    Limit(LimitFault),
    #[error("out of memory")]
    OutOfMemory,
}

impl From<OutOfMemory> for BuildError {
    ghost from_gives = { λ _ e. e ≡ Wants };

    fn from(_want: OutOfMemory) -> BuildError {
        BuildError::OutOfMemory
    }
}
