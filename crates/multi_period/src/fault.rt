//! Why the pass makes no tree.
ghost use Rattle.std.specs.Prelude.{◌≡◌};
ghost use Rattle.multi_period.specs.declared.fault.PeriodError.TheVariants.{OutOfMemory as Wants};

use syn_base::{LimitFault, OutOfMemory};
use thiserror::Error;

/// Why no tree is made. The lines that `syndex` prints are made elsewhere, from the fields.
#[derive(Clone, Copy, Debug, PartialEq, Eq, Drop, Error)]
pub enum PeriodError {
    /// The made tree would stand for this many flat operations.
    #[error("{count} above {bound}", count = .0.count, bound = .0.bound)]
    Limit(LimitFault),
    #[error("out of memory")]
    OutOfMemory,
}

impl From<OutOfMemory> for PeriodError {
    ghost from_gives = { λ _ e. e ≡ Wants };

    fn from(_want: OutOfMemory) -> PeriodError {
        PeriodError::OutOfMemory
    }
}
