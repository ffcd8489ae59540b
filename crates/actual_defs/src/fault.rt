//! The refusal of a text of actual durations: its causes, and the error that `actual_durations`
//! returns.
ghost use Rattle.std.specs.Prelude.{◌≡◌};
ghost use Rattle.actual_defs.specs.Refusal.{text_error};
ghost use Rattle.actual_defs.specs.declared.fault.ActualError.TheVariants.{OutOfMemory as Wants};

use archi_defs::{ArchiError, ArchiFault};
use std::fmt;
use syn_base::{LimitFault, Name, OutOfMemory};
use thiserror::Error;

/// The causes of a refusal, in the order in which they are told.
#[derive(Drop)]
pub enum ActualFault {
    /// The first refusal of the text as that of an architecture.
    Text(ArchiFault),
    /// The operators, the names of the media, their kinds, the connections or the depth are not those of the
    /// architecture, in its order.
    Differs,
    /// A number of this medium, or a duration of this definition, is above the stated one.
    Longer(Name),
    /// This definition has no duration where one is stated.
    Missing(Name),
}

/// Why a text gives no actual durations.
#[derive(Drop, Error)]
pub enum ActualError {
    #[error("refused")]
    Refused(ActualFault),
    #[error("{count} above {bound}", count = .0.count, bound = .0.bound)]
    Limit(LimitFault),
    #[error("out of memory")]
    OutOfMemory,
}

/// The same words as its message, which `Error` asks for.
impl fmt::Debug for ActualError {
    fn fmt<W: fmt::Write>(&self, f: &mut fmt::Formatter<W>) -> fmt::Result {
        fmt::Display::fmt(self, f)
    }
}

impl From<ArchiError> for ActualError {
    ghost from_gives = { λ error refused. refused ≡ text_error error };

    fn from(error: ArchiError) -> ActualError {
        match error {
            ArchiError::Refused(fault) => ActualError::Refused(ActualFault::Text(fault)),
            ArchiError::Limit(fault) => ActualError::Limit(fault),
            ArchiError::OutOfMemory => ActualError::OutOfMemory,
        }
    }
}

impl From<OutOfMemory> for ActualError {
    ghost from_gives = { λ _ error. error ≡ Wants };

    fn from(_want: OutOfMemory) -> ActualError {
        ActualError::OutOfMemory
    }
}
