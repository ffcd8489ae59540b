//! Why a sensor table is refused, for whoever tells it.
ghost use Rattle.std.specs.Prelude.{◌≡◌};
ghost use Rattle.sensor_table.specs.SensorTable.{refused};
ghost use Rattle.sensor_table.specs.declared.fault.SensorError.TheVariants.{OutOfMemory as Wants};

use std::alloc::AllocFailed;
use std::fmt;
use syn_base::{LimitFault, OutOfMemory};
use thiserror::Error;

/// The causes of a refusal.
#[derive(Clone, Copy, Drop)]
pub enum SensorCause {
    /// The first record is not the header of the sensors, or there is no record.
    BadHeader,
    /// The number of fields is not that of the header.
    BadCount { found: u64, wanted: u64 },
    /// The first field is not the number of the reaction.
    BadIndex,
    /// The column, from 0, of the first field that is no number.
    BadNumber(usize),
}

/// A refusal, at a record of the table: the header is record 0, and the reactions follow from 1.
#[derive(Clone, Copy, Drop)]
pub struct SensorFault {
    pub row: u64,
    pub cause: SensorCause,
}

/// Why a table gives no rows. The lines that `syndex` prints are made elsewhere, from the fields.
#[derive(Clone, Copy, Drop, Error)]
pub enum SensorError {
    #[error("refused at row {row}", row = .0.row)]
    Refused(SensorFault),
    #[error("{count} above {bound}", count = .0.count, bound = .0.bound)]
    Limit(LimitFault),
    #[error("out of memory")]
    OutOfMemory,
}

/// The same words as its message, which `Error` asks for.
impl fmt::Debug for SensorError {
    fn fmt<W: fmt::Write>(&self, f: &mut fmt::Formatter<W>) -> fmt::Result {
        fmt::Display::fmt(self, f)
    }
}

impl From<OutOfMemory> for SensorError {
    ghost from_gives = { λ _ e. e ≡ Wants };

    fn from(_want: OutOfMemory) -> SensorError {
        SensorError::OutOfMemory
    }
}

impl<T: Drop> From<AllocFailed<T>> for SensorError {
    ghost from_gives = { λ _ e. e ≡ Wants };

    fn from(_failed: AllocFailed<T>) -> SensorError {
        SensorError::OutOfMemory
    }
}

/// A refusal at a record of the table.
pub(crate) fn refusal(row: u64, cause: SensorCause) -> SensorError
    ensures { result ≡ refused row cause }
{
    SensorError::Refused(SensorFault { row, cause })
}
