//! The kinds of files, and why a call on the outside gave nothing: for shelves, sinks and whoever reads them.
use syn_base::LimitFault;

/// As which file of a command a name is read.
#[derive(Clone, Copy, Debug, PartialEq, Eq)]
pub enum File {
    /// The algorithm text.
    Algorithm,
    /// The architecture text, with its durations.
    Architecture,
    /// The sensor table.
    Sensors,
    /// A macro-code text.
    Code,
    /// A table of actual durations.
    Durations,
}

/// A call on the outside failed.
#[derive(Clone, Copy, Debug, PartialEq, Eq)]
pub struct Failed;

/// Why a file was not read.
#[derive(Clone, Copy, Debug, PartialEq, Eq)]
pub enum ReadAnswer {
    /// A call on the shelf failed.
    Fault,
    /// The file has more than 16,777,216 bytes.
    TooLong(LimitFault),
    /// There was not enough memory.
    OutOfMemory,
}
