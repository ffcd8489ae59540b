//! The status of a command that has ended, for the top call and for whoever asks how it ended.
ghost use Rattle.std.specs.Prelude.{◌≡◌};
ghost use Rattle.command_status.specs.Status.{
  number_of,
  status_of_algorithm,
  status_of_architecture,
  status_of_build,
  status_of_code,
  status_of_durations,
  status_of_sensors,
};
ghost use Rattle.command_status.specs.declared.status.Status.TheVariants.{OutOfMemory as Wants};

use actual_defs::{ActualError, ActualFault};
use algo_text::{AlgoError, AlgoFault};
use archi_defs::{ArchiError, ArchiFault};
use check_cause::CheckCause;
use command_plan::File;
use macro_code::{CodeError, CodeFault};
use sensor_table::{SensorError, SensorFault};
use sequence_build::BuildError;
use syn_base::{LimitFault, OutOfMemory};

/// How a command ended.
#[derive(Drop)]
pub enum Status {
    /// The whole defined text was written.
    Done,
    /// The words are no command.
    Usage,
    /// A call on the shelf failed for this file, under the name that the words give it.
    ReadFault(File),
    /// A call on the output failed. What stands there is a prefix of the defined text.
    WriteFault,
    /// The first refusal of the algorithm.
    AlgoRefused(AlgoFault),
    /// The first refusal of the architecture or of its durations.
    ArchiRefused(ArchiFault),
    /// The first refusal of the sensor table.
    SensorsRefused(SensorFault),
    /// The first refusal of a text of macro-code.
    CodeRefused(CodeFault),
    /// The first cause for which the program of such a text fails its check.
    CheckRefused(CheckCause),
    /// The first refusal of the durations that really occur.
    ActualRefused(ActualFault),
    /// A quantity is above its bound.
    Limit(LimitFault),
    /// There was not enough memory.
    OutOfMemory,
}

impl Status {
    /// The number with which the program ends.
    pub fn number(&self) -> u8
        ensures { result ≡ number_of self.now }
    {
        match self {
            Status::Done => 0,
            Status::Usage => 2,
            Status::ReadFault(_) => 3,
            Status::WriteFault => 4,
            Status::AlgoRefused(_) => 5,
            Status::ArchiRefused(_) => 6,
            Status::SensorsRefused(_) => 7,
            Status::Limit(_) => 8,
            Status::OutOfMemory => 9,
            Status::CodeRefused(_) => 11,
            Status::CheckRefused(_) => 12,
            Status::ActualRefused(_) => 13,
        }
    }
}

impl From<AlgoError> for Status {
    ghost from_gives = { λ error status. status ≡ status_of_algorithm error };

    fn from(error: AlgoError) -> Status {
        match error {
            AlgoError::Refused(fault) => Status::AlgoRefused(fault),
            AlgoError::Limit(fault) => Status::Limit(fault),
            AlgoError::OutOfMemory => Status::OutOfMemory,
        }
    }
}

impl From<ArchiError> for Status {
    ghost from_gives = { λ error status. status ≡ status_of_architecture error };

    fn from(error: ArchiError) -> Status {
        match error {
            ArchiError::Refused(fault) => Status::ArchiRefused(fault),
            ArchiError::Limit(fault) => Status::Limit(fault),
            ArchiError::OutOfMemory => Status::OutOfMemory,
        }
    }
}

impl From<SensorError> for Status {
    ghost from_gives = { λ error status. status ≡ status_of_sensors error };

    fn from(error: SensorError) -> Status {
        match error {
            SensorError::Refused(fault) => Status::SensorsRefused(fault),
            SensorError::Limit(fault) => Status::Limit(fault),
            SensorError::OutOfMemory => Status::OutOfMemory,
        }
    }
}

impl From<CodeError> for Status {
    ghost from_gives = { λ error status. status ≡ status_of_code error };

    fn from(error: CodeError) -> Status {
        match error {
            CodeError::Refused(fault) => Status::CodeRefused(fault),
            CodeError::Limit(fault) => Status::Limit(fault),
            CodeError::OutOfMemory => Status::OutOfMemory,
        }
    }
}

impl From<ActualError> for Status {
    ghost from_gives = { λ error status. status ≡ status_of_durations error };

    fn from(error: ActualError) -> Status {
        match error {
            ActualError::Refused(fault) => Status::ActualRefused(fault),
            ActualError::Limit(fault) => Status::Limit(fault),
            ActualError::OutOfMemory => Status::OutOfMemory,
        }
    }
}

impl From<BuildError> for Status {
    ghost from_gives = { λ error status. status ≡ status_of_build error };

    fn from(error: BuildError) -> Status {
        match error {
            BuildError::Limit(fault) => Status::Limit(fault),
            BuildError::OutOfMemory => Status::OutOfMemory,
        }
    }
}

impl From<OutOfMemory> for Status {
    ghost from_gives = { λ _ status. status ≡ Wants };

    fn from(_want: OutOfMemory) -> Status {
        Status::OutOfMemory
    }
}
