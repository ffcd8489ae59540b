//! The commands as types, for the reader of words and for whoever carries them out.

use crate::table::{AlgorithmText, ScheduleText};

/// A command, with the names of its files as they are given. Its kind tells who carries it out.
#[derive(Clone, Copy, Drop)]
pub enum Command<'a> {
    /// One that runs no job, so that no thread is started for it.
    Plain(PlainCommand<'a>),
    /// One that runs jobs.
    Job(JobCommand<'a>),
}

/// A command that runs no job.
#[derive(Clone, Copy, Drop)]
pub enum PlainCommand<'a> {
    /// `check A [H]`: the canonical texts.
    Check {
        algorithm: &'a str,
        architecture: Option<&'a str>,
    },
    /// `sim A S`: what the actuators take.
    Sim {
        algorithm: &'a str,
        sensors: &'a str,
    },
    /// `flat A`: a text of the algorithm.
    Algorithm {
        text: AlgorithmText,
        algorithm: &'a str,
    },
    /// `chart A H` and `code A H`: a text of the algorithm on the architecture.
    Schedule {
        text: ScheduleText,
        algorithm: &'a str,
        architecture: &'a str,
    },
    /// `dates A H G N`: the dates of 1 to 1,000 reactions where the durations are those of another
    /// architecture text.
    Dates {
        algorithm: &'a str,
        architecture: &'a str,
        durations: &'a str,
        reactions: u32,
    },
}

/// A command that runs jobs. Workers are 1 to 80; without them there is one for each sequence.
#[derive(Clone, Copy, Drop)]
pub enum JobCommand<'a> {
    /// `run A H S [--workers W]`: the macro-code, and what the actuators take.
    Run {
        algorithm: &'a str,
        architecture: &'a str,
        sensors: &'a str,
        workers: Option<u32>,
    },
    /// `load N`: a load of 1 to 1,000.
    Load(u32),
    /// `exec A H C S [--workers W]`: what the actuators take when this macro-code is executed.
    Exec {
        algorithm: &'a str,
        architecture: &'a str,
        code: &'a str,
        sensors: &'a str,
        workers: Option<u32>,
    },
}
