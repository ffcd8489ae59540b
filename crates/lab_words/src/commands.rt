//! The commands as types, for the reader of words and for whoever carries them out.

use crate::table::AlgorithmText;

/// What a search makes small.
#[derive(Clone, Copy, Drop)]
pub enum Goal {
    /// The length of the schedule.
    Length,
    /// The time that a reaction takes where many of them follow one another, each as early as it may.
    Period,
}

/// How a schedule is searched.
#[derive(Clone, Copy, Drop)]
pub struct Effort {
    /// The number of schedules that are tried, up to 1,000,000. It is 0 where the option is not given, and the
    /// schedule is that of the pressure run then.
    pub tries: u32,
    /// From which number the search draws, 1 to 1,000,000; it is 1 where the option is not given.
    pub seed: u32,
    /// What is made small; it is the length where the option is not given.
    pub goal: Goal,
}

/// What is written of a schedule.
#[derive(Clone, Copy, Drop)]
pub enum Subject {
    /// `chart A H`: its Gantt chart as a picture.
    Chart,
    /// `trace A H`: its chart as trace events.
    Trace,
    /// `flat A H`: the flat graph, coloured by the operators of the schedule.
    Flat,
    /// `code A H`: the macro-code of its program.
    Code,
    /// `report A H [N]`: its numbers, and those of 1 to 1,000 reactions that follow one another; they are 50 where no
    /// number is given.
    Report(u32),
}

/// How dates are written.
#[derive(Clone, Copy, Drop)]
pub enum Form {
    /// `dates A H G N`: as a picture.
    Drawn,
    /// `trace A H G N`: as trace events.
    Traced,
}

/// A command, with the names of its files as they are given.
#[derive(Clone, Copy, Drop)]
pub enum Command<'a> {
    /// `help` and `--help`: the list of the commands.
    Help,
    /// A command that writes something of a schedule.
    Schedule {
        subject: Subject,
        algorithm: &'a str,
        architecture: &'a str,
        effort: Effort,
    },
    /// `graph A` and `table A`: a text of the algorithm.
    Algorithm {
        text: AlgorithmText,
        algorithm: &'a str,
    },
    /// `lint A [H]`: what is accepted and probably not meant in a text, and in that of an architecture beside it.
    Lint {
        algorithm: &'a str,
        architecture: Option<&'a str>,
    },
    /// `why A H C`: where macro-code from another source fails, and what was expected there.
    Why {
        algorithm: &'a str,
        architecture: &'a str,
        code: &'a str,
    },
    /// `plot A S`: what the actuators take, as a picture.
    Plot {
        algorithm: &'a str,
        sensors: &'a str,
    },
    /// `dates A H G N` and `trace A H G N`: the dates of 1 to 1,000 reactions, where the durations are those of another
    /// architecture text.
    Dates {
        form: Form,
        algorithm: &'a str,
        architecture: &'a str,
        durations: &'a str,
        reactions: u32,
        effort: Effort,
    },
}
