//! The table of the commands: what each is called, which one it is, and what a reader is told of it. Words are read by
//! it, and the list of the commands and the tables of the documents are made of it.
use command_words::Row;

/// What is written of an algorithm by itself.
#[derive(Clone, Copy, Drop)]
pub enum AlgorithmText {
    /// Its definitions as a graph.
    Graph,
    /// The sensor table that it wants, with one reaction of zeros.
    Table,
}

/// What is written of a schedule, whatever it is.
#[derive(Clone, Copy, Drop)]
pub enum ScheduleText {
    /// Its chart as a picture.
    Chart,
    /// The flat graph in the colours of its operators.
    Flat,
    /// The macro-code of its program.
    Code,
}

/// Which command it is: what stands after its name, and what it makes of that.
#[derive(Clone, Copy, Drop)]
pub enum CommandKind {
    /// Nothing: the list of the commands.
    Help,
    /// An algorithm: a text of it.
    Algorithm(AlgorithmText),
    /// An algorithm, and an architecture if it is there: what is probably not meant.
    Lint,
    /// An algorithm and a sensor table: what the actuators take, as a picture.
    Plot,
    /// An algorithm, an architecture and macro-code: where the macro-code fails.
    Why,
    /// An algorithm, an architecture and the options of a search: a text of a schedule.
    Schedule(ScheduleText),
    /// The same, and a number of reactions if it is there: the numbers of a schedule.
    Report,
    /// The same as for a schedule, and actual durations and a number of reactions if they are there: a trace.
    Trace,
    /// An algorithm, an architecture, actual durations, a number of reactions and the options of a search: the dates.
    Dates,
}

/// The commands of the program. The options stand in the last lines of the list of the commands.
pub const COMMANDS: [Row<'static, CommandKind>; 13] = [
    (
        "chart",
        CommandKind::Schedule(ScheduleText::Chart),
        "ALGORITHM ARCHITECTURE [OPTIONS]",
        "the timing chart, as a picture (SVG)",
    ),
    (
        "trace",
        CommandKind::Trace,
        "ALGORITHM ARCHITECTURE [DURATIONS N] [OPTIONS]",
        "the same, or the dates of N reactions, as a trace for Perfetto or chrome://tracing (JSON)",
    ),
    (
        "flat",
        CommandKind::Schedule(ScheduleText::Flat),
        "ALGORITHM ARCHITECTURE [OPTIONS]",
        "the operations in the colours of their operators (DOT)",
    ),
    (
        "code",
        CommandKind::Schedule(ScheduleText::Code),
        "ALGORITHM ARCHITECTURE [OPTIONS]",
        "the macro-code of its program",
    ),
    (
        "report",
        CommandKind::Report,
        "ALGORITHM ARCHITECTURE [N] [OPTIONS]",
        "its numbers, a bound, and the period over N reactions",
    ),
    (
        "dates",
        CommandKind::Dates,
        "ALGORITHM ARCHITECTURE DURATIONS N [OPTIONS]",
        "when everything happens in N reactions, as a picture (SVG)",
    ),
    (
        "graph",
        CommandKind::Algorithm(AlgorithmText::Graph),
        "ALGORITHM",
        "the definitions, for Graphviz (DOT)",
    ),
    (
        "table",
        CommandKind::Algorithm(AlgorithmText::Table),
        "ALGORITHM",
        "the sensor table that it wants, with a reaction of zeros",
    ),
    (
        "lint",
        CommandKind::Lint,
        "ALGORITHM [ARCHITECTURE]",
        "what is accepted and probably not meant, with lines",
    ),
    (
        "why",
        CommandKind::Why,
        "ALGORITHM ARCHITECTURE CODE",
        "where macro-code from another source fails",
    ),
    (
        "plot",
        CommandKind::Plot,
        "ALGORITHM SENSORS",
        "what the actuators take, as a picture (SVG)",
    ),
    ("help", CommandKind::Help, "", "this list"),
    ("--help", CommandKind::Help, "", "this list too"),
];
