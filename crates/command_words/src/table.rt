//! The table of the commands: what each is called, which one it is, and what a reader is told of it. Words are read
//! by it, and the help and the tables of the documents are made of it.
ghost use Rattle.std.specs.Prelude.{◌≡◌, map};
ghost use Rattle.command_words.specs.Table.{kind_named};

/// What is written of an algorithm by itself.
#[derive(Clone, Copy, Drop)]
pub enum AlgorithmText {
    /// The flat listing.
    Listing,
}

/// What is written of an algorithm on an architecture.
#[derive(Clone, Copy, Drop)]
pub enum ScheduleText {
    /// The timing chart.
    Chart,
    /// The macro-code.
    Code,
}

/// Which command it is: what stands after its name, and what it makes of that.
#[derive(Clone, Copy, Drop)]
pub enum CommandKind {
    /// An algorithm, and an architecture if it is there: their canonical texts.
    Check,
    /// An algorithm and a sensor table: what the actuators take.
    Sim,
    /// An algorithm: a text of it.
    Algorithm(AlgorithmText),
    /// An algorithm and an architecture: a text of them.
    Schedule(ScheduleText),
    /// An algorithm, an architecture and a sensor table, and workers if they are given: a run.
    Run,
    /// A number of layers: a run of generated texts.
    Load,
    /// An algorithm, an architecture, macro-code and a sensor table, and workers if they are given: a run of the
    /// macro-code.
    Exec,
    /// An algorithm, an architecture, durations and a number of reactions: their dates.
    Dates,
}

/// A row of a table of commands: the name of a command, which one it is, the words after its name as a reader is told of
/// them, and what it writes.
pub type Row<'a, K> = (&'a str, K, &'a str, &'a str);

/// The commands of the program.
pub const COMMANDS: [Row<'static, CommandKind>; 9] = [
    (
        "check",
        CommandKind::Check,
        "ALGORITHM [ARCHITECTURE]",
        "the canonical texts, or the first thing that is wrong with them",
    ),
    (
        "flat",
        CommandKind::Algorithm(AlgorithmText::Listing),
        "ALGORITHM",
        "the operations of the algorithm, without repetitions, cases and graphs",
    ),
    (
        "chart",
        CommandKind::Schedule(ScheduleText::Chart),
        "ALGORITHM ARCHITECTURE",
        "when and where each operation and each transfer happens",
    ),
    (
        "code",
        CommandKind::Schedule(ScheduleText::Code),
        "ALGORITHM ARCHITECTURE",
        "the executive of each processor, as macro-code",
    ),
    (
        "dates",
        CommandKind::Dates,
        "ALGORITHM ARCHITECTURE DURATIONS N",
        "the dates of N reactions under the actual durations",
    ),
    (
        "sim",
        CommandKind::Sim,
        "ALGORITHM SENSORS",
        "what each actuator takes, by the synchronous meaning of the algorithm",
    ),
    (
        "run",
        CommandKind::Run,
        "ALGORITHM ARCHITECTURE SENSORS [--workers W]",
        "the macro-code, and what the actuators took while it was run on threads",
    ),
    (
        "exec",
        CommandKind::Exec,
        "ALGORITHM ARCHITECTURE CODE SENSORS [--workers W]",
        "what the actuators take of macro-code from any source, which is checked first",
    ),
    (
        "load",
        CommandKind::Load,
        "N",
        "the counts of a run of a generated algorithm of size N",
    ),
];

/// Which command of these rows has this name.
pub fn kind_named<K: Copy>(rows: &[Row<K>], name: &str) -> Option<K>
    ensures { result ≡ kind_named (map (λ r. (r.0.now, r.1)) rows.now) name.now }
{
    for row in rows {
        if row.0 == name {
            return Some(row.1);
        }
    }
    None
}
