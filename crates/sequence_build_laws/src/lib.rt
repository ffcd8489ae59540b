//! What the program of a schedule is, and the law that the program of a valid schedule is well formed.
//!
//! The definition goes from the serial order of one reaction to the sequences that it is divided into, and to the
//! semaphores round the buffers. `built_are_well_formed` is the law, which whoever runs the program cites.
//! `built_are_guarded` says that the program may be made in two stages, as `sequence_build` makes it: first the
//! instructions of each sequence, and then, sequence by sequence, the semaphores round them.
#![tactic(auto)]

ghost use Rattle.sequence_build_laws.specs.Built.{BuiltAreWellFormed};
ghost use Rattle.sequence_build_laws.specs.Guarded.{BuiltAreGuarded};

// What the clauses here speak of: schedules and programs, and what both are made for.
pub use executive_program::{Buffer, Instr, Program, SeqCode, buffer_len, elements_in};
pub use schedule::{
    Archi, ArchiCause, ArchiError, ArchiText, Decision, DurationLine, Durations, Flat, Guard, Hop,
    Kind, Medium, MediumKind, Schedule, Seq, Source, Transfer, Vertex, accepted_are_durations,
    durations_fit, durations_of, is_archi, is_flat, is_valid, len_of,
};

/// The program of a valid schedule is well formed by its serial order, where the buffers between
/// sequences have 1 to 4 places, as many as the architecture says.
pub fn built_are_well_formed()
    ensures { BuiltAreWellFormed }
{}

/// The program of a schedule is its program without semaphores, with the semaphores placed sequence
/// by sequence. It holds of every schedule, valid or not.
pub fn built_are_guarded()
    ensures { BuiltAreGuarded }
{}
