//! Describes what a command does to the outside world as a plan: what it reads, when it is
//! refused, and what it makes. Defines what each ending of a plan that was carried out means.
//!
//! A plan says which file a command reads next, under which name, and in the end what is to be made or
//! its first refusal. What is to be made is a list of stages: jobs that are run to their ends, and then
//! a text that is written by one call. A command that only writes has one stage and no job. What the
//! endings mean is proved here once for all plans, so that a command need only show that it carries its
//! own plan out. The top call (`syndex_program`) and the loop over windows stand on it.
#![tactic(auto)]

ghost use Rattle.command_plan.specs.Answers.{PlansAnswer, SomeAreAPrefix};

// What the clauses here speak of: files and outputs.
pub use outside::{
    Failed, File, Gate, ReadAnswer, Shelf, Sink, read_whole, write_pieces, write_whole,
};

/// The law of plans: where a plan reads each file under the name that the words give it and was
/// carried out, its ending means what it says. Done means that the defined text was appended and all
/// jobs were run, each other ending comes only for its cause and in the plan's order, only a prefix is
/// appended after a fault of the output, and where all is accepted and nothing fails the command is
/// done, unless memory ran out.
pub fn plans_answer<R, A, J, D>()
    ensures { PlansAnswer R A J D }
{}

/// What stands on the output where memory ran out between two stages is a prefix of the whole text.
pub fn some_are_a_prefix<J>()
    ensures { SomeAreAPrefix J }
{}
