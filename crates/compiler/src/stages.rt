//! The compiler on one page, from the texts of an algorithm and an architecture to the program of an executive. Each
//! stage takes what the stages before it made, and each command takes as many stages as it needs:
//!
//! 1. `parse_algorithm`: a text → its definitions → the tree that they mean. Every command begins with it.
//! 2. `flatten_tree`: the tree → its flat graph. `flat` ends here.
//! 3. `parse_architecture`: a text → an architecture and durations of definitions. `exec` ends here, and takes its
//!    program from a text.
//! 4. `find_durations`: flat graph, architecture → how long each operation lasts on each operator. `check` ends here
//!    where an architecture is named.
//! 5. `find_schedule`: durations → least routes → the schedule of the pressure run. `chart` ends here.
//! 6. `build_program`: the schedule → its program, for `code`, `dates`, `run` and `load`.
//!
//! `compile_to_durations` is stages 3, 2 and 4 one after another, and `compile_to_program` is stages 5 and 6.
ghost use Rattle.std.specs.Prelude.{◌≡◌, ◌≤◌, IfOk, IsTrue, length};
ghost use Rattle.archi_reader.specs.Given.{Gives};
ghost use Rattle.sequence_build_laws.specs.Text.{description_of};
ghost use Rattle.sequence_build_laws.specs.DurationLines.{AreDurations};
ghost use Rattle.sequence_build_laws.specs.Table.{entry_in};
ghost use Rattle.sequence_build_laws.specs.ScheduleValid.{is_valid};
ghost use Rattle.compiler.specs.Builds.{BuildsProgram};
ghost use Rattle.compiler.specs.Compiles.{FindsDurations, HasDurations, MakesAlgorithm, MakesProblem};
ghost use Rattle.accepted_laws.specs.FlatOf.{flat_of};
ghost use Rattle.outside.specs.Shelf.{file_bound};
ghost use Rattle.compiler.specs.Schedules.{schedule_of};

use accepted_laws::elaborate;
use algo_laws::{AlgoError, Defs, Tree, accepted_are_well_read, accepted_have_periods};
use algo_print::canonical_text_reads_back;
use algo_reader::read_algo;
use archi_reader::read_archi;
use hierarchy::flatten;
use pressure_heuristic::{adequation, routes_are_least};
use sequence_build::{BuildError, build};
use sequence_build_laws::{
    ArchiError, ArchiText, Durations, Flat, Program, Schedule, accepted_are_durations,
    durations_fit, durations_of,
};
use std::alloc::Global;
use syn_base::OutOfMemory;

/// What a text defines, and the tree that its definitions mean.
pub struct Algorithm {
    pub defs: Defs,
    pub tree: Tree,
}

/// Written by hand, so that a proof walks through all that is dropped here alone, and not on each way out of a
/// function that owns an algorithm.
impl Drop for Algorithm {
    fn drop(self) {
        let Algorithm { defs: _, tree: _ } = self;
    }
}

impl Algorithm {
    /// Its tree alone.
    pub fn into_tree(self) -> Tree
        ensures { result ≡ self.tree }
    {
        let Algorithm { defs: _, tree } = self;
        tree
    }
}

/// What a problem has made before its schedule: the flat graph of an algorithm, what the text of an architecture
/// describes, and how long each operation lasts by that text.
pub struct Problem {
    pub text: ArchiText,
    pub flat: Flat,
    pub durations: Durations,
}

/// Written by hand, as that of an algorithm.
impl Drop for Problem {
    fn drop(self) {
        let Problem {
            text: _,
            flat: _,
            durations: _,
        } = self;
    }
}

impl Problem {
    /// Its flat graph and its text, without the durations.
    pub fn into_parts(self) -> (Flat, ArchiText)
        ensures flat { result.0 ≡ self.flat }
        ensures text { result.1 ≡ self.text }
    {
        let Problem {
            text,
            flat,
            durations: _,
        } = self;
        (flat, text)
    }
}

/// Stage 1: the definitions of a text and the tree that they mean, or the first refusal.
pub fn parse_algorithm(alloc: Global, text: &[u8]) -> Result<Algorithm, AlgoError>
    requires { length text.now ≤ file_bound }
    ensures { MakesAlgorithm text.now result }
{
    let defs = read_algo(alloc, text)?;
    accepted_are_well_read();
    accepted_have_periods();
    canonical_text_reads_back();
    let tree = elaborate(alloc, &defs)?;
    Ok(Algorithm { defs, tree })
}

/// Stage 2: the flat graph of a tree, which is its operations alone, without repetitions, cases and levels.
pub fn flatten_tree(alloc: Global, tree: &Tree) -> Result<Flat, OutOfMemory>
    ensures { IfOk result (λ flat. flat ≡ flat_of tree.now) }
{
    flatten(alloc, tree)
}

/// Stage 3: what a text says of an architecture and of the durations of definitions, or its first refusal.
pub fn parse_architecture(alloc: Global, text: &[u8]) -> Result<ArchiText, ArchiError>
    requires { length text.now ≤ file_bound }
    ensures says { Gives result (description_of text.now) }
    ensures known { IfOk result (λ t. AreDurations (length t.archi.operators) t.lines) }
{
    accepted_are_durations();
    read_archi(alloc, text)
}

/// Stage 4: how long each operation of a flat graph lasts on each operator by a text, or the first refusal.
pub fn find_durations(alloc: Global, flat: Flat, text: ArchiText) -> Result<Problem, ArchiError>
    requires { AreDurations (length text.archi.operators) text.lines }
    ensures { FindsDurations flat text result }
{
    let durations = durations_of(alloc, &flat, &text)?;
    Ok(Problem {
        text,
        flat,
        durations,
    })
}

/// Stages 2 to 4: from a tree and the text of an architecture to the durations, or the first refusal. The text is read
/// before the tree is made flat, so that a refused text costs no flat graph.
pub fn compile_to_durations(alloc: Global, text: &[u8], tree: &Tree) -> Result<Problem, ArchiError>
    requires { length text.now ≤ file_bound }
    ensures { MakesProblem tree.now text.now result }
{
    let text = parse_architecture(alloc, text)?;
    let Ok(flat) = flatten_tree(alloc, tree) else {
        return Err(ArchiError::OutOfMemory);
    };
    find_durations(alloc, flat, text)
}

/// Stage 5: the schedule of the pressure run, for which `adequation` first finds the least routes between operators.
pub fn find_schedule(alloc: Global, problem: &Problem) -> Result<Schedule, OutOfMemory>
    requires { HasDurations problem.now }
    ensures run { IfOk result (λ s. s ≡ schedule_of problem.now.flat
        problem.now.text.archi problem.now.durations) }
    ensures valid { IfOk result (λ s. IsTrue (is_valid problem.now.flat
        problem.now.text.archi (entry_in problem.now.durations) s)) }
{
    let flat = &problem.flat;
    let archi = &problem.text.archi;
    // By this call the proof knows that the architecture is valid, which the law of the least routes asks for.
    let _operators = archi.operators();
    durations_fit();
    routes_are_least();
    adequation(alloc, flat, archi, &problem.durations)
}

/// Stage 6: the program of a valid schedule, or the first limit that refuses it.
pub fn build_program(
    alloc: Global,
    problem: &Problem,
    schedule: &Schedule,
) -> Result<Program, BuildError>
    requires { IsTrue (is_valid problem.now.flat problem.now.text.archi
        (entry_in problem.now.durations) schedule.now) }
    ensures { BuildsProgram problem.now.flat problem.now.text.archi schedule.now result }
{
    build(alloc, &problem.flat, &problem.text.archi, schedule)
}

/// Stages 5 and 6: from the durations to the program, or the first limit that refuses it.
pub fn compile_to_program(alloc: Global, problem: &Problem) -> Result<Program, BuildError>
    requires { HasDurations problem.now }
    ensures { BuildsProgram problem.now.flat problem.now.text.archi
        (schedule_of problem.now.flat problem.now.text.archi problem.now.durations) result }
{
    let schedule = find_schedule(alloc, problem)?;
    build_program(alloc, problem, &schedule)
}
