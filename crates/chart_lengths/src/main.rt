//! Compiles one algorithm for one to four processors and prints how long each chart is: how the parts of the compiler
//! are called from a program of one's own. `docs/CALLING.md` explains each step.
#![tactic(auto)]

ghost use Rattle.std.specs.Prelude.{◌≤◌, IfOk, length};
ghost use Rattle.algo_rules.specs.WellRead.{AreWellRead};
ghost use Rattle.durations.specs.Lines.{AreDurations};
ghost use Rattle.elaboration.specs.Stand.{HavePeriods};
ghost use Rattle.syn_base.specs.Limits.{most_in_text};

use algo_laws::{accepted_are_few, accepted_are_well_read, accepted_have_periods};
use algo_reader::read_algo;
use algo_text::{AlgoError, Defs};
use algo_tree::Tree;
use archi_defs::{ArchiError, ArchiText};
use archi_reader::read_archi;
use durations::{accepted_are_durations, durations_fit, durations_of};
use elaboration::elaborate;
use hierarchy::flatten;
use pressure_heuristic::adequation;
use std::alloc::Global;
use std::io;

/// A value goes through a function in each of four branches, which do not depend on each other.
const ALGORITHM: &[u8] = b"algorithm 1
sensor Sense 1
actuator Act 4
function Branch
in x 1
in n 1
out y 1 = mul(x[0],n[0])
end
constant Factors = 1 2 3 4
repeat Branches 4 Branch
diffuse x x
fork n n
join y y
end
graph main
ref s Sense
ref n Factors
ref b Branches
ref a Act
edge s.o b.x
edge n.o b.n
edge b.y a.i
end
";

/// One processor; two, three and four on a bus.
const ARCHITECTURES: [&[u8]; 4] = [
    b"architecture 1
operator P0
duration Sense P0 1
duration Act P0 1
duration Branch P0 20
",
    b"architecture 1
operator P0
operator P1
medium bus multi 1 1
connect bus P0
connect bus P1
duration Sense P0 1
duration Act P0 1
duration Branch P0 20
duration Branch P1 20
",
    b"architecture 1
operator P0
operator P1
operator P2
medium bus multi 1 1
connect bus P0
connect bus P1
connect bus P2
duration Sense P0 1
duration Act P0 1
duration Branch P0 20
duration Branch P1 20
duration Branch P2 20
",
    b"architecture 1
operator P0
operator P1
operator P2
operator P3
medium bus multi 1 1
connect bus P0
connect bus P1
connect bus P2
connect bus P3
duration Sense P0 1
duration Act P0 1
duration Branch P0 20
duration Branch P1 20
duration Branch P2 20
duration Branch P3 20
",
];

/// The definitions of a text of at most 4,000 bytes, with what `elaborate` asks of them, or its first refusal.
#[tactic(auto, using(algo_reader::proofs::LineCounts::lines_at_most))]
fn definitions(alloc: Global, text: &[u8]) -> Result<Defs, AlgoError>
    requires { length text.now ≤ 4000 }
    ensures read { IfOk result (λ defs. AreWellRead defs.defs) }
    ensures periods { IfOk result (λ defs. HavePeriods defs.defs) }
    ensures few { IfOk result (λ defs. length defs.defs ≤ most_in_text) }
{
    let defs = read_algo(alloc, text)?;
    // Laws: what the definitions of every accepted text have.
    accepted_are_well_read();
    accepted_have_periods();
    accepted_are_few();
    Ok(defs)
}

/// The tree that the text of an algorithm means, or its first refusal.
fn tree_of(alloc: Global, text: &[u8]) -> Result<Tree, AlgoError>
    requires { length text.now ≤ 4000 }
{
    let defs = definitions(alloc, text)?;
    elaborate(alloc, &defs)
}

/// What the text of an architecture describes, or its first refusal.
#[tactic(auto, using(algo_reader::proofs::LineCounts::lines_at_most))]
fn description(alloc: Global, text: &[u8]) -> Result<ArchiText, ArchiError>
    requires { length text.now ≤ 4000 }
    ensures { IfOk result (λ text. AreDurations (length text.archi.operators) text.lines) }
{
    // A law: the lines of every accepted text are durations.
    accepted_are_durations();
    read_archi(alloc, text)
}

/// The length of the chart of a tree on the architecture of a text, or the first refusal.
fn chart_length(alloc: Global, tree: &Tree, text: &[u8]) -> Result<u64, ArchiError>
    requires { length text.now ≤ 4000 }
{
    let Ok(flat) = flatten(alloc, tree) else {
        return Err(ArchiError::OutOfMemory);
    };
    let described = description(alloc, text)?;
    let durations = durations_of(alloc, &flat, &described)?;
    // A law: durations that were found for a flat graph and an architecture are theirs.
    durations_fit();
    match adequation(alloc, &flat, &described.archi, &durations) {
        Ok(schedule) => Ok(schedule.length()),
        Err(_) => Err(ArchiError::OutOfMemory),
    }
}

/// A line for the architecture of a text, which has this many processors.
fn print_length(rt: &HostRuntime, tree: &Tree, count: usize, text: &[u8]) -> io::Result<()>
    requires { length text.now ≤ 4000 }
{
    match chart_length(rt.alloc(), tree, text) {
        Ok(length) => println!(rt; "{count} processors: {length} ticks"),
        Err(_) => println!(rt; "{count} processors: refused"),
    }
}

/// A line for each architecture. That a text is short enough is tested, so that the proof knows it.
fn main(rt: HostRuntime) -> io::Result<()> {
    if ALGORITHM.len() > 4000 {
        return Ok(());
    }
    let Ok(tree) = tree_of(rt.alloc(), ALGORITHM) else {
        return println!(rt; "the algorithm is refused");
    };
    for (at, text) in ARCHITECTURES.iter().enumerate() {
        if text.len() <= 4000 {
            print_length(&rt, &tree, at + 1, text)?;
        }
    }
    Ok(())
}
