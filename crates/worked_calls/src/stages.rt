//! The stages of the pipeline, each from the one before it, which the tests begin with.
ghost use Rattle.std.specs.Prelude.{◌≡◌, ◌≤◌, IfOk, IsTrue, length};
ghost use Rattle.algo_print.specs.Canonical.{ArePrintable};
ghost use Rattle.algo_laws.specs.WellRead.{AreWellRead};
ghost use Rattle.elaboration.specs.Stand.{HavePeriods};
ghost use Rattle.sequence_build_laws.specs.Fitting.{IsOf};
ghost use Rattle.sequence_build_laws.specs.DurationLines.{AreDurations};
ghost use Rattle.sequence_build_laws.specs.Table.{entry_in};
ghost use Rattle.sequence_build_laws.specs.ScheduleValid.{is_valid};
ghost use Rattle.sequence_build_laws.specs.Built.{program_of};
ghost use Rattle.syn_base.specs.Limits.{most_in_text};

use crate::texts::ARCHITECTURE;
use algo_laws::{
    AlgoError, Defs, Tree, accepted_are_few, accepted_are_well_read, accepted_have_periods,
};
use algo_print::canonical_text_reads_back;
use algo_reader::read_algo;
use archi_reader::read_archi;
use elaboration::elaborate;
use hierarchy::flatten;
use pressure_heuristic::adequation;
use sequence_build::{BuildError, build};
use sequence_build_laws::{
    ArchiError, ArchiText, Durations, Flat, Program, Schedule, accepted_are_durations, durations_of,
};
use std::alloc::Global;
use std::process::Abort;
use std::test::Fail;
use syn_base::OutOfMemory;
use worked_parts::TWICE;

/// The definitions of a text that is no longer than the texts here.
#[tactic(auto, using(algo_reader::proofs::LineCounts::lines_at_most))]
pub fn read_defs(alloc: Global, text: &[u8]) -> Result<Defs, AlgoError>
    requires { length text.now ≤ 4000 }
    ensures read { IfOk result (λ defs. AreWellRead defs.defs) }
    ensures periods { IfOk result (λ defs. HavePeriods defs.defs) }
    ensures few { IfOk result (λ defs. length defs.defs ≤ most_in_text) }
    ensures printable { IfOk result (λ defs. ArePrintable defs.defs) }
{
    let defs = read_algo(alloc, text)?;
    accepted_are_well_read();
    accepted_have_periods();
    accepted_are_few();
    canonical_text_reads_back();
    Ok(defs)
}

/// The tree of a text.
pub fn read_tree(alloc: Global, text: &[u8]) -> Result<Tree, AlgoError>
    requires { length text.now ≤ 4000 }
{
    let defs = read_defs(alloc, text)?;
    elaborate(alloc, &defs)
}

/// The architecture of a text.
#[tactic(auto, using(algo_reader::proofs::LineCounts::lines_at_most))]
pub fn read_architecture(alloc: Global, text: &[u8]) -> Result<ArchiText, ArchiError>
    requires { length text.now ≤ 4000 }
    ensures { IfOk result (λ text. AreDurations (length text.archi.operators) text.lines) }
{
    accepted_are_durations();
    read_archi(alloc, text)
}

/// A flat graph on an architecture, with the durations of its operations.
pub struct Site {
    pub flat: Flat,
    pub text: ArchiText,
    pub durations: Durations,
    ghost fits: { IsOf flat text.archi durations },
}

/// By hand, so that a proof walks through what it drops here alone, and not on each way out of each
/// function that owns one.
impl Drop for Site {
    fn drop(self) {
        let Site {
            flat: _,
            text: _,
            durations: _,
        } = self;
    }
}

/// The flat graph of an algorithm on an architecture.
pub fn site_of(alloc: Global, algorithm: &[u8], architecture: &[u8]) -> Result<Site, Fail>
    requires algorithm { length algorithm.now ≤ 4000 }
    requires architecture { length architecture.now ≤ 4000 }
{
    let tree = read_tree(alloc, algorithm)?;
    let flat = flatten(alloc, &tree)?;
    let text = read_architecture(alloc, architecture)?;
    let durations = durations_of(alloc, &flat, &text)?;
    Ok(Site {
        flat,
        text,
        durations,
    })
}

/// The schedule of the pressure run.
pub fn find_schedule(alloc: Global, site: &Site) -> Result<Schedule, OutOfMemory>
    ensures { IfOk result (λ s. IsTrue (is_valid site.now.flat site.now.text.archi
        (entry_in site.now.durations) s)) }
{
    adequation(alloc, &site.flat, &site.text.archi, &site.durations)
}

/// The program of that schedule.
pub fn build_program(alloc: Global, site: &Site, schedule: &Schedule) -> Result<Program, BuildError>
    requires { IsTrue (is_valid site.now.flat site.now.text.archi (entry_in site.now.durations) schedule.now) }
    ensures { IfOk result (λ p. p ≡ program_of site.now.flat site.now.text.archi schedule.now) }
{
    build(alloc, &site.flat, &site.text.archi, schedule)
}

/// The site of the texts here.
pub fn two_operators(rt: &impl Abort, alloc: Global) -> Result<Site, Fail> {
    assert!(rt; TWICE.len() <= 4000);
    assert!(rt; ARCHITECTURE.len() <= 4000);
    site_of(alloc, TWICE, ARCHITECTURE)
}
