//! Makes the tree that an algorithm text means: the one to which its definitions resolve, pruned of what is
//! inside units that stand for no operation, with a graph in the place of each reference that runs in every nth
//! reaction.
//!
//! `elaborate` makes it of the definitions that were read, and the law says what the tree of an accepted text
//! is. `syndex_program` calls it, and `accepted_laws` stands on the law.
//!
//! `marks` reads which references of `main` run in every nth reaction alone, or finds the first mark on a
//! reference that may have none. The law `accepted_marks_stand` says that accepted marks may stand in the tree
//! that the definitions resolve to, so that `multi_period` makes its tree from both.
#![tactic(auto)]

mod mark_laws;
mod marking;
mod standing;

ghost use Rattle.std.specs.Prelude.{◌≡◌, ◌≤◌, IfOk, length};
ghost use Rattle.syn_base.specs.Limits.{most_in_text};
ghost use Rattle.text_lines.specs.Refusals.{Gives};
ghost use Rattle.algo_laws.specs.WellRead.{AreWellRead};
ghost use Rattle.elaboration.specs.Stand.{HavePeriods};
ghost use Rattle.elaboration.specs.Elaborated.{elaboration_of, of_periods};
ghost use Rattle.elaboration.specs.Laws.{AcceptedAreElaborated};

use algo_laws::{AlgoError, Defs, Tree};
use algo_resolve::resolve;
pub use mark_laws::accepted_marks_stand;
pub use marking::marks;
use multi_period::{PeriodError, periods};
use std::alloc::Global;

/// The tree of the definitions of a text, or their first refusal: those of resolving; then a mark where none
/// may stand; and then the limit on the operations of the tree in which the marked references have become
/// graphs. OutOfMemory may come in place of any result, where memory runs out.
pub fn elaborate(alloc: Global, defs: &Defs) -> Result<Tree, AlgoError>
    requires read { AreWellRead defs.now.defs }
    requires periods { HavePeriods defs.now.defs }
    requires few { length defs.now.defs ≤ most_in_text }
    ensures { Gives result (elaboration_of defs.now) }
{
    let tree = resolve(alloc, defs)?;
    let marks = marks(alloc, defs)?;
    if marks.as_slice().is_empty() {
        return Ok(tree);
    }
    // That the marks may stand in the tree, which `periods` asks for.
    accepted_marks_stand();
    match periods(alloc, &tree, &marks) {
        Ok(made) => Ok(made),
        Err(error) => Err(refusal_of(error)),
    }
}

/// The refusal of the text that a refusal of the made tree becomes.
fn refusal_of(error: PeriodError) -> AlgoError
    ensures { result ≡ of_periods error }
{
    match error {
        PeriodError::Limit(fault) => AlgoError::Limit(fault),
        PeriodError::OutOfMemory => AlgoError::OutOfMemory,
    }
}

/// The tree of an accepted text is a tree, and its actuators take what the meaning of
/// the whole tree that the definitions resolve to says with their marks: in a reaction that its number does not divide
/// a marked reference gives what it gave in the last that it divides, and its delays stand still.
pub fn accepted_are_elaborated()
    ensures { AcceptedAreElaborated }
{}
