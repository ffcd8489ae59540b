//! Runs a job to its end: it drives the fabric of the job, by threads or by one driver alone.
//!
//! `prepare` takes all memory that a run takes; `run_ready` drives the groups of sequences by at most as many
//! workers as sequences have an instruction, of whom the caller is the first, and who share all groups; `run_alone`
//! drives all sequences by one driver, starts no thread and returns. Both leave the rows and the cells of the job's
//! meaning. `syndex_program` calls them for `run`, `load` and `exec`.
#![tactic(auto)]

ghost use Rattle.std.specs.Prelude.{◌≡◌};
ghost use Rattle.word_rule.specs.Driven.{driven_by};
ghost use Rattle.word_table.specs.Closed.{IsAtEnd};

mod alone;
mod busy;
mod crew;
mod group;
mod idling;
mod place;
mod progress;
mod ready;
mod together;

use outside::Gate;
pub use ready::{Ready, prepare};
use std::sync::Wait;
use std::thread::Threads;
use word_table::{Closed, Driven};

/// Runs a job by its workers. The caller is the first, and each other one is a thread beside it, of which no more
/// are started than sequences have an instruction. A group of sequences is driven by one worker at a time,
/// whichever is free, so that a worker that cannot be started is not missed; one that finds nothing to do returns
/// where there are more workers than groups that are not finished. The gate is asked once before the first try of
/// each step, by the thread that drives the sequence. It refuses nothing and takes no memory of its own.
pub fn run_ready<'a, R: Threads + Wait + Sync, G: Gate>(
    rt: &R,
    ready: Ready<'a>,
    gate: &G,
    driven: &mut Driven,
) -> Closed
    ensures driven { driven.new ≡ driven_by ready.entry.job driven.old }
    ensures closed { IsAtEnd ready.entry.job result }
{
    together::run(rt, ready, gate, driven)
}

/// Runs a job that was made ready for one worker by one driver. It starts no thread, takes no memory of its
/// own, waits for nobody but the gate, which is asked as by `run_ready`, and returns if the gate does.
pub fn run_alone<'a, G: Gate>(ready: Ready<'a>, gate: &G, driven: &mut Driven) -> Closed
    requires { ready.workers ≡ 1 }
    ensures driven { driven.new ≡ driven_by ready.entry.job driven.old }
    ensures closed { IsAtEnd ready.entry.job result }
{
    alone::run(ready, gate, driven)
}
