//! The laws of every interleaving of sequences that share semaphores, buffers and media, and of how far
//! sequences that wait for each other's events may have come.
//!
//! A system is a number of sequences of micro-steps, each with private state, and a run makes them in the order
//! of a list of sequence numbers. Semaphores guard buffers of one or more places, media carry transfers in a
//! fixed order over a wire. Below this stands the theory of consistent cuts, after Lamport (CACM 1978) and
//! Mattern (1989): how far each sequence may have come, and when one more event keeps the cut consistent.
//!
//! The crate names no graph, program or value: its laws are the contracts of functions that do nothing.
#![tactic(auto)]

mod consistency;

ghost use Rattle.interleavings.specs.Laws.{RunsAreTold, RunsAreFresh, RunsProgress, RunsGoOn, ReachedFind};

pub use consistency::{
    passes_are_counted, ready_events_keep_the_cut_consistent, some_sequence_is_ready,
};

/// Whatever the order, a run is a function of how far each sequence has come.
pub fn every_run_is_told()
    ensures { RunsAreTold }
{}

/// Every run is fresh: an element is stored again only after all its loads were made, and loaded only after its
/// own round was stored.
pub fn every_run_is_fresh()
    ensures { RunsAreFresh }
{}

/// After every list of sequence numbers some sequence is enabled until all is done.
pub fn some_sequence_is_enabled()
    ensures { RunsProgress }
{}

/// From reached counts, one more enabled step gives reached counts, which tell that step.
pub fn one_more_step_goes_on()
    ensures { RunsGoOn }
{}

/// In what reached counts tell, a lower finds a signal, a load the value of its own round, and a store is of
/// the next round of its element.
pub fn each_step_finds_its_own()
    ensures { ReachedFind }
{}
