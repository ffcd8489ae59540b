//! Runs of a job to its end by one driver alone, at gates: its rows, counts and words are those of runs by threads,
//! and the gate is asked once for each step.
use crate::texts::Worked;
use crate::two_operators::texts;
use executive_run::{prepare, run_alone};
use phase_laws::Job;
use progress_laws::steps_in_all;
use std::alloc::Global;
use std::process::Abort;
use std::test::Fail;
use syn_base::OutOfMemory;
use word_table::Driven;
use worked_parts::{Counting, Gate, Holding, Meeting, values_of};

/// Whether this is what was driven of the program for two operators in three reactions.
fn is_driven_so(driven: &Driven, steps: u64) -> bool {
    steps == 71
        && driven.number() == steps
        && driven.counts() == [18, 19, 16, 18].as_slice()
        && driven.words() == [1, 0, 1, 0, 6, 0, 1, 0, 1, 0].as_slice()
}

/// Whether a job of that program ends so at a gate.
fn ends_so(alloc: Global, job: &Job, gate: &impl Gate) -> Result<bool, OutOfMemory> {
    let mut driven = Driven::new(alloc);
    let ready = prepare(alloc, job, 1)?;
    let closed = run_alone(ready, gate, &mut driven);
    let values = values_of(alloc, closed.rows())?;
    Ok(
        is_driven_so(&driven, steps_in_all(job))
            && values.as_slice() == [6, 6, 0, 0, 1, 1].as_slice(),
    )
}

/// As `ends_so`, of what was read of the program.
fn run(rt: &impl Abort, alloc: Global, worked: &Worked, gate: &impl Gate) -> Result<(), Fail> {
    let job = worked.job(rt, alloc)?;
    assert!(rt; ends_so(alloc, &job, gate)?);
    Ok(())
}

/// Of two sequences that wait for each other before their first steps the first one gives up. Each step is asked for
/// once. No sequence is let go by another one.
#[test]
fn one_driver_comes_to_the_end(rt: HostRuntime) -> Result<(), Fail> {
    let alloc = rt.alloc();
    let worked = Worked::read(&rt, alloc, &texts())?;
    let meeting = Meeting::of(2);
    run(&rt, alloc, &worked, &meeting)?;
    assert_eq!(rt; (meeting.came(), meeting.given_up()), (2, 1));
    let counting = Counting::new();
    run(&rt, alloc, &worked, &counting)?;
    assert_eq!(rt;
        (counting.asked(), counting.out_of_turn()),
        ([18, 19, 16, 18], 0)
    );
    let holding = Holding::new();
    run(&rt, alloc, &worked, &holding)?;
    assert_eq!(rt; holding.at_release(), 0);
    Ok(())
}
