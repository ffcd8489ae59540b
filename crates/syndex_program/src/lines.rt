//! The lines that an execution writes, window by window, for the commands `run` and `exec`.
ghost use Rattle.std.specs.Prelude.{◌≡◌, IfOk};
ghost use Rattle.compiler.specs.Executions.{acts_of};
ghost use Rattle.algo_tree.specs.Ends.{actuator_lengths};
ghost use Rattle.word_rule.specs.Ended.{all_acts};
ghost use Rattle.word_rule.specs.Driven.{driven_by};
ghost use Rattle.top_plans.specs.Run.{Performs};
ghost use Rattle.top_plans.specs.Status.{Refusal, ending_of as status_ending};
ghost use Rattle.top_plans.specs.Given.{window_stages};
ghost use Rattle.syndex_program.specs.Executes.{IsExecuted, executed};
ghost use Rattle.syndex_program.specs.Left.{stages_left};
ghost use Rattle.syndex_program.specs.Stopped.{GoesOn, ending_of};
ghost use Rattle.self_timed.specs.FlatLaws.{actuator_lens};

use crate::execution::Execution;
use crate::windows::windows_of;
use algo_tree::Tree;
use job_windows::{Drive, JobWindows};
use std::alloc::Global;
use std::sync::Wait;
use std::thread::Threads;
use syn_base::OutOfMemory;
use top_plans::{Gate, Sink, Status, acts_text_from, write_whole};
use word_table::Driven;

/// Why windows stopped.
#[derive(Clone, Copy, Debug, PartialEq, Eq)]
pub enum Stopped {
    /// Not all of a text was written.
    Unwritten,
    /// An allocation failed.
    OutOfMemory,
}

/// The windows that are still to be run, each with the lines of what its actuators take.
#[derive(Drop)]
pub struct Lines<'a> {
    pub tree: &'a Tree,
    pub windows: JobWindows<'a>,
    ghost lens: { actuator_lens windows.job.graph windows.job.graph.vertices ≡ actuator_lengths tree.now },
    ghost acts: { all_acts windows.job ≡ acts_of tree.now windows.job.sensors },
}

impl<'a> Lines<'a> {
    /// Runs the next window to its end, and gives its lines; or None, where no window is left.
    fn next<R: Threads + Wait + Sync, G: Gate>(
        &mut self,
        alloc: Global,
        drive: &Drive<R, G>,
        driven: &mut Driven,
    ) -> Result<Option<Vec<u8>>, OutOfMemory>
        ensures { GoesOn (stages_left self.old.tree.now self.old.windows)
            (stages_left self.new.tree.now self.new.windows) driven.old driven.new result }
    {
        let first = self.windows.first();
        match self.windows.run_next(alloc, drive, driven) {
            Ok(Some(closed)) => {
                let text = acts_text_from(alloc, self.tree, closed.rows(), first)?;
                self.windows.go_on(closed);
                Ok(Some(text))
            }
            Ok(None) => Ok(None),
            Err(want) => Err(want),
        }
    }
}

/// All windows of an execution with their lines, to be run by this many workers, or by one for each sequence.
pub fn lines_of<'a>(
    alloc: Global,
    execution: &'a Execution,
    workers: Option<u32>,
) -> Result<Lines<'a>, OutOfMemory>
    requires { IsExecuted execution.now }
    ensures { IfOk result (λ lines. stages_left lines.tree.now lines.windows ≡ window_stages (executed execution.now)) }
{
    let windows = windows_of(alloc, execution, workers)?;
    Ok(Lines {
        tree: &execution.tree,
        windows,
    })
}

/// Runs all windows that are left in order, and appends the lines of each once it has been run. It stops at
/// the first window whose lines could not be made or were not all written; those of the windows before
/// that one were appended.
pub fn write_lines<R: Threads + Wait + Sync, K: Sink, G: Gate>(
    alloc: Global,
    lines: &mut Lines,
    out: &mut K,
    drive: &Drive<R, G>,
    driven: &mut Driven,
) -> Result<(), Stopped>
    ensures { Performs {R = Refusal} driven_by (stages_left lines.old.tree.now lines.old.windows)
        (K.sunk out.old) (K.sunk out.new) driven.old driven.new (ending_of result) }
{
    'windows: loop {
        let Ok(next) = lines.next(alloc, drive, driven) else {
            return Err(Stopped::OutOfMemory);
        };
        let Some(text) = next else {
            return Ok(());
        };
        if write_whole(out, &text).is_err() {
            return Err(Stopped::Unwritten);
        }
    }
}

/// The status of a command whose lines were written or stopped so.
pub fn status_of(answer: Result<(), Stopped>) -> Status
    ensures { status_ending result ≡ ending_of answer }
{
    match answer {
        Ok(()) => Status::Done,
        Err(Stopped::Unwritten) => Status::WriteFault,
        Err(Stopped::OutOfMemory) => Status::OutOfMemory,
    }
}
