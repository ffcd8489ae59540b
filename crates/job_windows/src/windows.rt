//! The windows that are still to be run, for the commands that run jobs.
ghost use Rattle.std.specs.Prelude.{◌≡◌, ◌≤◌, ◌<◌, ◌+◌, IfOk, None};
ghost use Rattle.word_rule.specs.Job.{reactions};
ghost use Rattle.word_rule.specs.IsJob.{FitTogether, limit_of};
ghost use Rattle.word_table.specs.Closed.{IsAtEnd};
ghost use Rattle.job_windows.specs.Windowed.{RunsNext, first_of, next_job, whole_job};

use executive_program::{Archi, Flat, Program};
use executive_run::{prepare, run_ready};
use outside::Gate;
use std::alloc::{AllocError, Global};
use std::marker::Model;
use std::sync::Wait;
use std::thread::Threads;
use syn_base::{Items, OutOfMemory, SensorRows};
use word_rule::{Job, opening_of, windows_make_the_run};
use word_table::{Closed, Driven};

/// The most reactions of a window.
pub const WINDOW: usize = 256;

/// By what windows are driven: threads are started by `rt`, and the gate is asked before each step.
pub struct Drive<'a, R, G> {
    pub rt: &'a R,
    pub gate: &'a G,
}

impl<'a, R, G> Clone for Drive<'a, R, G> {
    fn clone(&self) -> Result<Self, AllocError> {
        Ok(*self)
    }
}

impl<'a, R, G> Copy for Drive<'a, R, G> {}

/// The windows of a job that are still to be run. Contracts see the job over all rows, from the initial
/// values of the delays, and the number of the next window.
#[derive(Drop)]
pub struct JobWindows<'a> {
    program: &'a Program,
    flat: &'a Flat,
    archi: &'a Archi,
    rows: &'a SensorRows,
    workers: u32,
    next: usize,
    /// The cells with which the next window opens.
    opening: Items<Items<i64>>,
}

impl<'a> Model for JobWindows<'a> {
    ghost use Rattle.std.specs.Coded.{codes};
    ghost use Rattle.executive_program.specs.BodyCode.{expr_code};
    ghost use Rattle.executive_program.specs.Graph.{graph_code};
    ghost use Rattle.word_rule.specs.Job.{job_code};
    ghost use Rattle.job_windows.specs.Windowed.{IsOpen, WindowsData, whole_job, windows_code};

    ghost Value = { WindowsData };

    ghost coded = { windows_code (job_code (Prim.hlevel codes)
        (graph_code (Prim.hlevel codes) (expr_code (Prim.hlevel codes)))) };

    ghost view = { λ s. record { job = whole_job s.program.now s.flat.now s.archi.now s.rows.now; next = s.next } };

    ghost invariant = { λ s. IsOpen s.archi.now s.workers
        (whole_job s.program.now s.flat.now s.archi.now s.rows.now) s.next s.opening };
}

impl<'a> JobWindows<'a> {
    /// All windows of the job of these parts, to be run by 1 to 80 workers.
    pub fn new(
        alloc: Global,
        program: &'a Program,
        flat: &'a Flat,
        archi: &'a Archi,
        rows: &'a SensorRows,
        workers: u32,
    ) -> Result<JobWindows<'a>, OutOfMemory>
        requires fits { FitTogether archi.now (whole_job program.now flat.now archi.now rows.now) }
        requires limit { limit_of (whole_job program.now flat.now archi.now rows.now) ≡ None }
        requires from { 1 ≤ workers }
        requires to { workers ≤ 80 }
        ensures { IfOk result (λ windows. windows ≡
            record { job = whole_job program.now flat.now archi.now rows.now; next = 0 }) }
    {
        let opening = opening_of(alloc, flat)?;
        Ok(JobWindows {
            program,
            flat,
            archi,
            rows,
            workers,
            next: 0,
            opening,
        })
    }

    /// The first reaction of the next window, if there is one more.
    pub fn first(&self) -> usize
        ensures value { result ≡ first_of self.now.next }
        ensures bound { result < 20000 }
        ensures few { reactions self.now.job ≤ 10000 }
    {
        self.next * WINDOW
    }

    /// Runs the next window to its end, if there is one more. After want of memory nothing was driven.
    pub fn run_next<R: Threads + Wait + Sync, G: Gate>(
        &self,
        alloc: Global,
        drive: &Drive<R, G>,
        driven: &mut Driven,
    ) -> Result<Option<Closed>, OutOfMemory>
        ensures { RunsNext self.now driven.old driven.new result }
    {
        let from = self.first();
        let reactions = self.rows.count();
        if from >= reactions {
            return Ok(None);
        }
        // The next three calls are made for the proof alone: the rows have the vectors of the sensors, the flat graph
        // is valid, and windows over such a graph make the run.
        self.rows.are_cut();
        let _ = self.flat.vertices();
        windows_make_the_run();
        let rows = self.rows.window(from, WINDOW.min(reactions - from))?;
        let opening = copy_of_vectors(alloc, self.opening.as_slice())?;
        let Ok(job) = Job::new(self.program, self.flat, self.archi, &rows, opening) else {
            unreachable!()
        };
        let ready = prepare(alloc, &job, self.workers)?;
        Ok(Some(run_ready(drive.rt, ready, drive.gate, driven)))
    }

    /// Passes on to the window after the one of which this was left.
    pub fn go_on(&mut self, closed: Closed)
        requires there { first_of self.old.next < reactions self.old.job }
        requires ended { IsAtEnd (next_job self.old) closed }
        ensures { self.new ≡ record self.old { next = self.old.next + 1 } }
    {
        // As in `run_next`, these three calls are made for the proof alone.
        self.rows.are_cut();
        let _ = self.flat.vertices();
        windows_make_the_run();
        self.opening = closed.into_cells();
        self.next += 1;
    }
}

/// A copy of these vectors.
fn copy_of_vectors(alloc: Global, vectors: &[Items<i64>]) -> Result<Items<Items<i64>>, OutOfMemory>
    ensures { IfOk result (λ copy. copy ≡ vectors.now) }
{
    let mut copy = Vec::new(alloc);
    for vector in vectors {
        copy.push(Items::new(Vec::from_slice(alloc, vector.as_slice())?))?;
    }
    Ok(Items::new(copy))
}
