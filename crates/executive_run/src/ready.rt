//! A run made ready: a fabric with its drivers, and all memory that the run takes.
ghost use Rattle.std.specs.Prelude.{◌≡◌, ◌≤◌, IfOk, vec_len};
ghost use Rattle.word_table.specs.Driver.{AreDrivers, AreNew, IsNew};
ghost use Rattle.executive_run.specs.Prepared.{AreGroups};

use crate::busy::{busy_count, groups_for};
use crate::group::Group;
use crate::place::Place;
use semaphore_core::Job;
use std::alloc::Global;
use std::marker::Model;
use syn_base::OutOfMemory;
use word_table::{Driver, Fabric, weave};

/// A fabric with all its drivers, and all memory that a run takes. Contracts see the job and the number of
/// workers that was asked for.
#[derive(Drop)]
pub struct Ready<'a> {
    pub(crate) job: &'a Job<'a>,
    /// How many workers were asked for, and how many of them have something to do.
    pub(crate) workers: u32,
    pub(crate) active: usize,
    pub(crate) fabric: Fabric<'a>,
    pub(crate) groups: Vec<Group<'a>>,
    /// Room for the groups while they are driven, once they are done, and for their drivers.
    pub(crate) places: Vec<Place<'a>>,
    pub(crate) done: Vec<Group<'a>>,
    pub(crate) drivers: Vec<Driver<'a>>,
}

impl<'a> Model for Ready<'a> {
    ghost use Rattle.std.specs.Coded.{codes};
    ghost use Rattle.body_lang.specs.Code.{expr_code};
    ghost use Rattle.flat_graph.specs.Graph.{graph_code};
    ghost use Rattle.semaphore_core.specs.Job.{job_code};
    ghost use Rattle.executive_run.specs.Ready.{ReadyData, ready_code};
    ghost use Rattle.std.specs.Prelude.{vec_len, vec_capacity};
    ghost use Rattle.executive_run.specs.Sharing.{IsShared};
    ghost use Rattle.executive_run.specs.Prepared.{IsReady, IsRoom};

    ghost Value = { ReadyData };

    ghost coded = { ready_code (job_code (Prim.hlevel codes)
        (graph_code (Prim.hlevel codes) (expr_code (Prim.hlevel codes)))) };

    ghost view = { λ r. record { job = r.job.now; workers = r.workers } };

    ghost invariant = { λ r. IsReady r.job.now r.fabric r.groups.items
        × IsRoom r.fabric.groups (vec_len r.places) (vec_capacity r.places)
        × IsRoom r.fabric.groups (vec_len r.done) (vec_capacity r.done)
        × IsRoom r.fabric.groups (vec_len r.drivers) (vec_capacity r.drivers)
        × IsShared r.job.now r.workers r.fabric.groups r.active };
}

/// Makes a job ready to be run by 1 to 80 workers. It takes all memory that the run takes. Sequences
/// without an instruction take no group of their own where fewer groups keep the others apart.
pub fn prepare<'a>(alloc: Global, job: &'a Job<'a>, workers: u32) -> Result<Ready<'a>, OutOfMemory>
    requires from { 1 ≤ workers }
    requires to { workers ≤ 80 }
    ensures { IfOk result (λ ready. (ready.job ≡ job.now) × (ready.workers ≡ workers)) }
{
    let seqs = job.program().seqs.as_slice();
    let count = groups_for(seqs, workers);
    let active = busy_count(seqs).min(count as usize);
    let places = Vec::with_capacity(alloc, count as usize)?;
    let done = Vec::with_capacity(alloc, count as usize)?;
    let drivers = Vec::with_capacity(alloc, count as usize)?;
    let (fabric, fresh) = weave(alloc, job, count)?;
    let groups = groups_of(alloc, &fabric, fresh)?;
    Ok(Ready {
        job,
        workers,
        active,
        fabric,
        groups,
        places,
        done,
        drivers,
    })
}

/// A group for each driver.
fn groups_of<'a>(
    alloc: Global,
    fabric: &Fabric<'a>,
    drivers: Vec<Driver<'a>>,
) -> Result<Vec<Group<'a>>, OutOfMemory>
    requires are { AreDrivers fabric.now drivers.items }
    requires new { AreNew drivers.items }
    ensures { IfOk result (λ groups. AreGroups fabric.entry.now groups.items) }
{
    let mut groups = Vec::new(alloc);
    for driver in drivers {
        let group = group_of(alloc, fabric, driver)?;
        groups.push(group)?;
    }
    Ok(groups)
}

/// The group of a driver, for whose sequences the gate was not asked.
fn group_of<'a>(
    alloc: Global,
    fabric: &Fabric<'a>,
    driver: Driver<'a>,
) -> Result<Group<'a>, OutOfMemory>
    requires of { driver.fabric ≡ fabric.now }
    requires new { IsNew driver }
    ensures { IfOk result (λ group. group.driver ≡ driver.entry) }
{
    let asked = none_asked(alloc, fabric.sequences() as usize)?;
    Ok(Group { driver, asked })
}

/// For this many sequences that the gate was not asked for a step.
fn none_asked(alloc: Global, count: usize) -> Result<Vec<bool>, OutOfMemory>
    ensures { IfOk result (λ asked. vec_len asked ≡ count) }
{
    let mut asked = Vec::with_capacity(alloc, count)?;
    'sequences: for _sequence in 0..count {
        asked.push(false)?;
    }
    Ok(asked)
}
