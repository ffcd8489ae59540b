//! A run by one driver of all sequences, for `run_alone`.
ghost use Rattle.std.specs.Prelude.{◌≡◌};
ghost use Rattle.word_rule.specs.Driven.{driven_by};
ghost use Rattle.word_table.specs.Closed.{IsAtEnd};
ghost use Rattle.executive_run.specs.Each.{Each};
ghost use Rattle.executive_run.specs.Groups.{Belongs, IsDriven};
ghost use Rattle.executive_run.specs.Prepared.{AreGroups};

use crate::group::Group;
use crate::ready::Ready;
use crate::together::drivers_of;
use outside::Gate;
use semaphore_core::Job;
use word_rule::job_has_laws;
use word_table::{Closed, Driven, Fabric};

/// Runs a job by one driver.
pub fn run<'a, G: Gate>(ready: Ready<'a>, gate: &G, driven: &mut Driven) -> Closed
    requires { ready.workers ≡ 1 }
    ensures driven { driven.new ≡ driven_by ready.entry.job driven.old }
    ensures closed { IsAtEnd ready.entry.job result }
{
    let Ready {
        job,
        workers: _,
        active: _,
        fabric,
        groups,
        places: _,
        done: _,
        drivers,
    } = ready;
    let groups = drive_first(job, &fabric, gate, groups);
    let drivers = drivers_of(&fabric, groups, drivers);
    fabric.close(drivers, driven)
}

/// Drives the one group.
fn drive_first<'a, G: Gate>(
    job: &Job,
    fabric: &Fabric<'a>,
    gate: &G,
    mut groups: Vec<Group<'a>>,
) -> Vec<Group<'a>>
    requires job { fabric.now.job ≡ job.now }
    requires alone { fabric.now.groups ≡ 1 }
    requires groups { AreGroups fabric.now groups.items }
    ensures groups { AreGroups fabric.entry.now result.items }
    ensures driven { Each (λ k. IsDriven) result.items }
{
    drive(job, fabric, gate, &mut groups[0]);
    groups
}

/// Drives all sequences to their ends. In each turn but the last some step is made.
fn drive<'a, G: Gate>(job: &Job, fabric: &Fabric<'a>, gate: &G, group: &mut Group<'a>)
    requires job { fabric.now.job ≡ job.now }
    requires alone { fabric.now.groups ≡ 1 }
    requires belongs { Belongs fabric.now 0 group.old }
    ensures belongs { Belongs fabric.now 0 group.new }
    ensures driven { IsDriven group.new }
{
    job_has_laws(job);
    'turns: loop {
        let progress = group.turn(fabric, gate);
        if progress.waiting == 0 {
            return;
        }
    }
}
