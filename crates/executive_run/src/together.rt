//! A run by workers who share all groups, for `run_ready`.
ghost use Rattle.std.specs.Prelude.{◌≡◌, vec_len, vec_capacity};
ghost use Rattle.word_rule.specs.Driven.{driven_by};
ghost use Rattle.word_table.specs.Closed.{IsAtEnd};
ghost use Rattle.word_table.specs.Driver.{AreDrivers, AreFinished};
ghost use Rattle.executive_run.specs.Each.{Each};
ghost use Rattle.executive_run.specs.Groups.{IsDriven};
ghost use Rattle.executive_run.specs.Places.{ArePlaces};
ghost use Rattle.executive_run.specs.Prepared.{AreGroups, IsRoom};

use crate::crew::Crew;
use crate::group::{Ask, Group};
use crate::place::Place;
use crate::ready::Ready;
use outside::Gate;
use std::sync::Wait;
use std::sync::atomic::AtomicU64;
use std::thread;
use std::thread::{Scope, Threads};
use word_table::{Closed, Driven, Driver, Fabric};

impl<G: Gate> Ask for G {
    fn ask(&self, seq: u32, n: u64) {
        self.pass(seq, n);
    }
}

/// Runs a job by its workers.
pub fn run<'a, R: Threads + Wait + Sync, G: Gate>(
    rt: &R,
    ready: Ready<'a>,
    gate: &G,
    driven: &mut Driven,
) -> Closed
    ensures driven { driven.new ≡ driven_by ready.entry.job driven.old }
    ensures closed { IsAtEnd ready.entry.job result }
{
    let Ready {
        job: _,
        workers: _,
        active,
        fabric,
        groups,
        places,
        done,
        drivers,
    } = ready;
    let places = places_of(&fabric, groups, places);
    let groups = drive_all(rt, &fabric, gate, &places, done, active);
    let drivers = drivers_of(&fabric, groups, drivers);
    fabric.close(drivers, driven)
}

/// Puts each group into its place.
fn places_of<'a>(
    fabric: &Fabric<'a>,
    groups: Vec<Group<'a>>,
    mut places: Vec<Place<'a>>,
) -> Vec<Place<'a>>
    requires groups { AreGroups fabric.now groups.items }
    requires room { IsRoom fabric.now.groups (vec_len places) (vec_capacity places) }
    ensures { ArePlaces fabric.entry.now result.items }
{
    for group in groups {
        let place = Place::new(fabric, group);
        places.push_reserved(place);
    }
    places
}

/// Starts a thread for each of these workers but the first. One that cannot be started is not missed.
fn start<'s, 'e, 'a, R: Wait + Sync, G: Ask + Sync>(
    scope: &Scope<'s, &'e ()>,
    crew: Crew<'s, 'a, R, G>,
    workers: usize,
) {
    for worker in 1..workers {
        let _ = scope.spawn(move || crew.work(worker));
    }
}

/// Drives all groups to their ends by this many workers.
fn drive_all<'x, 'a, R: Threads + Wait + Sync, G: Gate>(
    rt: &'x R,
    fabric: &'x Fabric<'a>,
    gate: &'x G,
    places: &'x [Place<'a>],
    done: Vec<Group<'a>>,
    workers: usize,
) -> Vec<Group<'a>>
    requires places { ArePlaces fabric.now places.now }
    requires done { IsRoom fabric.now.groups (vec_len done) (vec_capacity done) }
    ensures groups { AreGroups fabric.now result.items }
    ensures driven { Each (λ k. IsDriven) result.items }
{
    let unfinished = AtomicU64::new(u64::from(fabric.groups()));
    let at_work = AtomicU64::new(0);
    let crew = Crew {
        rt,
        fabric,
        gate,
        places,
        unfinished: &unfinished,
        at_work: &at_work,
    };
    thread::scope(thread::scope_env(), rt, |scope| {
        start(scope, crew, workers);
        crew.work(0);
    });
    crew.collect(done)
}

/// The drivers of groups that are driven.
pub fn drivers_of<'a>(
    fabric: &Fabric<'a>,
    groups: Vec<Group<'a>>,
    mut drivers: Vec<Driver<'a>>,
) -> Vec<Driver<'a>>
    requires groups { AreGroups fabric.now groups.items }
    requires driven { Each (λ k. IsDriven) groups.items }
    requires room { IsRoom fabric.now.groups (vec_len drivers) (vec_capacity drivers) }
    ensures drivers { AreDrivers fabric.entry.now result.items }
    ensures finished { AreFinished result.items }
{
    for group in groups {
        let Group { driver, asked: _ } = group;
        drivers.push_reserved(driver);
    }
    drivers
}
