//! The check of the program of a schedule.
use crate::stages::{Site, build_program, find_schedule, two_operators};
use macro_check::{loops_are_short, macro_check};
use order_check::is_order;
use sequence_build_laws::Program;
use std::alloc::Global;
use std::test::Fail;

/// The program of the schedule of a site.
fn built(alloc: Global, site: &Site) -> Result<Program, Fail> {
    let schedule = find_schedule(alloc, site)?;
    Ok(build_program(alloc, site, &schedule)?)
}

/// The order names the sequence of each of the fifteen instructions of the loops.
#[test]
fn the_check_finds_a_serial_order(rt: HostRuntime) -> Result<(), Fail> {
    let alloc = rt.alloc();
    let site = two_operators(&rt, alloc)?;
    let program = built(alloc, &site)?;
    assert!(rt; loops_are_short(&program));
    let found = macro_check(alloc, &site.flat, &site.text.archi, &program).ok();
    let order = found.ok_or("no serial order")?;
    assert_eq!(rt; order.len(), 15);
    assert!(rt; is_order(&program, &site.flat, &site.text.archi, order.as_slice()));
    Ok(())
}
