//! References: long chains of them, whose depths are found in time in proportion to the links (`reference_graph`).
use algo_laws::{Depths, are_inside, depths_of};
use std::alloc::Global;
use std::process::Abort;
use std::test::Fail;
use syn_base::Items;

/// The depths of 300,000 vertices, of which each refers to the next, and the last one to these.
fn depths(rt: &impl Abort, alloc: Global, last: &[u32]) -> Result<Depths, Fail> {
    let mut links = Vec::with_capacity(alloc, 300_000)?;
    for next in 1..300_000u32 {
        links.push(Items::new(Vec::from_slice(alloc, &[next])?))?;
    }
    links.push(Items::new(Vec::from_slice(alloc, last)?))?;
    assert!(rt; are_inside(&links));
    assert!(rt; links.len() <= 300_000);
    Ok(depths_of(alloc, &links)?)
}

#[test]
fn a_chain_may_be_long(rt: HostRuntime) -> Result<(), Fail> {
    let first = match depths(&rt, rt.alloc(), &[])? {
        Depths::Recursive(_) => None,
        Depths::Of(own) => own.as_slice().first().copied(),
    };
    assert_eq!(rt; first, Some(300_000));
    Ok(())
}

#[test]
fn a_long_chain_may_lead_to_a_cycle(rt: HostRuntime) -> Result<(), Fail> {
    let first = match depths(&rt, rt.alloc(), &[299_998])? {
        Depths::Recursive(first) => Some(first),
        Depths::Of(_) => None,
    };
    assert_eq!(rt; first, Some(299_998));
    Ok(())
}
