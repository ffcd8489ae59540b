//! Routes and their levels.
use crate::stages::read_architecture;
use pressure_heuristic::{Routes, routes_of};
use sequence_build_laws::Hop;
use std::alloc::Global;
use std::process::Abort;
use std::test::Fail;

/// Three operators in a row.
const ROW: &[u8] = b"architecture 1
operator A
operator B
operator C
medium x p2p 1 1
medium y p2p 1 1
connect x A
connect x B
connect y B
connect y C
";

/// Four operators around a square, so that there are two ways from corner to corner.
const SQUARE: &[u8] = b"architecture 1
operator A
operator B
operator C
operator D
medium m0 p2p 1 1
medium m1 p2p 1 1
medium m2 p2p 1 1
medium m3 p2p 1 1
connect m0 A
connect m0 B
connect m1 A
connect m1 C
connect m2 B
connect m2 D
connect m3 C
connect m3 D
";

/// The routes of the architecture of a text.
fn routes_in(rt: &impl Abort, alloc: Global, text: &[u8]) -> Result<Routes, Fail> {
    assert!(rt; text.len() <= 4000);
    let text = read_architecture(alloc, text)?;
    Ok(routes_of(alloc, &text.archi)?)
}

#[test]
fn a_route_over_two_hops_has_level_two(rt: HostRuntime) -> Result<(), Fail> {
    let routes = routes_in(&rt, rt.alloc(), ROW)?;
    assert_eq!(rt; routes.operators(), 3);
    let x_then_y = [Hop { medium: 0, to: 1 }, Hop { medium: 1, to: 2 }];
    assert!(rt; routes.route(0, 2) == x_then_y.as_slice());
    assert_eq!(rt; routes.level(0, 2), 2);
    assert_eq!(rt; routes.level(1, 2), 1);
    assert_eq!(rt; routes.level(2, 2), 0);
    Ok(())
}

#[test]
fn of_two_ways_the_one_over_the_lesser_media_is_taken(rt: HostRuntime) -> Result<(), Fail> {
    let routes = routes_in(&rt, rt.alloc(), SQUARE)?;
    assert_eq!(rt; routes.operators(), 4);
    let past_b = [Hop { medium: 0, to: 1 }, Hop { medium: 2, to: 3 }];
    assert!(rt; routes.route(0, 3) == past_b.as_slice());
    assert_eq!(rt; routes.level(0, 3), 2);
    Ok(())
}
