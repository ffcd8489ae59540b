//! A program for two operators with a bus: a sensor and a function on the first operator, a function on the
//! second, and an actuator on each.
use crate::moves::{Moves, play};
use crate::texts::Texts;
use std::test::Fail;
use worked_parts::{BUS, TWICE, TWICE_CODE};

const CODE_OF_TWO_PLACES: &[u8] = b"processor_(P)
semaphores_(0)
alloc_(b0,1,2)
alloc_(b1,1)
thread_(bus)
Pre0_(0)
Pre0_(0)
loop_
Suc1_(0)
send_(b0,Q)
Pre0_(0)
endloop_
endthread_
main_
spawn_thread_(bus)
loop_
Suc0_(0)
op s(;b0)
Pre1_(0)
op f(b0;b1)
op a(b1;)
endloop_
wait_endthread_(bus)
endmain_
processor_(Q)
semaphores_(1)
alloc_(b2,1,2)
alloc_(b3,1)
thread_(bus)
loop_
Suc0_(1)
recv_(b2,P)
Pre1_(1)
endloop_
endthread_
main_
spawn_thread_(bus)
Pre0_(1)
Pre0_(1)
loop_
Suc1_(1)
op g(b2;b3)
Pre0_(1)
op b(b3;)
endloop_
wait_endthread_(bus)
endmain_
";

/// The program. In its order come the sensor, its function, the transfer, the other function with its actuator,
/// and the first actuator.
pub(crate) fn texts() -> Texts<'static> {
    Texts {
        algorithm: TWICE,
        architecture: BUS,
        code: TWICE_CODE,
        order: b"000011133322220",
        rows: &[&[5], &[-1], &[0]],
    }
}

/// The same, with two places in the buffers that pairs guard.
fn texts_of_two_places() -> Texts<'static> {
    Texts {
        code: CODE_OF_TWO_PLACES,
        ..texts()
    }
}

/// Moves to the end of three reactions. Each sequence answers then that it has made all, and none can go on.
fn to_the_end(made: &[u8]) -> Moves<'_> {
    Moves {
        made,
        tried: b"0123",
        letters: b"eeee",
        first: None,
        values: &[6, 6, 0, 0, 1, 1],
    }
}

/// Both prologues, and then reaction by reaction as the serial order names the sequences: the sensor and the first
/// function, the send, the receive, the other function with its actuator, and the first actuator.
const SERIAL: &[u8] = b"12000001111113333332222200000011111133333322222000000111111333333222220";

/// In each move the greatest sequence that can go on.
const GREATEST: &[u8] = b"23100011111333332222321000000111113333322223210000001111133333222221000";

/// The same where buffers have two places.
const GREATEST_OF_TWO_PLACES: &[u8] =
    b"2332110000111111333333322222210000000111111333333322222210000000111111333332222221000";

#[test]
fn any_order_leads_to_the_end(rt: HostRuntime) -> Result<(), Fail> {
    let alloc = rt.alloc();
    play(&rt, alloc, &texts(), &to_the_end(SERIAL))?;
    play(&rt, alloc, &texts(), &to_the_end(GREATEST))?;
    play(
        &rt,
        alloc,
        &texts_of_two_places(),
        &to_the_end(GREATEST_OF_TWO_PLACES),
    )
}
