//! A run in which a computation runs ahead of two communicators: a program for three operators, of which
//! the first sends what its sensor gives to each other one over a medium of its own.
use crate::moves::{Moves, play};
use crate::texts::Texts;
use std::test::Fail;

const ALGORITHM: &[u8] = b"algorithm 1
sensor Sense 1
actuator Act 1
function OneMore
in x 1
out y 1 = add(x[0],1)
end
graph main
ref s Sense
ref f OneMore
ref g OneMore
ref h OneMore
ref a Act
ref b Act
ref c Act
edge s.o f.x
edge s.o g.x
edge s.o h.x
edge f.y a.i
edge g.y b.i
edge h.y c.i
end
";

const ARCHITECTURE: &[u8] = b"architecture 1
operator P
operator Q
operator R
medium x p2p 1 1
medium y p2p 1 1
connect x P
connect x Q
connect y P
connect y R
";

const CODE: &[u8] = b"processor_(P)
semaphores_(0,1)
alloc_(b0,1)
alloc_(b5,1)
thread_(x)
Pre0_(0)
loop_
Suc1_(0)
send_(b0,Q)
Pre0_(0)
endloop_
endthread_
thread_(y)
Pre0_(1)
loop_
Suc1_(1)
send_(b0,R)
Pre0_(1)
endloop_
endthread_
main_
spawn_thread_(x)
spawn_thread_(y)
loop_
Suc0_(0)
Suc0_(1)
op s(;b0)
Pre1_(0)
Pre1_(1)
op f(b0;b5)
op a(b5;)
endloop_
wait_endthread_(x)
wait_endthread_(y)
endmain_
processor_(Q)
semaphores_(2)
alloc_(b1,1)
alloc_(b3,1)
thread_(x)
loop_
Suc0_(2)
recv_(b1,P)
Pre1_(2)
endloop_
endthread_
main_
spawn_thread_(x)
Pre0_(2)
loop_
Suc1_(2)
op g(b1;b3)
Pre0_(2)
op b(b3;)
endloop_
wait_endthread_(x)
endmain_
processor_(R)
semaphores_(3)
alloc_(b2,1)
alloc_(b4,1)
thread_(y)
loop_
Suc0_(3)
recv_(b2,P)
Pre1_(3)
endloop_
endthread_
main_
spawn_thread_(y)
Pre0_(3)
loop_
Suc1_(3)
op h(b2;b4)
Pre0_(3)
op c(b4;)
endloop_
wait_endthread_(y)
endmain_
";

const CODE_OF_TWO_PLACES: &[u8] = b"processor_(P)
semaphores_(0,1)
alloc_(b0,1,2)
alloc_(b5,1)
thread_(x)
Pre0_(0)
Pre0_(0)
loop_
Suc1_(0)
send_(b0,Q)
Pre0_(0)
endloop_
endthread_
thread_(y)
Pre0_(1)
Pre0_(1)
loop_
Suc1_(1)
send_(b0,R)
Pre0_(1)
endloop_
endthread_
main_
spawn_thread_(x)
spawn_thread_(y)
loop_
Suc0_(0)
Suc0_(1)
op s(;b0)
Pre1_(0)
Pre1_(1)
op f(b0;b5)
op a(b5;)
endloop_
wait_endthread_(x)
wait_endthread_(y)
endmain_
processor_(Q)
semaphores_(2)
alloc_(b1,1,2)
alloc_(b3,1)
thread_(x)
loop_
Suc0_(2)
recv_(b1,P)
Pre1_(2)
endloop_
endthread_
main_
spawn_thread_(x)
Pre0_(2)
Pre0_(2)
loop_
Suc1_(2)
op g(b1;b3)
Pre0_(2)
op b(b3;)
endloop_
wait_endthread_(x)
endmain_
processor_(R)
semaphores_(3)
alloc_(b2,1,2)
alloc_(b4,1)
thread_(y)
loop_
Suc0_(3)
recv_(b2,P)
Pre1_(3)
endloop_
endthread_
main_
spawn_thread_(y)
Pre0_(3)
Pre0_(3)
loop_
Suc1_(3)
op h(b2;b4)
Pre0_(3)
op c(b4;)
endloop_
wait_endthread_(y)
endmain_
";

/// The program, with what its sensor gives. In its order the sensor comes first, then both transfers, the first
/// operator's function and actuator, and those of the others.
fn texts() -> Texts<'static> {
    Texts {
        algorithm: ALGORITHM,
        architecture: ARCHITECTURE,
        code: CODE,
        order: b"000001112224446660033335555",
        rows: &[&[5], &[7], &[9]],
    }
}

/// The same, with two places in the buffers that pairs guard.
fn texts_of_two_places() -> Texts<'static> {
    Texts {
        code: CODE_OF_TWO_PLACES,
        ..texts()
    }
}

/// When both communicators have signalled, the computation makes as many reactions as its buffer has places, and no
/// more. When one of them has sent, it takes that one's signal and waits for the other's. The one that has sent waits
/// for the computation then, and the other one can go on.
fn ahead() -> Moves<'static> {
    Moves {
        made: b"",
        tried: b"1200000000011111100",
        letters: b"sssssssssswsssssssw",
        first: Some(2),
        values: &[6, 0, 0, 0, 0, 0, 0, 0, 0],
    }
}

/// The same with two places: the computation is a reaction further, and the one that has sent finds another value.
fn ahead_of_two_places() -> Moves<'static> {
    Moves {
        made: b"",
        tried: b"11220000000000000000000001111111000",
        letters: b"sssssssssssssssssssssssswsssssssssw",
        first: Some(1),
        values: &[6, 0, 0, 8, 0, 0, 0, 0, 0],
    }
}

#[test]
fn a_computation_runs_ahead_as_far_as_there_are_places(rt: HostRuntime) -> Result<(), Fail> {
    play(&rt, rt.alloc(), &texts(), &ahead())?;
    play(
        &rt,
        rt.alloc(),
        &texts_of_two_places(),
        &ahead_of_two_places(),
    )
}
