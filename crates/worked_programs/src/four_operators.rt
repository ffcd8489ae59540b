//! A program for four operators that share a bus. The first sends what its sensor gives to the second, and the
//! third to the fourth.
use crate::moves::{Moves, play};
use crate::texts::Texts;
use std::test::Fail;

const ALGORITHM: &[u8] = b"algorithm 1
sensor Sense 1
actuator Act 1
graph main
ref s Sense
ref t Sense
ref a Act
ref b Act
edge s.o a.i
edge t.o b.i
end
";

const BUS: &[u8] = b"architecture 1
operator A
operator B
operator C
operator D
medium bus multi 1 1
connect bus A
connect bus B
connect bus C
connect bus D
";

const CODE: &[u8] = b"processor_(A)
semaphores_(0)
alloc_(b0,1)
thread_(bus)
Pre0_(0)
loop_
Suc1_(0)
send_(b0,B)
Pre0_(0)
sync_(C,D)
endloop_
endthread_
main_
spawn_thread_(bus)
loop_
Suc0_(0)
op s(;b0)
Pre1_(0)
endloop_
wait_endthread_(bus)
endmain_
processor_(B)
semaphores_(1)
alloc_(b1,1)
thread_(bus)
loop_
Suc0_(1)
recv_(b1,A)
Pre1_(1)
sync_(C,D)
endloop_
endthread_
main_
spawn_thread_(bus)
Pre0_(1)
loop_
Suc1_(1)
op a(b1;)
Pre0_(1)
endloop_
wait_endthread_(bus)
endmain_
processor_(C)
semaphores_(2)
alloc_(b2,1)
thread_(bus)
Pre0_(2)
loop_
sync_(A,B)
Suc1_(2)
send_(b2,D)
Pre0_(2)
endloop_
endthread_
main_
spawn_thread_(bus)
loop_
Suc0_(2)
op t(;b2)
Pre1_(2)
endloop_
wait_endthread_(bus)
endmain_
processor_(D)
semaphores_(3)
alloc_(b3,1)
thread_(bus)
loop_
sync_(A,B)
Suc0_(3)
recv_(b3,C)
Pre1_(3)
endloop_
endthread_
main_
spawn_thread_(bus)
Pre0_(3)
loop_
Suc1_(3)
op b(b3;)
Pre0_(3)
endloop_
wait_endthread_(bus)
endmain_
";

/// The program. In its order come the first operator and its send, the first receive, the third operator, its
/// wait and send, the second wait and receive, the waits of the first two, and then the second and the fourth
/// operator.
fn texts() -> Texts<'static> {
    Texts {
        algorithm: ALGORITHM,
        architecture: BUS,
        code: CODE,
        order: b"0001113334445555777713222666",
        rows: &[&[5, 10]],
    }
}

/// The last communicator, which begins with a wait for the first transfer, can make no step at first. So a list
/// that names it alone leaves all as it was: the first that can go on is the communicator that signals before its
/// loop that its buffer is empty.
fn waits() -> Moves<'static> {
    Moves {
        made: b"777",
        tried: b"7",
        letters: b"w",
        first: Some(1),
        values: &[0, 0],
    }
}

#[test]
fn a_communicator_waits_for_a_transfer_between_others(rt: HostRuntime) -> Result<(), Fail> {
    play(&rt, rt.alloc(), &texts(), &waits())
}
