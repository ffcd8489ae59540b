//! Texts that tests of several crates read.

/// Two operators at a bus.
pub const BUS: &[u8] = b"architecture 1
operator P
operator Q
medium bus p2p 1 1
connect bus P
connect bus Q
";

/// A sensor, a function that adds 1, twice, and an actuator for each result.
pub const TWICE: &[u8] = b"algorithm 1
sensor Sense 1
actuator Act 1
function F
in x 1
out y 1 = add(x[0],1)
end
graph main
ref s Sense
ref f F
ref g F
ref a Act
ref b Act
edge s.o f.x
edge s.o g.x
edge f.y a.i
edge g.y b.i
end
";

/// The macro-code of `TWICE` for two operators at a bus, `P` with the sensor, `f` and `a`, and `Q` with the
/// others.
pub const TWICE_CODE: &[u8] = b"processor_(P)
semaphores_(0)
alloc_(b0,1)
alloc_(b1,1)
thread_(bus)
Pre0_(0)
loop_
Suc1_(0)
send_(b0,Q)
Pre0_(0)
endloop_
endthread_
main_
spawn_thread_(bus)
loop_
Suc0_(0)
op s(;b0)
Pre1_(0)
op f(b0;b1)
op a(b1;)
endloop_
wait_endthread_(bus)
endmain_
processor_(Q)
semaphores_(1)
alloc_(b2,1)
alloc_(b3,1)
thread_(bus)
loop_
Suc0_(1)
recv_(b2,P)
Pre1_(1)
endloop_
endthread_
main_
spawn_thread_(bus)
Pre0_(1)
loop_
Suc1_(1)
op g(b2;b3)
Pre0_(1)
op b(b3;)
endloop_
wait_endthread_(bus)
endmain_
";
