//! Programs whose jobs are refused, since they would make more in 10,000 reactions than a job may.
use crate::texts::{Texts, Worked};
use std::alloc::Global;
use std::process::Abort;
use std::test::Fail;
use syn_base::{LimitFault, LimitKind};

/// A constant of 64 elements that a function reads 31 times: with what the function gives, 2,049 micro-steps in a
/// reaction.
const BUSY: &[u8] = b"algorithm 1
constant C = 0 0 0 0 0 0 0 0 0 0 0 0 0 0 0 0 0 0 0 0 0 0 0 0 0 0 0 0 0 0 0 0 0 0 0 0 0 0 0 0 0 0 0 0 0 0 0 0 0 0 0 0 0 0 0 0 0 0 0 0 0 0 0 0
function F
in x0 64
in x1 64
in x2 64
in x3 64
in x4 64
in x5 64
in x6 64
in x7 64
in x8 64
in x9 64
in x10 64
in x11 64
in x12 64
in x13 64
in x14 64
in x15 64
in x16 64
in x17 64
in x18 64
in x19 64
in x20 64
in x21 64
in x22 64
in x23 64
in x24 64
in x25 64
in x26 64
in x27 64
in x28 64
in x29 64
in x30 64
out y 1 = 0
end
graph main
ref c C
ref f F
edge c.o f.x0
edge c.o f.x1
edge c.o f.x2
edge c.o f.x3
edge c.o f.x4
edge c.o f.x5
edge c.o f.x6
edge c.o f.x7
edge c.o f.x8
edge c.o f.x9
edge c.o f.x10
edge c.o f.x11
edge c.o f.x12
edge c.o f.x13
edge c.o f.x14
edge c.o f.x15
edge c.o f.x16
edge c.o f.x17
edge c.o f.x18
edge c.o f.x19
edge c.o f.x20
edge c.o f.x21
edge c.o f.x22
edge c.o f.x23
edge c.o f.x24
edge c.o f.x25
edge c.o f.x26
edge c.o f.x27
edge c.o f.x28
edge c.o f.x29
edge c.o f.x30
end
";

const BUSY_CODE: &[u8] = b"processor_(P)
semaphores_()
alloc_(b0,64)
alloc_(b1,1)
main_
loop_
op c(;b0)
op f(b0,b0,b0,b0,b0,b0,b0,b0,b0,b0,b0,b0,b0,b0,b0,b0,b0,b0,b0,b0,b0,b0,b0,b0,b0,b0,b0,b0,b0,b0,b0;b1)
endloop_
endmain_
";

/// A constant of 64 elements that four actuators take: 256 in a reaction.
const BROAD: &[u8] = b"algorithm 1
constant C = 0 0 0 0 0 0 0 0 0 0 0 0 0 0 0 0 0 0 0 0 0 0 0 0 0 0 0 0 0 0 0 0 0 0 0 0 0 0 0 0 0 0 0 0 0 0 0 0 0 0 0 0 0 0 0 0 0 0 0 0 0 0 0 0
actuator A 64
graph main
ref c C
ref p A
ref q A
ref r A
ref s A
edge c.o p.i
edge c.o q.i
edge c.o r.i
edge c.o s.i
end
";

const BROAD_CODE: &[u8] = b"processor_(P)
semaphores_()
alloc_(b0,64)
main_
loop_
op c(;b0)
op p(b0;)
op q(b0;)
op r(b0;)
op s(b0;)
endloop_
endmain_
";

/// What no sensor gives in a reaction.
const NOTHING: &[i64] = &[];

/// A program for one operator over reactions in which no sensor gives anything.
fn texts<'a>(
    algorithm: &'a [u8],
    code: &'a [u8],
    order: &'a [u8],
    rows: &'a [&'a [i64]],
) -> Texts<'a> {
    Texts {
        algorithm,
        architecture: b"architecture 1\noperator P\n",
        code,
        order,
        rows,
    }
}

/// The limit by which the job of what was read of a program is refused.
fn limit_of(rt: &impl Abort, alloc: Global, worked: &Worked) -> Result<Option<LimitFault>, Fail> {
    Ok(worked.limited_job(rt, alloc)?.err())
}

/// The job of a program is refused by this limit, which it is above by that count.
fn refuse(rt: &impl Abort, alloc: Global, texts: &Texts, fault: LimitFault) -> Result<(), Fail> {
    let worked = Worked::read(rt, alloc, texts)?;
    assert_eq!(rt; limit_of(rt, alloc, &worked)?, Some(fault));
    Ok(())
}

/// Each program runs over as many reactions as a table may have.
#[test]
fn a_job_above_a_limit_is_refused(rt: HostRuntime) -> Result<(), Fail> {
    let alloc = rt.alloc();
    let rows = vec![in alloc; NOTHING; 10_000]?;
    let steps = LimitFault {
        which: LimitKind::Total,
        count: 20_490_000,
        bound: 20_000_000,
    };
    refuse(&rt, alloc, &texts(BUSY, BUSY_CODE, b"00", &rows), steps)?;
    let output = LimitFault {
        which: LimitKind::Output,
        count: 2_560_000,
        bound: 2_000_000,
    };
    refuse(
        &rt,
        alloc,
        &texts(BROAD, BROAD_CODE, b"00000", &rows),
        output,
    )
}
