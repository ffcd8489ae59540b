//! Registers read into the vectors of ports, for `Desk::read`.
ghost use Rattle.std.specs.Prelude.{◌≡◌, ◌+◌, ◌^◌, ◌<◌, ◌≤◌, length, map, take, drop, sum, slice_set};
ghost use Rattle.operation_desks.specs.Operation.{vector_in, ReadsPorts};
ghost use Rattle.syn_base.specs.Vectors.{vector_at};

use crate::registers::Registers;
use executive_program::Ins;

/// Puts registers, from this one on, in the vector of a port.
fn read_vector(ins: &mut Ins, port: usize, registers: &Registers, at: u128)
    requires port { port < length ins.old }
    requires fits { at + 2 ^ 64 < 2 ^ 128 }
    ensures { ins.new ≡ slice_set ins.old port (vector_in registers.now.values at (length (vector_at ins.old port))) }
{
    let len = ins.vector(port).len();
    for j in 0..len {
        ins.set(port, j, registers.get_wide(at + j as u128));
    }
}

/// Puts registers, from this one on, in the vectors of this many ports, and gives the number of the
/// register after them.
pub fn read_ports(ins: &mut Ins, first: u32, count: u32, registers: &Registers, at: u128) -> u128
    requires ports { first + count ≤ length ins.old }
    requires fits { at ≤ 2 ^ 100 }
    ensures ins { ReadsPorts registers.now.values at first count ins.old ins.new }
    ensures after { result ≡ at + sum (take count (drop first (map length ins.old))) }
    ensures bound { result ≤ at + 2 ^ 96 }
{
    let mut next = at;
    for i in 0..count {
        let port = first as usize + i as usize;
        read_vector(ins, port, registers, next);
        next += ins.vector(port).len() as u128;
    }
    next
}
