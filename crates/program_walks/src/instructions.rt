//! The kind of an instruction, and the buffers that it reads and writes.
ghost use Rattle.std.specs.Prelude.{◌≡◌, nat_eq};
ghost use Rattle.std.specs.List.{list_any, count_by};
ghost use Rattle.executive_program.specs.Instructions.{is_communication, reads, writes};
ghost use Rattle.executive_program.specs.Places.{calls, signals_empty, signals_full, takes_empty, takes_full};

use executive_program::Instr;

/// Whether a number is among these.
pub fn is_among(list: &[u32], number: usize) -> bool
    ensures { result ≡ list_any (λ c. nat_eq c number) list.now }
{
    list.iter().any(|entry| *entry as usize == number)
}

/// Whether an instruction is a communication.
pub fn is_communication(instr: &Instr) -> bool
    ensures { result ≡ is_communication instr.now }
{
    match instr {
        Instr::Send { .. } | Instr::Recv { .. } | Instr::Sync { .. } => true,
        _ => false,
    }
}

/// How many of these instructions are communications.
pub fn count_communications(list: &[Instr]) -> usize
    ensures { result ≡ count_by is_communication list.now }
{
    list.iter().filter(|instr| is_communication(*instr)).count()
}

/// Whether an instruction reads a buffer.
pub fn reads(instr: &Instr, buffer: usize) -> bool
    ensures { result ≡ reads buffer instr.now }
{
    match instr {
        Instr::Call { ins, .. } => is_among(ins.as_slice(), buffer),
        Instr::Send { buffer: sent, .. } => *sent as usize == buffer,
        _ => false,
    }
}

/// Whether an instruction writes a buffer.
pub fn writes(instr: &Instr, buffer: usize) -> bool
    ensures { result ≡ writes buffer instr.now }
{
    match instr {
        Instr::Call { outs, .. } => is_among(outs.as_slice(), buffer),
        Instr::Recv {
            buffer: received,
            ..
        } => *received as usize == buffer,
        _ => false,
    }
}

/// Whether an instruction waits for the empty semaphore of a pair.
pub fn takes_empty(instr: &Instr, pair: usize) -> bool
    ensures { result ≡ takes_empty pair instr.now }
{
    match instr {
        Instr::Suc0(named) => *named as usize == pair,
        _ => false,
    }
}

/// Whether an instruction waits for the full semaphore of a pair.
pub fn takes_full(instr: &Instr, pair: usize) -> bool
    ensures { result ≡ takes_full pair instr.now }
{
    match instr {
        Instr::Suc1(named) => *named as usize == pair,
        _ => false,
    }
}

/// Whether an instruction signals the empty semaphore of a pair.
pub fn signals_empty(instr: &Instr, pair: usize) -> bool
    ensures { result ≡ signals_empty pair instr.now }
{
    match instr {
        Instr::Pre0(named) => *named as usize == pair,
        _ => false,
    }
}

/// Whether an instruction signals the full semaphore of a pair.
pub fn signals_full(instr: &Instr, pair: usize) -> bool
    ensures { result ≡ signals_full pair instr.now }
{
    match instr {
        Instr::Pre1(named) => *named as usize == pair,
        _ => false,
    }
}

/// Whether an instruction calls an operation.
pub fn calls(instr: &Instr, operation: usize) -> bool
    ensures { result ≡ calls operation instr.now }
{
    match instr {
        Instr::Call { vertex, .. } => *vertex as usize == operation,
        _ => false,
    }
}
