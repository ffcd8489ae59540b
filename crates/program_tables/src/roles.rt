//! The roles in which an instruction names operations, buffers and pairs of semaphores.
ghost use Rattle.std.specs.Prelude.{◌≡◌};
ghost use Rattle.program_tables.specs.Marks.{named};

use executive_program::Instr;
use std::slice::from_ref;

/// As what an instruction names a number.
#[derive(Clone, Copy, Drop)]
pub enum Role {
    /// The operation that it calls.
    Called,
    /// A buffer that it writes.
    Written,
    /// A buffer that it reads.
    Read,
    /// The pair of whose empty semaphore it waits for a signal.
    EmptyTaken,
    /// The pair whose full semaphore it signals.
    FullSignalled,
    /// The pair of whose full semaphore it waits for a signal.
    FullTaken,
    /// The pair whose empty semaphore it signals.
    EmptySignalled,
}

/// The operation that an instruction calls.
fn operation_called(instr: &Instr) -> &[u32]
    ensures { result.now ≡ named Role.Called instr.now }
{
    match instr {
        Instr::Call { vertex, .. } => from_ref(vertex),
        _ => &[],
    }
}

/// The buffers that an instruction writes.
fn buffers_written(instr: &Instr) -> &[u32]
    ensures { result.now ≡ named Role.Written instr.now }
{
    match instr {
        Instr::Call { outs, .. } => outs.as_slice(),
        Instr::Recv { buffer, .. } => from_ref(buffer),
        _ => &[],
    }
}

/// The buffers that an instruction reads.
fn buffers_read(instr: &Instr) -> &[u32]
    ensures { result.now ≡ named Role.Read instr.now }
{
    match instr {
        Instr::Call { ins, .. } => ins.as_slice(),
        Instr::Send { buffer, .. } => from_ref(buffer),
        _ => &[],
    }
}

/// The pair of whose empty semaphore an instruction waits for a signal.
fn empty_taken(instr: &Instr) -> &[u32]
    ensures { result.now ≡ named Role.EmptyTaken instr.now }
{
    match instr {
        Instr::Suc0(pair) => from_ref(pair),
        _ => &[],
    }
}

/// The pair whose full semaphore an instruction signals.
fn full_signalled(instr: &Instr) -> &[u32]
    ensures { result.now ≡ named Role.FullSignalled instr.now }
{
    match instr {
        Instr::Pre1(pair) => from_ref(pair),
        _ => &[],
    }
}

/// The pair of whose full semaphore an instruction waits for a signal.
fn full_taken(instr: &Instr) -> &[u32]
    ensures { result.now ≡ named Role.FullTaken instr.now }
{
    match instr {
        Instr::Suc1(pair) => from_ref(pair),
        _ => &[],
    }
}

/// The pair whose empty semaphore an instruction signals.
fn empty_signalled(instr: &Instr) -> &[u32]
    ensures { result.now ≡ named Role.EmptySignalled instr.now }
{
    match instr {
        Instr::Pre0(pair) => from_ref(pair),
        _ => &[],
    }
}

/// The numbers that an instruction names in a role.
pub fn numbers_named(role: Role, instr: &Instr) -> &[u32]
    ensures { result.now ≡ named role instr.now }
{
    match role {
        Role::Called => operation_called(instr),
        Role::Written => buffers_written(instr),
        Role::Read => buffers_read(instr),
        Role::EmptyTaken => empty_taken(instr),
        Role::FullSignalled => full_signalled(instr),
        Role::FullTaken => full_taken(instr),
        Role::EmptySignalled => empty_signalled(instr),
    }
}
