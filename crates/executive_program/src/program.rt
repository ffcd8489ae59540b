//! Programs: for each sequence of the architecture the instructions of its prologue and of its loop.
use archi_graph::Seq;
use syn_base::Items;

/// An instruction of the macro-code. `Pre` signals a semaphore and `Suc` waits for it; of a pair 0 is
/// the empty semaphore and 1 the full one (this project's profile).
#[derive(Drop)]
pub enum Instr {
    /// Waits for the empty semaphore of a pair: the writer does, before it writes.
    Suc0(u32),
    /// Waits for the full semaphore of a pair: the reader does, before it reads.
    Suc1(u32),
    /// Signals the empty semaphore of a pair: the reader does, after its last read.
    Pre0(u32),
    /// Signals the full semaphore of a pair: the writer does, after it wrote.
    Pre1(u32),
    /// One operation of the flat graph, from buffers into buffers.
    Call {
        vertex: u32,
        ins: Items<u32>,
        outs: Items<u32>,
    },
    /// Sends a buffer over the communicator's medium to an operator.
    Send {
        buffer: u32,
        to: u32,
    },
    /// Receives a buffer over the communicator's medium from an operator.
    Recv {
        buffer: u32,
        from: u32,
    },
    /// Waits until a transfer between two other operators is over.
    Sync {
        from: u32,
        to: u32,
    },
}

/// A buffer on an operator, of `depth` places of `len` elements.
#[derive(Clone, Copy, Drop)]
pub struct Buffer {
    pub operator: u32,
    pub len: u32,
    pub depth: u32,
}

/// The code of one sequence: a prologue, which is made once, and a loop, which is made in each reaction.
#[derive(Drop)]
pub struct SeqCode {
    pub seq: Seq,
    pub prologue: Items<Instr>,
    pub turn: Items<Instr>,
}

/// A program: its buffers, the operator of each pair of semaphores, and the code of each sequence.
pub struct Program {
    pub buffers: Items<Buffer>,
    pub pairs: Items<u32>,
    pub seqs: Items<SeqCode>,
}

/// By hand, so that a proof walks through what it drops here alone, and not on each way out of each
/// function that owns one.
impl Drop for Program {
    fn drop(self) {
        let Program {
            buffers: _,
            pairs: _,
            seqs: _,
        } = self;
    }
}

impl Program {
    ghost use Rattle.std.specs.Prelude.{◌≡◌};

    /// Its buffers, the operators of its pairs, and the code of each sequence.
    pub fn into_parts(self) -> (Items<Buffer>, Items<u32>, Items<SeqCode>)
        ensures buffers { result.0 ≡ self.buffers }
        ensures pairs { result.1 ≡ self.pairs }
        ensures seqs { result.2 ≡ self.seqs }
    {
        let Program {
            buffers,
            pairs,
            seqs,
        } = self;
        (buffers, pairs, seqs)
    }
}
