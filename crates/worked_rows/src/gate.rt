//! The gate of a call, and what it has seen. `call` makes it.

use crate::script::GateKind;
use std::io;
use worked_parts::{Counting, Gate, GateFree, Holding, Meeting};

/// What is asked before each step of a call: one type for all kinds of gates, so that the program is made for one.
#[derive(Drop)]
pub enum CallGate {
    Free(GateFree),
    Meeting(Meeting),
    Counting(Counting),
    Holding(Holding),
}

impl CallGate {
    /// A gate of this kind, which nobody has asked yet.
    pub fn new(kind: GateKind) -> CallGate {
        match kind {
            GateKind::Free => CallGate::Free(GateFree),
            GateKind::Meeting(sequences) => CallGate::Meeting(Meeting::of(sequences)),
            GateKind::Counting => CallGate::Counting(Counting::new()),
            GateKind::Holding => CallGate::Holding(Holding::new()),
        }
    }

    /// What it has seen.
    pub fn seen(&self) -> Seen {
        match self {
            CallGate::Free(_) => Seen::Nothing,
            CallGate::Meeting(gate) => Seen::Meeting {
                came: gate.came(),
                given_up: gate.given_up(),
            },
            CallGate::Counting(gate) => Seen::Counting {
                asked: gate.asked(),
                out_of_turn: gate.out_of_turn(),
            },
            CallGate::Holding(gate) => Seen::Holding {
                at_release: gate.at_release(),
            },
        }
    }
}

impl Gate for CallGate {
    fn pass(&self, seq: u32, n: u64) {
        match self {
            CallGate::Free(gate) => gate.pass(seq, n),
            CallGate::Meeting(gate) => gate.pass(seq, n),
            CallGate::Counting(gate) => gate.pass(seq, n),
            CallGate::Holding(gate) => gate.pass(seq, n),
        }
    }
}

/// What a gate has seen.
#[derive(Clone, Copy)]
pub enum Seen {
    /// Nothing is told of it.
    Nothing,
    /// How many of the sequences that were to meet have come, and how often one waited in vain.
    Meeting { came: u64, given_up: u64 },
    /// How many steps it was asked for of each sequence, and how many of these came out of turn.
    Counting { asked: [u64; 4], out_of_turn: u64 },
    /// For which step sequence 0 was asked last when sequence 1 was let go.
    Holding { at_release: u64 },
}

impl Seen {
    /// Writes it into the transcript, where anything is told.
    pub fn write(&self, rt: &impl Print) -> io::Result<()> {
        match self {
            Seen::Nothing => Ok(()),
            Seen::Meeting { came, given_up } => {
                println!(rt; "gate: {came} came, {given_up} gave up")
            }
            Seen::Counting {
                asked: [a, b, c, d],
                out_of_turn,
            } => { println!(rt; "gate: asked {a} {b} {c} {d}, out of turn {out_of_turn}") }
            Seen::Holding { at_release } => println!(rt; "gate: let go at step {at_release}"),
        }
    }
}
