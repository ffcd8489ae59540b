//! Where sequences and names are wrong.
ghost use Rattle.std.specs.Prelude.{◌≡◌, Some};
ghost use Rattle.sequence_build_laws.specs.declared.SeqCode.{SeqCode};
ghost use Rattle.sequence_build_laws.specs.Instructions.{same_medium};
ghost use Rattle.order_check.specs.Sequenced.{is_of};
ghost use Rattle.check_places.specs.First.{first_from};
ghost use Rattle.check_places.specs.Names.{name_place, names_place, sequence_place};

use crate::first::{broken, first_of, spot_at, unless};
use crate::place::{Part, Place, Rule, Subject};
use macro_check::is_there;
use sequence_build_laws::{Instr, Program, Seq, SeqCode};

/// How many operations and operators there are.
#[derive(Clone, Copy, Drop)]
pub struct Known {
    pub operations: usize,
    pub operators: usize,
}

/// Whether two media are the same, or both are none.
fn is_same_medium(medium: Option<u32>, other: Option<u32>) -> bool
    ensures { result ≡ same_medium medium other }
{
    match (medium, other) {
        (Some(medium), Some(other)) => medium == other,
        (None, None) => true,
        _ => false,
    }
}

/// Whether the code is that of a sequence.
fn is_of(code: &SeqCode, seq: Seq) -> bool
    ensures { result ≡ is_of (Some code.now) seq }
{
    code.seq.operator == seq.operator && is_same_medium(code.seq.medium, seq.medium)
}

/// The first sequence that is another one than the architecture has there.
fn sequence_place(codes: &[SeqCode], seqs: &[Seq]) -> Option<Place>
    ensures { result ≡ sequence_place 0 codes.now seqs.now }
{
    for (sequence, code) in codes.iter().enumerate() {
        if sequence >= seqs.len() || !is_of(code, seqs[sequence]) {
            return broken(Rule::OtherSequence, Subject::Expected(sequence), None);
        }
    }
    unless(
        codes.len() == seqs.len(),
        broken(Rule::OtherSequence, Subject::Expected(codes.len()), None),
    )
}

/// An instruction that names what is not there, among this many operations and operators.
fn name_place(
    program: &Program,
    known: Known,
    part: Part,
    sequence: usize,
    at: usize,
    instr: &Instr,
) -> Option<Place>
    ensures { result ≡ name_place program.now known.operations known.operators part sequence at instr.now }
{
    unless(
        is_there(program, known.operations, known.operators, instr),
        broken(
            Rule::MissingName,
            Subject::Sequence(sequence),
            spot_at(part, sequence, at),
        ),
    )
}

/// The first of these instructions of a part of a sequence that names what is not there.
fn list_place(
    program: &Program,
    known: Known,
    part: Part,
    sequence: usize,
    list: &[Instr],
) -> Option<Place>
    ensures { result ≡ first_from
        (name_place program.now known.operations known.operators part sequence) 0 list.now }
{
    for (at, instr) in list.iter().enumerate() {
        if let Some(place) = name_place(program, known, part, sequence, at, instr) {
            return Some(place);
        }
    }
    None
}

/// The first instruction of a loop that names what is not there.
fn loops_place(program: &Program, known: Known) -> Option<Place>
    ensures { result ≡ first_from (λ s (c : SeqCode). first_from
        (name_place program.now known.operations known.operators Part.Loop s) 0 c.turn) 0 program.now.seqs }
{
    for (sequence, code) in program.seqs.as_slice().iter().enumerate() {
        if let Some(place) = list_place(
            program,
            known,
            Part::Loop,
            sequence,
            code.turn.as_slice(),
        ) {
            return Some(place);
        }
    }
    None
}

/// The first instruction of a prologue that names what is not there.
fn prologues_place(program: &Program, known: Known) -> Option<Place>
    ensures { result ≡ first_from (λ s (c : SeqCode). first_from
        (name_place program.now known.operations known.operators Part.Prologue s) 0 c.prologue) 0 program.now.seqs }
{
    for (sequence, code) in program.seqs.as_slice().iter().enumerate() {
        if let Some(place) = list_place(
            program,
            known,
            Part::Prologue,
            sequence,
            code.prologue.as_slice(),
        ) {
            return Some(place);
        }
    }
    None
}

/// The first sequence that is not that of the architecture, or else the first instruction that names what is not there.
pub fn names_place(program: &Program, known: Known, seqs: &[Seq]) -> Option<Place>
    ensures { result ≡ names_place program.now known.operations known.operators seqs.now }
{
    first_of(
        sequence_place(program.seqs.as_slice(), seqs),
        first_of(loops_place(program, known), prologues_place(program, known)),
    )
}
