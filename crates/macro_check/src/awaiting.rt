//! The instruction of another sequence that the next one of a sequence awaits, and the sequences that may await an
//! instruction.
ghost use Rattle.std.specs.Prelude.{◌≡◌, ℕ, ◌<◌, ◌++◌, length, slice_get, slice_index, IfSome, OnOk};
ghost use Rattle.sequence_build_laws.specs.declared.Instr.TheVariants.{Pre1};
ghost use Rattle.sequence_build_laws.specs.Instructions.{communications, medium, turn};
ghost use Rattle.sequence_build_laws.specs.WellFormed.{Stands};
ghost use Rattle.program_tables.specs.Crossings.{crossings};
ghost use Rattle.check_laws.specs.Items.{AreGuarded};
ghost use Rattle.check_laws.specs.Run.{awaited, signal_of};
ghost use Rattle.macro_check.specs.Tabled.{AreTables, crossing_at, crossing_before};
ghost use Rattle.macro_check.specs.Awaiting.{MayRun, first_in, is_past_in, on_it, received_at, sent_at, sequences_in, stand_or, woken};

use crate::tables::Tables;
use program_tables::{Crossing, Mark, number_at};
use program_walks::{Stand, medium_of};
use sequence_build_laws::{Instr, Program};
use syn_base::{Items, OutOfMemory};

/// A transfer in the table of transfers.
fn crossing_at(rows: &[Items<Crossing>], medium: Option<u32>, number: usize) -> Option<Crossing>
    ensures { result ≡ crossing_at rows.now medium number }
{
    match rows.get(medium? as usize) {
        Some(row) => in_row(row.as_slice(), number),
        None => None,
    }
}

/// The transfer of a number on its medium.
fn in_row(row: &[Crossing], number: usize) -> Option<Crossing>
    ensures { result ≡ slice_get row.now number }
{
    match row.get(number) {
        Some(crossing) => Some(*crossing),
        None => None,
    }
}

/// The place of the signal of a pair's full semaphore.
fn signal_of(program: &Program, tables: &Tables, pair: usize) -> Option<Stand>
    requires tables { AreTables program.now tables.now }
    requires within { pair < length program.now.pairs }
    requires guarded { AreGuarded program.now }
    ensures { result ≡ stand_or (signal_of program.now pair) }
{
    match tables.pairs.full_signalled.of(pair).first() {
        Some(mark) => Some(Stand {
            sequence: mark.sequence,
            at: mark.at,
        }),
        None => None,
    }
}

/// The place of the send of a transfer.
fn sent_at(crossing: Option<Crossing>) -> Option<Stand>
    ensures { result ≡ sent_at crossing }
{
    match crossing {
        Some(crossing) => Some(Stand {
            sequence: crossing.sender,
            at: crossing.send_at,
        }),
        None => None,
    }
}

/// The place of the receive of a transfer.
fn received_at(crossing: Option<Crossing>) -> Option<Stand>
    ensures { result ≡ received_at crossing }
{
    match crossing {
        Some(crossing) => Some(Stand {
            sequence: crossing.receiver,
            at: crossing.receive_at,
        }),
        None => None,
    }
}

/// The transfer of which a communication is a part.
pub fn transfer_of(
    program: &Program,
    tables: &Tables,
    sequence: usize,
    at: usize,
) -> Option<Crossing>
    requires tables { AreTables program.now tables.now }
    requires within { at < length (turn program.now sequence) }
    ensures { result ≡ crossing_at (crossings program.now tables.now.media)
        (medium program.now sequence) (communications program.now sequence at) }
{
    crossing_at(
        tables.crossings.as_slice(),
        medium_of(program, sequence),
        number_at(program, tables.numbers.as_slice(), sequence, at),
    )
}

/// The transfer before that one on its medium, if there is one.
fn transfer_before(
    program: &Program,
    tables: &Tables,
    sequence: usize,
    at: usize,
) -> Option<Crossing>
    requires tables { AreTables program.now tables.now }
    requires within { at < length (turn program.now sequence) }
    ensures { result ≡ crossing_before (crossings program.now tables.now.media)
        (medium program.now sequence) (communications program.now sequence at) }
{
    let number = number_at(program, tables.numbers.as_slice(), sequence, at);
    if number == 0 {
        return None;
    }
    crossing_at(
        tables.crossings.as_slice(),
        medium_of(program, sequence),
        number - 1,
    )
}

/// What an instruction of a sequence awaits of another: a wait for a full semaphore its signal, a receive the
/// send, a wait for a transfer its receive, a send the receive of the transfer before.
pub fn awaited(
    program: &Program,
    tables: &Tables,
    sequence: usize,
    at: usize,
    instr: &Instr,
) -> Option<Stand>
    requires tables { AreTables program.now tables.now }
    requires run { MayRun program.now tables.now.media }
    requires here { Stands program.now sequence at instr.now }
    ensures { result ≡ stand_or (awaited program.now sequence at instr.now) }
{
    match instr {
        Instr::Suc1(pair) => signal_of(program, tables, *pair as usize),
        Instr::Recv { .. } => sent_at(transfer_of(program, tables, sequence, at)),
        Instr::Sync { .. } => received_at(transfer_of(program, tables, sequence, at)),
        Instr::Send { .. } => received_at(transfer_before(program, tables, sequence, at)),
        _ => None,
    }
}

/// Whether a place was passed, where this many instructions of each sequence were made.
pub fn is_past(done: &[usize], awaited: Option<Stand>) -> bool
    ensures { result ≡ is_past_in done.now awaited }
{
    match awaited {
        Some(stand) => stand.at < count_at(done, stand.sequence),
        None => true,
    }
}

/// The count at a place, 0 past the end.
pub fn count_at(done: &[usize], sequence: usize) -> usize
    ensures { result ≡ slice_index done.now sequence }
{
    match done.get(sequence) {
        Some(count) => *count,
        None => 0,
    }
}

/// Adds the sequences of these places.
fn push_sequences(looks: &mut Vec<usize>, marks: &[Mark]) -> Result<(), OutOfMemory>
    ensures { OnOk result (looks.new.items ≡ looks.old.items ++ sequences_in marks.now) }
{
    for mark in marks {
        looks.push(mark.sequence)?;
    }
    Ok(())
}

/// Adds the sequence of the first of these places, if there is one.
fn push_first(looks: &mut Vec<usize>, marks: &[Mark]) -> Result<(), OutOfMemory>
    ensures { OnOk result (looks.new.items ≡ looks.old.items ++ first_in marks.now) }
{
    if let Some(mark) = marks.first() {
        looks.push(mark.sequence)?;
    }
    Ok(())
}

/// Adds the communicators of a medium, none where there is no medium.
fn push_on_medium(
    looks: &mut Vec<usize>,
    program: &Program,
    tables: &Tables,
    medium: Option<u32>,
) -> Result<(), OutOfMemory>
    requires tables { AreTables program.now tables.now }
    requires media { IfSome medium (λ m. m < tables.now.media) }
    ensures { OnOk result (looks.new.items ≡ looks.old.items ++ on_it program.now medium) }
{
    match medium {
        Some(medium) => push_sequences(looks, tables.communicators.of(medium as usize)),
        None => Ok(()),
    }
}

/// Adds the sequences whose next instruction may await this one of a sequence.
pub fn push_woken(
    looks: &mut Vec<usize>,
    program: &Program,
    tables: &Tables,
    sequence: usize,
    instr: &Instr,
) -> Result<(), OutOfMemory>
    requires tables { AreTables program.now tables.now }
    requires pairs { (q : ℕ) → instr.now ≡ Pre1 q → q < length program.now.pairs }
    requires media { IfSome (medium program.now sequence) (λ m. m < tables.now.media) }
    ensures { OnOk result (looks.new.items ≡ looks.old.items ++ woken program.now sequence instr.now) }
{
    match instr {
        Instr::Pre1(pair) => push_first(looks, tables.pairs.full_taken.of(*pair as usize)),
        Instr::Send { .. } | Instr::Recv { .. } => {
            push_on_medium(looks, program, tables, medium_of(program, sequence))
        }
        _ => Ok(()),
    }
}
