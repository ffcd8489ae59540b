//! The program of a schedule without semaphores: the first stage of `build`.
ghost use Rattle.std.specs.Prelude.{◌≡◌, IfOk, length, map, vec_len};
ghost use Rattle.std.specs.List.{flat_map};
ghost use Rattle.sequence_build_laws.specs.Acts.{acts, made_by};
ghost use Rattle.sequence_build_laws.specs.Serial.{copies, plain_program};
ghost use Rattle.sequence_build.specs.Numbers.{AreCovered, place};
ghost use Rattle.sequence_build.specs.Plain.{codes_from};

use crate::made::made_of;
use crate::numbers::numbers_of;
use crate::site::Site;
use sequence_build_laws::{Archi, Flat, Instr, Program, Schedule, Seq, SeqCode};
use std::alloc::Global;
use syn_base::{Items, OutOfMemory, to_u32};

/// The loops with the sequences that make them, without prologues.
fn codes_of(
    alloc: Global,
    sequences: &[Seq],
    loops: Vec<Vec<Instr>>,
) -> Result<Items<SeqCode>, OutOfMemory>
    requires { vec_len loops ≡ length sequences.now }
    ensures { IfOk result (λ codes. codes ≡ codes_from loops.items sequences.now) }
{
    let mut codes = Vec::new(alloc);
    let mut place = 0;
    for turn in loops {
        codes.push(SeqCode {
            seq: sequences[place],
            prologue: Items::new(Vec::new(alloc)),
            turn: Items::new(turn),
        })?;
        place += 1;
    }
    Ok(Items::new(codes))
}

/// The loops of a schedule, with the sequences that make them, where the copies that its acts make have
/// these places.
fn plain_codes(
    alloc: Global,
    flat: &Flat,
    archi: &Archi,
    schedule: &Schedule,
    places: &[u32],
) -> Result<Items<SeqCode>, OutOfMemory>
    requires covered { AreCovered (length flat.now.vertices) (copies flat.now archi.now schedule.now) }
    requires places { places.now ≡ map (place (length flat.now.vertices))
        (flat_map (made_by flat.now.vertices) (acts schedule.now)) }
    ensures { IfOk result (λ codes. codes ≡ (plain_program flat.now archi.now schedule.now).seqs) }
{
    let copies = to_u32(places.len())?;
    let numbers = numbers_of(alloc, places)?;
    let sequences = archi.sequences(alloc)?;
    let site = Site {
        vertices: flat.vertices(),
        sequences: sequences.as_slice(),
        numbers: numbers.as_slice(),
        copies,
    };
    let loops = site.loops(alloc, schedule.decisions.as_slice())?;
    codes_of(alloc, &sequences, loops)
}

/// The program of a schedule without semaphores, whose buffers have one place each.
pub fn plain_program(
    alloc: Global,
    flat: &Flat,
    archi: &Archi,
    schedule: &Schedule,
) -> Result<Program, OutOfMemory>
    requires { AreCovered (length flat.now.vertices) (copies flat.now archi.now schedule.now) }
    ensures { IfOk result (λ p. p ≡ plain_program flat.now archi.now schedule.now) }
{
    let made = made_of(alloc, flat.vertices(), schedule.decisions.as_slice())?;
    let seqs = plain_codes(alloc, flat, archi, schedule, made.places.as_slice())?;
    Ok(Program {
        buffers: Items::new(made.buffers),
        pairs: Items::new(Vec::new(alloc)),
        seqs,
    })
}
