//! Which limit the program of a schedule is above, counted before an instruction is made.
ghost use Rattle.std.specs.Prelude.{◌≡◌, ◌-◌, ◌^◌, None, length, map, min, IfOk};
ghost use Rattle.std.specs.List.{flat_map};
ghost use Rattle.syn_base.specs.declared.limits.LimitKind.TheVariants.{MicroSteps};
ghost use Rattle.sequence_build_laws.specs.Acts.{acts, acts_of, made_by};
ghost use Rattle.sequence_build_laws.specs.Built.{program_of};
ghost use Rattle.sequence_build_laws.specs.Serial.{copies};
ghost use Rattle.sequence_build.specs.Answers.{IsValid};
ghost use Rattle.sequence_build.specs.Counted.{IsLimit, IsLimitOf, all_micros, all_words, limit_of};
ghost use Rattle.sequence_build.specs.Limit.{program_limit};
ghost use Rattle.sequence_build.specs.Numbers.{AreCovered, place};
ghost use Rattle.sequence_build.specs.Plain.{numbering, steps_at};
ghost use Rattle.syn_base.specs.Limits.{above};

use crate::counted::{act_micros, buffer_words, pair_count, pair_micros, wire_words};
use crate::made::made_of;
use crate::numbers::numbers_of;
use crate::site::Site;
use crate::touched::reader_counts;
use sequence_build_laws::{Archi, Buffer, Decision, Flat, Program, Schedule};
use std::alloc::Global;
use syn_base::{Items, LimitFault, LimitKind, OutOfMemory, to_u32};

/// The fault of a quantity, where it is above its bound.
fn excess(which: LimitKind, count: u128) -> Option<LimitFault>
    ensures { result ≡ above which count None }
{
    let bound = which.bound();
    if bound < count {
        Some(LimitFault {
            which,
            count,
            bound,
        })
    } else {
        None
    }
}

/// The program that has the buffers and nothing else, how many places the buffers of pairs have, and on
/// how many media the program runs.
#[derive(Clone, Copy)]
struct Ground<'a> {
    bare: &'a Program,
    depth: u32,
    media: u32,
}

/// The words of the program's table, where each buffer is read by this many sequences that do not write it.
fn words_of(ground: &Ground<'_>, site: &Site<'_>, decisions: &[Decision], counts: &[u32]) -> u128
    requires { length counts.now ≡ length ground.now.bare.now.buffers }
    ensures { result ≡ all_words ground.now.bare.now counts.now ground.now.depth (numbering site.now)
        (acts_of decisions.now) ground.now.media }
{
    let buffers = buffer_words(ground.bare.buffers.as_slice(), counts, ground.depth);
    let wires = wire_words(ground.bare, site, ground.media, decisions);
    2 * pair_count(counts) + ground.media as u128 + buffers + wires
}

/// The micro-steps of one reaction, or the last value of the type where they are more.
fn micros_of(
    alloc: Global,
    ground: &Ground<'_>,
    site: &Site<'_>,
    decisions: &[Decision],
    counts: &[u32],
) -> Result<u128, OutOfMemory>
    ensures { IfOk result (λ n. n ≡ min (all_micros ground.now.bare.now counts.now ground.now.depth
        (flat_map (steps_at site.now) (acts_of decisions.now))) (2 ^ 128 - 1)) }
{
    let acts = act_micros(alloc, ground.bare, site, decisions)?;
    Ok(acts.saturating_add(pair_count(counts) * pair_micros(ground.depth)))
}

/// The limit of the micro-steps of one reaction.
fn steps_limit(
    alloc: Global,
    ground: &Ground<'_>,
    site: &Site<'_>,
    decisions: &[Decision],
    counts: &[u32],
) -> Result<Option<LimitFault>, OutOfMemory>
    ensures { IfOk result (λ limit. limit ≡ above MicroSteps (min (all_micros ground.now.bare.now counts.now
        ground.now.depth (flat_map (steps_at site.now) (acts_of decisions.now))) (2 ^ 128 - 1)) None) }
{
    let micros = micros_of(alloc, ground, site, decisions, counts)?;
    Ok(excess(LimitKind::MicroSteps, micros))
}

/// The limit of these decisions' program, where each buffer is read by this many sequences that do not
/// write it.
fn limit_by(
    alloc: Global,
    ground: &Ground<'_>,
    site: &Site<'_>,
    decisions: &[Decision],
    counts: &[u32],
) -> Result<Option<LimitFault>, OutOfMemory>
    requires { length counts.now ≡ length ground.now.bare.now.buffers }
    ensures { IfOk result (λ limit. limit ≡ limit_of ground.now.bare.now counts.now ground.now.depth
        (numbering site.now) (acts_of decisions.now)
        (flat_map (steps_at site.now) (acts_of decisions.now)) ground.now.media) }
{
    match excess(LimitKind::Words, words_of(ground, site, decisions, counts)) {
        Some(fault) => Ok(Some(fault)),
        None => steps_limit(alloc, ground, site, decisions, counts),
    }
}

/// The limit of these decisions' program.
fn limit_at(
    alloc: Global,
    ground: &Ground<'_>,
    site: &Site<'_>,
    decisions: &[Decision],
) -> Result<Option<LimitFault>, OutOfMemory>
    requires { site.now.copies ≡ length ground.now.bare.now.buffers }
    ensures { IfOk result (IsLimit ground.now.bare.now site.now (acts_of decisions.now) ground.now.depth
        ground.now.media) }
{
    let width = to_u32(site.sequences.len())?;
    let counts = reader_counts(alloc, site, width, decisions)?;
    limit_by(alloc, ground, site, decisions, &counts)
}

/// The program that has these buffers and nothing else.
fn bare_program(alloc: Global, buffers: Vec<Buffer>) -> Program
    ensures { result.buffers ≡ buffers.items }
{
    Program {
        buffers: Items::new(buffers),
        pairs: Items::new(Vec::new(alloc)),
        seqs: Items::new(Vec::new(alloc)),
    }
}

/// The limit of a schedule's program, where the copies that its acts make have these places in a table.
fn limit_from(
    alloc: Global,
    flat: &Flat,
    archi: &Archi,
    schedule: &Schedule,
    places: &[u32],
    ground: &Ground<'_>,
) -> Result<Option<LimitFault>, OutOfMemory>
    requires covered { AreCovered (length flat.now.vertices) (copies flat.now archi.now schedule.now) }
    requires places { places.now ≡ map (place (length flat.now.vertices))
        (flat_map (made_by flat.now.vertices) (acts schedule.now)) }
    requires bare { length ground.now.bare.now.buffers ≡ length places.now }
    requires depth { ground.now.depth ≡ archi.now.depth }
    requires media { ground.now.media ≡ length archi.now.media }
    ensures { IfOk result (IsLimitOf flat.now archi.now schedule.now ground.now.bare.now) }
{
    let copies = to_u32(places.len())?;
    let numbers = numbers_of(alloc, places)?;
    let sequences = archi.sequences(alloc)?;
    let site = Site {
        vertices: flat.vertices(),
        sequences: sequences.as_slice(),
        numbers: numbers.as_slice(),
        copies,
    };
    limit_at(alloc, ground, &site, schedule.decisions.as_slice())
}

/// The limit that the program of a valid schedule is above.
pub fn limit_of(
    alloc: Global,
    flat: &Flat,
    archi: &Archi,
    schedule: &Schedule,
) -> Result<Option<LimitFault>, OutOfMemory>
    requires { IsValid flat.now archi.now schedule.now }
    ensures { IfOk result (λ limit. limit ≡
        program_limit (program_of flat.now archi.now schedule.now) (length archi.now.media)) }
{
    let media = to_u32(archi.media().len())?;
    let made = made_of(alloc, flat.vertices(), schedule.decisions.as_slice())?;
    let bare = bare_program(alloc, made.buffers);
    let ground = Ground {
        bare: &bare,
        depth: archi.depth(),
        media,
    };
    limit_from(
        alloc,
        flat,
        archi,
        schedule,
        made.places.as_slice(),
        &ground,
    )
}
