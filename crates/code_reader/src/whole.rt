//! The program of a text whose lines were all read, and its limits.
ghost use Rattle.std.specs.Prelude.{◌≡◌, ℕ, ◌-◌, ◌^◌, IfOk, length, map, min};
ghost use Rattle.macro_code.specs.ReadText.{at_place, counted, first_misnumbered, limited, no_size, sized, whole, within_steps};
ghost use Rattle.macro_code.specs.ReadText as text;
ghost use Rattle.syn_base.specs.declared.limits.LimitKind.TheVariants.{MicroSteps};
ghost use Rattle.executive_program.specs.Steps.{all_turns};
ghost use Rattle.text_lines.specs.Refusals.{Gives, Has};
ghost use Rattle.macro_code.specs.Placed.{ArePlaced, IsPlaced};
ghost use Rattle.code_reader.specs.Read.{reading};
ghost use Rattle.code_reader.specs.Wide.{IsBounded, program_of};

use crate::counts::{WideProgram, words};
use crate::reader::Reader;
use crate::stage::is_outside;
use crate::written::{narrow, narrow_codes};
use code_lines::{Known, bad_argument, bad_line};
use executive_program::{Buffer, Program, pair_depths, turn_micros};
use macro_code::{CodeError, Places, Size, places_of};
use std::alloc::Global;
use syn_base::{Items, LimitKind, OutOfMemory};
use text_lines::{TextError, check_limit};

/// The sizes of buffers by number.
fn sizes_in_order(
    alloc: Global,
    places: &[Option<usize>],
    sizes: &[Size],
) -> Result<Vec<Size>, OutOfMemory>
    ensures { IfOk result (λ v. v.items ≡ map (at_place sizes.now no_size) places.now) }
{
    let mut ordered = Vec::new(alloc);
    for place in places {
        ordered.push(size_at(sizes, *place))?;
    }
    Ok(ordered)
}

/// The size of the buffer that is declared at a place, and one without elements where there is none.
fn size_at(sizes: &[Size], place: Option<usize>) -> Size
    ensures { result ≡ at_place sizes.now no_size place }
{
    match place {
        Some(place) if place < sizes.len() => sizes[place],
        _ => Size {
            operator: 0,
            len: 0,
            depth: 0,
        },
    }
}

/// The operators of pairs by number.
fn owners_in_order(
    alloc: Global,
    places: &[Option<usize>],
    owners: &[u32],
) -> Result<Vec<u32>, OutOfMemory>
    ensures { IfOk result (λ v. v.items ≡ map (at_place owners.now 0) places.now) }
{
    let mut ordered = Vec::new(alloc);
    for place in places {
        ordered.push(owner_at(owners, *place))?;
    }
    Ok(ordered)
}

/// The operator of the pair that is declared at a place, 0 where there is none.
fn owner_at(owners: &[u32], place: Option<usize>) -> u32
    ensures { result ≡ at_place owners.now 0 place }
{
    match place {
        Some(place) if place < owners.len() => owners[place],
        _ => 0,
    }
}

/// The buffers of these sizes.
fn narrow_buffers(alloc: Global, sizes: &[Size]) -> Result<Items<Buffer>, CodeError>
    ensures { Has result (map sized sizes.now) }
{
    let mut buffers = Vec::new(alloc);
    for size in sizes {
        buffers.push(Buffer {
            operator: size.operator,
            len: narrow(size.len)?,
            depth: size.depth,
        })?;
    }
    Ok(Items::new(buffers))
}

/// The program of a wide one.
fn narrow_program(alloc: Global, wide: &WideProgram) -> Result<Program, CodeError>
    ensures { Has result (program_of wide.now) }
{
    let buffers = narrow_buffers(alloc, wide.sizes.as_slice())?;
    let pairs = Vec::from_slice(alloc, wide.owners.as_slice())?;
    let seqs = narrow_codes(alloc, wide.seqs)?;
    Ok(Program {
        buffers,
        pairs: Items::new(pairs),
        seqs,
    })
}

/// A quantity is within its bound. `count` is the quantity, or the last value of the type where it is more, which no
/// text that fits into memory reaches.
fn check_bound(which: LimitKind, count: u128) -> Result<(), CodeError>
    ensures { (exact : ℕ) → count ≡ min exact (2 ^ 128 - 1) → IsBounded result which exact }
{
    if count == u128::MAX {
        return Err(CodeError::OutOfMemory);
    }
    check_limit(which, count).map_err(TextError::Limit)
}

/// The micro-steps of the loops of a program in one reaction are within their bound.
fn check_steps(alloc: Global, program: &Program) -> Result<(), CodeError>
    ensures { IsBounded result MicroSteps (all_turns program.now) }
{
    let depths = pair_depths(alloc, program)?;
    let micros = turn_micros(program, depths.as_slice());
    check_bound(LimitKind::MicroSteps, micros)
}

/// The program, where the micro-steps of its loops in one reaction are within their bound.
fn within_steps(alloc: Global, program: Program) -> Result<Program, CodeError>
    ensures { Gives result (within_steps program) }
{
    check_steps(alloc, &program)?;
    Ok(program)
}

/// The program, where its words on this many media and its micro-steps are within their bounds.
fn program_in_limits(alloc: Global, media: u32, wide: &WideProgram) -> Result<Program, CodeError>
    ensures { Gives result (limited media (program_of wide.now)) }
{
    check_bound(LimitKind::Words, words(wide, media))?;
    let program = narrow_program(alloc, wide)?;
    within_steps(alloc, program)
}

impl Reader {
    /// The program, where buffers and pairs have these places.
    fn program_at_places(
        &self,
        known: &Known,
        pairs: &[Option<usize>],
        buffers: &[Option<usize>],
    ) -> Result<Program, CodeError>
        requires pairs { ArePlaced pairs.now self.now.pairs.items (length self.now.pairs.items) }
        requires buffers { ArePlaced
            buffers.now self.now.buffers.items (length self.now.buffers.items) }
        ensures { Gives result
            (limited (length known.now.archi.media) (text.program_of (reading self.now))) }
    {
        let wide = WideProgram {
            sizes: sizes_in_order(self.alloc, buffers, self.sizes.as_slice())?,
            owners: owners_in_order(self.alloc, pairs, self.owners.as_slice())?,
            seqs: self.seqs.as_slice(),
        };
        program_in_limits(self.alloc, known.media(), &wide)
    }

    /// The program, where buffers and pairs have the numbers from 0 on; else the first line that declares a wrong one
    /// is refused.
    fn program_if_numbered(
        &self,
        known: &Known,
        pairs: &Places,
        buffers: &Places,
    ) -> Result<Program, CodeError>
        requires pairs { IsPlaced pairs.now self.now.pairs.items }
        requires buffers { IsPlaced buffers.now self.now.buffers.items }
        ensures { Gives result
            (counted (length known.now.archi.media) (reading self.now) (first_misnumbered (reading self.now))) }
    {
        match (pairs, buffers) {
            (Places::Each(pairs), Places::Each(buffers)) => {
                self.program_at_places(known, pairs.as_slice(), buffers.as_slice())
            }
            (Places::Wrong(line), Places::Each(_)) => Err(bad_argument(*line)),
            (Places::Each(_), Places::Wrong(line)) => Err(bad_argument(*line)),
            (Places::Wrong(pair), Places::Wrong(buffer)) => Err(bad_argument((*pair).min(*buffer))),
        }
    }

    /// The program, at the end of a text whose lines are numbered below this one.
    pub fn whole(&self, known: &Known, line: u32) -> Result<Program, CodeError>
        ensures { Gives result (whole (length known.now.archi.media) (reading self.now) line) }
    {
        if !is_outside(self.stage) {
            return Err(bad_line(line));
        }
        let pairs = places_of(self.alloc, self.pairs.as_slice())?;
        let buffers = places_of(self.alloc, self.buffers.as_slice())?;
        self.program_if_numbered(known, &pairs, &buffers)
    }
}
