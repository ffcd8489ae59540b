//! The texts of a program and what it runs on: the flat graph of an algorithm, an architecture, macro-code and rows.
//! The programs here are read by it.
ghost use Rattle.std.specs.Prelude.{◌≡◌, ◌≤◌, IfOk, length, sum};
ghost use Rattle.executive_program.specs.FlatLaws.{sensor_lens};

use crate::moves::number_of;
use algo_laws::{AlgoError, Tree, accepted_are_few, accepted_are_well_read};
use algo_reader::read_algo;
use algo_resolve::resolve;
use archi_reader::{ArchiText, read_archi};
use code_reader::read_code;
use executive_program::{Archi, Flat, Program};
use hierarchy::flatten;
use order_check::is_order;
use phase_laws::{Job, opening_of, sensor_lens};
use std::alloc::Global;
use std::process::Abort;
use std::test::Fail;
use syn_base::{LimitFault, OutOfMemory, SensorRows, Shape};

/// The texts of a program, a serial order of it, with a digit for each sequence, and what its sensors give,
/// reaction by reaction.
#[derive(Clone, Copy)]
pub(crate) struct Texts<'a> {
    pub(crate) algorithm: &'a [u8],
    pub(crate) architecture: &'a [u8],
    pub(crate) code: &'a [u8],
    pub(crate) order: &'a [u8],
    pub(crate) rows: &'a [&'a [i64]],
}

/// A program with what it runs on.
pub(crate) struct Worked {
    flat: Flat,
    architecture: ArchiText,
    program: Program,
    order: Vec<u32>,
    rows: SensorRows,
    ghost lens: { rows.lens ≡ sensor_lens flat.vertices },
}

/// By hand, so that a proof walks through what it drops here alone, and not on each way out of each
/// function that owns one.
impl Drop for Worked {
    fn drop(self) {
        let Worked {
            flat: _,
            architecture: _,
            program: _,
            order: _,
            rows: _,
        } = self;
    }
}

/// The tree of a text, or its first refusal.
#[tactic(auto, using(algo_reader::proofs::LineCounts::lines_at_most))]
fn resolved(alloc: Global, text: &[u8]) -> Result<Tree, AlgoError>
    requires { length text.now ≤ 4000 }
{
    let defs = read_algo(alloc, text)?;
    accepted_are_well_read();
    accepted_are_few();
    resolve(alloc, &defs)
}

/// The flat graph of an algorithm.
fn flat(alloc: Global, text: &[u8]) -> Result<Flat, Fail>
    requires { length text.now ≤ 4000 }
{
    let tree = resolved(alloc, text)?;
    Ok(flatten(alloc, &tree)?)
}

/// The architecture of a text, whatever its durations are.
#[tactic(auto, using(algo_reader::proofs::LineCounts::lines_at_most))]
fn architecture(alloc: Global, text: &[u8]) -> Result<ArchiText, Fail>
    requires { length text.now ≤ 4000 }
{
    Ok(read_archi(alloc, text)?)
}

/// The program of macro-code.
#[tactic(auto, using(algo_reader::proofs::LineCounts::lines_at_most))]
fn program(alloc: Global, text: &[u8], flat: &Flat, archi: &Archi) -> Result<Program, Fail>
    requires { length text.now ≤ 4000 }
{
    Ok(read_code(alloc, text, flat, archi)?)
}

/// The numbers of these digits.
pub(crate) fn numbers(alloc: Global, digits: &[u8]) -> Result<Vec<u32>, OutOfMemory> {
    let mut numbers = Vec::new(alloc);
    for digit in digits {
        numbers.push(number_of(*digit))?;
    }
    Ok(numbers)
}

/// How many elements vectors of these lengths have.
fn width(alloc: Global, lens: &[u32]) -> Result<usize, OutOfMemory>
    ensures { IfOk result (λ elements. elements ≡ sum lens.now) }
{
    Ok(Shape::new(alloc, lens)?.width())
}

/// The same with these reactions more, each of this many elements.
fn with_rows(
    rt: &impl Abort,
    mut sensed: SensorRows,
    width: usize,
    rows: &[&[i64]],
) -> Result<SensorRows, Fail>
    requires { sum sensed.lens ≡ width }
    ensures { IfOk result (λ all. all.lens ≡ sensed.lens) }
{
    for row in rows {
        assert_eq!(rt; row.len(), width);
        sensed.push(row)?;
    }
    Ok(sensed)
}

/// What the sensors of a flat graph give.
fn sensed(rt: &impl Abort, alloc: Global, flat: &Flat, rows: &[&[i64]]) -> Result<SensorRows, Fail>
    ensures { IfOk result (λ sensed. sensed.lens ≡ sensor_lens flat.now.vertices) }
{
    let lens = sensor_lens(alloc, flat)?;
    let width = width(alloc, lens.as_slice())?;
    let none = SensorRows::new(alloc, lens.as_slice())?;
    with_rows(rt, none, width, rows)
}

impl Worked {
    /// The program of these texts with what it runs on.
    pub(crate) fn read(rt: &impl Abort, alloc: Global, texts: &Texts) -> Result<Worked, Fail> {
        assert!(rt; texts.algorithm.len() <= 4000);
        assert!(rt; texts.architecture.len() <= 4000);
        assert!(rt; texts.code.len() <= 4000);
        let flat = flat(alloc, texts.algorithm)?;
        let architecture = architecture(alloc, texts.architecture)?;
        let program = program(alloc, texts.code, &flat, &architecture.archi)?;
        let order = numbers(alloc, texts.order)?;
        let rows = sensed(rt, alloc, &flat, texts.rows)?;
        Ok(Worked {
            flat,
            architecture,
            program,
            order,
            rows,
        })
    }

    /// The job of the program, which its serial order shows to be well formed, or the limit that refuses it.
    pub(crate) fn limited_job<'a>(
        &'a self,
        rt: &impl Abort,
        alloc: Global,
    ) -> Result<Result<Job<'a>, LimitFault>, Fail> {
        let Worked {
            flat,
            architecture,
            program,
            order,
            rows,
            ..
        } = self;
        let archi = &architecture.archi;
        assert!(rt; is_order(program, flat, archi, order.as_slice()));
        assert!(rt; rows.count() <= 10_000);
        let opening = opening_of(alloc, flat)?;
        Ok(Job::new(program, flat, archi, rows, opening))
    }

    /// The job of the program, which no limit refuses.
    pub(crate) fn job<'a>(&'a self, rt: &impl Abort, alloc: Global) -> Result<Job<'a>, Fail> {
        Ok(self.limited_job(rt, alloc)??)
    }
}
