//! A fabric and its drivers, kept whole: what callers see of `FabricParts` and `DriverParts`.
ghost use Rattle.std.specs.Prelude.{◌≡◌, ◌<◌, ◌%◌, IfNone, IfSome, length, slice_index_or};
ghost use Rattle.word_rule.specs.Core.{full};
ghost use Rattle.word_table.specs.Answers.{Answers, AnswersAlone, DrivesEvery};
ghost use Rattle.word_table.specs.Driver.{IsTold};

use crate::answer::MicroAnswer;
use crate::driver_parts::DriverParts;
use crate::fabric_parts::FabricParts;
use crate::loop_place::{LoopPlace, keep_place, place_of};
use std::marker::Model;
use word_rule::job_runs_on_words;

/// The words of a job, shared by its drivers. Contracts see which table it is, its job, and the number of
/// groups in which the sequences are driven.
#[derive(Drop)]
pub struct Fabric<'a> {
    pub(crate) parts: FabricParts<'a>,
}

impl<'a> Model for Fabric<'a> {
    ghost use Rattle.std.specs.Coded.{codes};
    ghost use Rattle.executive_program.specs.BodyCode.{expr_code};
    ghost use Rattle.executive_program.specs.Graph.{graph_code};
    ghost use Rattle.word_rule.specs.Job.{job_code};
    ghost use Rattle.word_table.specs.Driver.{FabricData, fabric_code};

    ghost Value = { FabricData };

    ghost coded = { fabric_code (job_code (Prim.hlevel codes)
        (graph_code (Prim.hlevel codes) (expr_code (Prim.hlevel codes)))) };

    ghost use Rattle.word_table.specs.Parts.{AreFabricParts, fabric_view};

    ghost view = { λ f. fabric_view f.parts };

    ghost invariant = { λ f. AreFabricParts f.parts };
}

/// The driver of a group of sequences of a fabric. Contracts see the fabric and the group, the micro-steps
/// that each of its sequences has made, its last look, and the registers, cells and rows that its sequences
/// have of their own.
#[derive(Drop)]
pub struct Driver<'a> {
    pub(crate) parts: DriverParts<'a>,
    /// Where each sequence is in its loop, as a guess.
    pub(crate) places: Vec<LoopPlace>,
}

impl<'a> Model for Driver<'a> {
    ghost use Rattle.std.specs.Coded.{codes};
    ghost use Rattle.executive_program.specs.BodyCode.{expr_code};
    ghost use Rattle.executive_program.specs.Graph.{graph_code};
    ghost use Rattle.word_rule.specs.Job.{job_code};
    ghost use Rattle.word_table.specs.Driver.{DriverData, driver_code};

    ghost Value = { DriverData };

    ghost coded = { driver_code (job_code (Prim.hlevel codes)
        (graph_code (Prim.hlevel codes) (expr_code (Prim.hlevel codes)))) };

    ghost use Rattle.word_table.specs.Parts.{AreDriverParts, driver_view};

    ghost view = { λ d. driver_view d.parts };

    ghost invariant = { λ d. AreDriverParts d.parts };
}

impl<'a> Fabric<'a> {
    /// In how many groups the sequences are driven. It takes no memory.
    pub fn groups(&self) -> u32
        ensures { result ≡ self.now.groups }
    {
        self.parts.groups
    }

    /// The number of sequences. It takes no memory.
    pub fn sequences(&self) -> u32
        ensures { result ≡ length self.now.job.program.seqs }
    {
        self.parts.job.sequences()
    }

    /// The number of the next micro-step of a sequence of a driver of this fabric, counted from 0, where it has
    /// not made all of them. It takes no memory.
    pub fn next_step(&self, driver: &Driver<'a>, seq: u32) -> Option<u64>
        requires of { driver.now.fabric ≡ self.now }
        requires there { seq < length self.now.job.program.seqs }
        requires drives { seq % self.now.groups ≡ driver.now.group }
        ensures next { IfSome result (λ n. (n ≡ slice_index_or driver.now.counts seq 0) × (n < full self.now.job seq)) }
        ensures none { IfNone result (slice_index_or driver.now.counts seq 0 ≡ full self.now.job seq) }
    {
        self.parts.next_step(&driver.parts, seq)
    }

    /// Tries a sequence of a driver of this fabric: makes its next micro-step by one atomic step, where the
    /// one word that this looks at is ready. It takes no memory and waits for nobody.
    pub fn try_micro(&self, driver: &mut Driver<'a>, seq: u32) -> MicroAnswer
        requires of { driver.old.fabric ≡ self.now }
        requires there { seq < length self.now.job.program.seqs }
        requires drives { seq % self.now.groups ≡ driver.old.group }
        ensures of { driver.new.fabric ≡ self.now }
        ensures group { driver.new.group ≡ driver.old.group }
        ensures answer { Answers driver.old driver.new seq result }
        ensures told { IsTold driver.new }

        // A driver of every sequence knows all counts.
        ensures alone { DrivesEvery driver.old → AnswersAlone driver.old driver.new seq result }
    {
        let mut place = place_of(driver.places.as_slice(), seq);
        let answer = self.parts.try_micro(&mut driver.parts, &mut place, seq);
        keep_place(&mut driver.places, seq, place);
        answer
    }
}

impl<'a> Driver<'a> {
    /// The number of its group: it drives the sequences whose number leaves this when it is divided by the
    /// number of groups. It takes no memory.
    pub fn group(&self) -> u32
        ensures { result ≡ self.now.group }
    {
        self.parts.group
    }

    /// That its registers, cells and rows are what any counts tell that agree with its own. It does nothing.
    pub fn is_told(&self)
        ensures { IsTold self.now }
    {
        job_runs_on_words(self.parts.job);
    }
}
