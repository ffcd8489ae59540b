//! A call for each call of its outside, which fails there.
//!
//! First calls on the shelf fail, from call 0 on until there is none that would: where the answers of several
//! are equal, one line tells them as `cuts` does it, and the last line is of the call without a fault. A line says
//! whether the answer is the same where a call on the shelf gives one byte at most. Then calls on the output fail,
//! which takes all that it is given, or one byte a call, and calls on the error stream, where the output fails at
//! once. A line tells of each of these three how many runs met the fault, and of how many this holds: what stands
//! there is a beginning, with a byte for each call before where each takes one byte, and the status is that of a
//! failed write, or by the error stream what it was. The last run meets no fault.

use crate::answer::{Answer, Span};
use crate::call::{Outside, outside_for};
use crate::conditions::Conditions;
use crate::file::File;
use crate::script::Condition;
use std::alloc::{AllocError, Global};
use std::io;
use std::rt::Files;
use std::sync::Wait;
use std::thread::Threads;

/// So many calls are made at most.
const MOST: u64 = 1_000_000;

/// What fails.
#[derive(Clone, Copy, PartialEq, Eq)]
enum Part {
    /// The shelf.
    Shelf,
    /// The output, which takes all that it is given.
    Out,
    /// The output, which takes a byte a call.
    OutBytes,
    /// The error stream, which takes a byte a call, where the output fails at once.
    ErrBytes,
}

impl Part {
    /// What holds where this call of the part fails, or where none does.
    fn conditions(self, alloc: Global, call: Option<u64>) -> Result<Conditions, AllocError> {
        let mut holds = Conditions::new(alloc);
        if self == Part::ErrBytes {
            holds.add(alloc, Condition::OutFails(0))?;
        }
        if let Some(call) = call {
            holds.add(alloc, self.fault(call))?;
            match self {
                Part::Shelf | Part::Out => (),
                Part::OutBytes => holds.add(alloc, Condition::OutTakes(1))?,
                Part::ErrBytes => holds.add(alloc, Condition::ErrTakes(1))?,
            }
        }
        Ok(holds)
    }

    /// That this call of the part fails.
    fn fault(self, call: u64) -> Condition<'static> {
        match self {
            Part::Shelf => Condition::ShelfFails(call),
            Part::Out | Part::OutBytes => Condition::OutFails(call),
            Part::ErrBytes => Condition::ErrFails(call),
        }
    }

    /// Whether a call of the part failed.
    fn has_failed(self, outside: &Outside) -> bool {
        match self {
            Part::Shelf => outside.shelf.files.faults.iter().any(|count| *count > 0),
            Part::Out | Part::OutBytes => outside.out.faults() > 0,
            Part::ErrBytes => outside.err.faults() > 0,
        }
    }

    /// Whether this may be the answer where this call failed, and that one is the answer where none does.
    fn admits(self, call: u64, answer: &Answer, usual: &Answer) -> bool {
        match self {
            Part::Shelf => false,
            Part::Out => is_write_fault(answer) && begins(&answer.output, &usual.output),
            Part::OutBytes => {
                is_write_fault(answer)
                    && begins(&answer.output, &usual.output)
                    && answer.output.len() as u64 == call
            }
            Part::ErrBytes => {
                answer.number == usual.number
                    && answer.output.as_slice() == usual.output.as_slice()
                    && begins(&answer.line, &usual.line)
                    && answer.line.len() as u64 == call
            }
        }
    }

    /// What the transcript calls it.
    fn name(self) -> &'static str {
        match self {
            Part::Shelf => "shelf",
            Part::Out => "out",
            Part::OutBytes => "out by bytes",
            Part::ErrBytes => "err by bytes",
        }
    }
}

/// Whether this is the answer of a write that failed.
fn is_write_fault(answer: &Answer) -> bool {
    answer.number == 4 && answer.line.as_slice() == b"cannot write\n".as_slice()
}

/// What is told of an answer where no call fails.
fn end_of(answer: &Answer, usual: &Answer) -> &'static str {
    if answer.is_same(usual) {
        "as ever"
    } else {
        "otherwise"
    }
}

/// Whether the first bytes of the whole are these, and not all of it.
fn begins(bytes: &[u8], whole: &[u8]) -> bool {
    bytes.len() < whole.len() && whole.starts_with(bytes)
}

/// Calls the program with these words once for each call of its outside, which fails.
pub fn call_faults<R: Files + Print + AllocGlobal + Threads + Wait + Sync>(
    rt: &R,
    files: &[File],
    words: &[String],
    holds: &Conditions,
) -> io::Result<()> {
    let called = Called {
        files,
        words,
        holds,
    };
    called.tell_shelf(rt)?;
    called.tell_bytes(rt)?;
    for part in [Part::Out, Part::OutBytes, Part::ErrBytes] {
        called.tell_sink(rt, part)?;
    }
    Ok(())
}

/// The call that is made so often.
#[derive(Clone, Copy)]
struct Called<'a> {
    files: &'a [File],
    words: &'a [String],
    holds: &'a Conditions,
}

impl<'a> Called<'a> {
    /// What the program answers where this call of a part fails, or none, and whether one failed there.
    fn answer<R: Files + AllocGlobal + Threads + Wait + Sync>(
        &self,
        rt: &R,
        part: Part,
        call: Option<u64>,
    ) -> io::Result<(Answer, bool)> {
        let holds = part.conditions(rt.alloc(), call)?;
        let mut outside = outside_for(rt, self.files, self.words, &holds)?;
        let answer = Answer::of(rt, self.words, &mut outside)?;
        Ok((answer, part.has_failed(&outside)))
    }

    /// Tells the answers where calls on the shelf fail.
    fn tell_shelf<R: Files + Print + AllocGlobal + Threads + Wait + Sync>(
        &self,
        rt: &R,
    ) -> io::Result<()> {
        println!(rt; "shelf:")?;
        let (answer, mut failed) = self.answer(rt, Part::Shelf, Some(0))?;
        let mut span = Span::new(0, answer);
        for call in 1..MOST {
            if !failed {
                break;
            }
            let (answer, again) = self.answer(rt, Part::Shelf, Some(call))?;
            failed = again;
            span.follow(rt, self.files, self.holds, call, answer)?;
        }
        span.write(rt, self.files, self.holds)
    }

    /// Tells whether the answer is the usual one where each call on the shelf gives one byte at most.
    fn tell_bytes<R: Files + Print + AllocGlobal + Threads + Wait + Sync>(
        &self,
        rt: &R,
    ) -> io::Result<()> {
        let (usual, _) = self.answer(rt, Part::Shelf, None)?;
        let mut holds = Conditions::new(rt.alloc());
        holds.add(rt.alloc(), Condition::ShelfByBytes)?;
        let mut outside = outside_for(rt, self.files, self.words, &holds)?;
        let answer = Answer::of(rt, self.words, &mut outside)?;
        let end = end_of(&answer, &usual);
        println!(rt; "shelf by bytes: {end}")
    }

    /// Tells how many runs met a fault of this sink, and how many of these answered what they may.
    fn tell_sink<R: Files + Print + AllocGlobal + Threads + Wait + Sync>(
        &self,
        rt: &R,
        part: Part,
    ) -> io::Result<()> {
        let name = part.name();
        let (usual, _) = self.answer(rt, part, None)?;
        let mut admitted = 0u64;
        for call in 0..MOST {
            let (answer, failed) = self.answer(rt, part, Some(call))?;
            if !failed {
                let end = end_of(&answer, &usual);
                return println!(rt; "{name}: {call} faults, {admitted} as told, then {end}");
            }
            if part.admits(call, &answer, &usual) {
                admitted = admitted.saturating_add(1);
            }
        }
        println!(rt; "{name}: no end of faults")
    }
}
