//! What one call answered, and where it was given: calls that are made many times tell their answers by these.

use crate::call::{Outside, answered, write_ended, write_output};
use crate::conditions::Conditions;
use crate::file::File;
use crate::gate::CallGate;
use crate::script::GateKind;
use std::alloc::{AllocError, Global};
use std::io;
use std::rt::Files;
use std::sync::Wait;
use std::thread::Threads;

/// What a call answered.
#[derive(Drop)]
pub struct Answer {
    pub number: u8,
    pub output: Vec<u8>,
    pub line: Vec<u8>,
}

impl Answer {
    /// What the program answers to these words over this outside, of which nothing is held back.
    pub fn of<R: AllocGlobal + Threads + Wait + Sync>(
        rt: &R,
        words: &[String],
        outside: &mut Outside,
    ) -> Result<Answer, AllocError> {
        let gate = CallGate::new(GateKind::Free);
        let number = answered(rt, words, outside, &gate);
        Answer::read(rt.alloc(), number, outside)
    }

    /// The status of this number, with what stands in both sinks.
    fn read(alloc: Global, number: u8, outside: &Outside) -> Result<Answer, AllocError> {
        Ok(Answer {
            number,
            output: Vec::from_slice(alloc, outside.out.bytes())?,
            line: Vec::from_slice(alloc, outside.err.bytes())?,
        })
    }

    /// Whether both are the same status, output and line.
    pub fn is_same(&self, other: &Answer) -> bool {
        self.number == other.number
            && self.output.as_slice() == other.output.as_slice()
            && self.line.as_slice() == other.line.as_slice()
    }
}

/// An answer, and the first and the last of the numbers at which it was given.
#[derive(Drop)]
pub struct Span {
    first: u64,
    last: u64,
    answer: Answer,
}

impl Span {
    /// A span of one number.
    pub fn new(number: u64, answer: Answer) -> Span {
        Span {
            first: number,
            last: number,
            answer,
        }
    }

    /// Takes the answer at the next number: the span goes on where it is the same, and else it is written, and
    /// the next one begins.
    pub fn follow<R: Files + Print + AllocGlobal>(
        &mut self,
        rt: &R,
        files: &[File],
        holds: &Conditions,
        number: u64,
        answer: Answer,
    ) -> io::Result<()> {
        if answer.is_same(&self.answer) {
            self.last = number;
            return Ok(());
        }
        self.write(rt, files, holds)?;
        *self = Span::new(number, answer);
        Ok(())
    }

    /// Writes it into the transcript.
    pub fn write<R: Files + Print + AllocGlobal>(
        &self,
        rt: &R,
        files: &[File],
        holds: &Conditions,
    ) -> io::Result<()> {
        let Span {
            first,
            last,
            answer,
        } = self;
        let number = answer.number;
        print!(rt; "{first}..{last} = {number}")?;
        if answer.line.is_empty() {
            println!(rt; "")?;
        } else {
            print!(rt; " ")?;
            write_ended(rt, &answer.line)?;
        }
        write_output(rt, files, holds, &answer.output)
    }
}
