//! The text of why a program is refused.
ghost use Rattle.std.specs.Prelude.{◌≡◌, ◌++◌, OnOk, codes, map, slice_get};
ghost use Rattle.std.specs.Fmt.{decimal};
ghost use Rattle.std.specs.List.{flat_map};
ghost use Rattle.macro_code.specs.Text.{medium_name, operation_name, operator_name};
ghost use Rattle.why_text.specs.Text.{number_text};

use crate::lines::{SequenceLines, line_at};
use crate::words::{cause_words, rule_words};
use check_places::{Part, Place, Spot, Subject, Waiting, Why};
use executive_program::{Medium, Program, Seq, Vertex};
use syn_base::{Name, OutOfMemory, append, append_count};

/// What a text is written for: the program, the names, the sequences of the architecture, and where the instructions
/// of the program stand in its own text.
#[derive(Clone, Copy)]
pub struct Setting<'a> {
    pub program: &'a Program,
    pub vertices: &'a [Vertex],
    pub operators: &'a [Name],
    pub media: &'a [Medium],
    pub expected: &'a [Seq],
    pub lines: &'a [SequenceLines],
}

impl<'a> Setting<'a> {
    ghost use Rattle.why_text.specs.Text.{answer_text, awaited_text, expected_text, found_text, part_name, place_text, sequence_text, spot_line, spot_text, subject_text, waiting_line, why_text};
    ghost use Rattle.why_text.specs.Views.{setting_of};

    /// The name of an operation, empty where there is none of this number.
    fn operation(&self, operation: usize) -> &'a [u8]
        ensures { result.now ≡ operation_name (setting_of self.now).names operation }
    {
        match self.vertices.get(operation) {
            Some(vertex) => vertex.name.as_slice(),
            None => b"",
        }
    }

    /// The name of an operator, empty where there is none of this number.
    fn operator(&self, operator: u32) -> &'a [u8]
        ensures { result.now ≡ operator_name (setting_of self.now).names operator }
    {
        let operator = operator as usize;
        if operator < self.operators.len() {
            self.operators[operator].as_bytes()
        } else {
            b""
        }
    }

    /// The name of a medium, empty where there is none of this number.
    fn medium(&self, medium: usize) -> &'a [u8]
        ensures { result.now ≡ medium_name (setting_of self.now).names medium }
    {
        match self.media.get(medium) {
            Some(medium) => medium.name.as_bytes(),
            None => b"",
        }
    }

    /// The main part, or the medium of a thread.
    fn part(&self, medium: Option<u32>) -> &'a [u8]
        ensures { result.now ≡ part_name (setting_of self.now).names medium }
    {
        match medium {
            Some(medium) => self.medium(medium as usize),
            None => b"main",
        }
    }

    /// Appends the operator of a sequence and its part.
    fn append_sequence(&self, out: &mut Vec<u8>, seq: Option<Seq>) -> Result<(), OutOfMemory>
        ensures { OnOk result (out.new.items ≡ out.old.items ++
            sequence_text (setting_of self.now).names seq) }
    {
        let Some(seq) = seq else {
            return append(out, b"nothing");
        };
        append(out, self.operator(seq.operator))?;
        append(out, b" ")?;
        append(out, self.part(seq.medium))
    }

    /// A sequence of the program.
    fn found(&self, sequence: usize) -> Option<Seq>
        ensures { result ≡ slice_get (map (λ q. q.seq) self.now.program.now.seqs) sequence }
    {
        match self.program.seqs.as_slice().get(sequence) {
            Some(code) => Some(code.seq),
            None => None,
        }
    }

    /// Appends a sequence of the program.
    fn append_found(&self, out: &mut Vec<u8>, sequence: usize) -> Result<(), OutOfMemory>
        ensures { OnOk result (out.new.items ≡ out.old.items ++ found_text (setting_of self.now) sequence) }
    {
        self.append_sequence(out, self.found(sequence))
    }

    /// Appends a sequence of the architecture.
    fn append_expected(&self, out: &mut Vec<u8>, sequence: usize) -> Result<(), OutOfMemory>
        ensures { OnOk result (out.new.items ≡ out.old.items ++ expected_text (setting_of self.now) sequence) }
    {
        self.append_sequence(out, self.expected.get(sequence).copied())
    }

    /// Appends a sequence of the program and the one that the architecture has there.
    fn append_both(&self, out: &mut Vec<u8>, sequence: usize) -> Result<(), OutOfMemory>
        ensures { OnOk result (out.new.items ≡ out.old.items ++
            subject_text (setting_of self.now) (Subject.Expected sequence)) }
    {
        append(out, b"sequence ")?;
        append_count(out, sequence)?;
        append(out, b": found ")?;
        self.append_found(out, sequence)?;
        append(out, b", expected ")?;
        self.append_expected(out, sequence)
    }

    /// Appends the number of a sequence of the program, and what it is.
    fn append_here(&self, out: &mut Vec<u8>, sequence: usize) -> Result<(), OutOfMemory>
        ensures { OnOk result (out.new.items ≡ out.old.items ++
            subject_text (setting_of self.now) (Subject.Sequence sequence)) }
    {
        append(out, b"sequence ")?;
        append_count(out, sequence)?;
        append(out, b": ")?;
        self.append_found(out, sequence)
    }

    /// Appends what a rule asks something of.
    fn append_subject(&self, out: &mut Vec<u8>, subject: Subject) -> Result<(), OutOfMemory>
        ensures { OnOk result (out.new.items ≡ out.old.items ++ subject_text (setting_of self.now) subject) }
    {
        match subject {
            Subject::Expected(sequence) => self.append_both(out, sequence),
            Subject::Sequence(sequence) => self.append_here(out, sequence),
            Subject::Operation(operation) => {
                append(out, b"operation ")?;
                append(out, self.operation(operation))
            }
            Subject::Input { operation, number } => {
                append_numbered(out, b"input ", number, self.operation(operation))
            }
            Subject::Output { operation, number } => {
                append_numbered(out, b"output ", number, self.operation(operation))
            }
            Subject::Buffer(buffer) => {
                append(out, b"buffer b")?;
                append_count(out, buffer)
            }
            Subject::Pair(pair) => {
                append(out, b"pair ")?;
                append_count(out, pair)
            }
            Subject::Transfer { medium, number } => {
                append_numbered(out, b"transfer ", number, self.medium(medium))
            }
        }
    }

    /// Appends the line of an instruction and its sequence.
    fn append_spot(&self, out: &mut Vec<u8>, spot: Spot) -> Result<(), OutOfMemory>
        ensures { OnOk result (out.new.items ≡ out.old.items ++ spot_text (setting_of self.now) spot) }
    {
        append_line_number(out, line_at(self.lines, spot))?;
        self.append_found(out, spot.sequence)
    }

    /// Appends the line of an instruction, its sequence and a line feed, if there is one.
    fn append_spot_line(&self, out: &mut Vec<u8>, spot: Option<Spot>) -> Result<(), OutOfMemory>
        ensures { OnOk result (out.new.items ≡ out.old.items ++ spot_line (setting_of self.now) spot) }
    {
        let Some(spot) = spot else {
            return Ok(());
        };
        self.append_spot(out, spot)?;
        append(out, b"\n")
    }

    /// Appends a place at which a rule is broken.
    fn append_place(&self, out: &mut Vec<u8>, place: &Place) -> Result<(), OutOfMemory>
        ensures { OnOk result (out.new.items ≡ out.old.items ++ place_text (setting_of self.now) place.now) }
    {
        append(out, cause_words(place.rule))?;
        append(out, b"\n")?;
        append(out, rule_words(place.rule))?;
        append(out, b"\n")?;
        self.append_subject(out, place.subject)?;
        append(out, b"\n")?;
        self.append_spot_line(out, place.spot)
    }

    /// Appends what a sequence waits for, if it waits.
    fn append_awaited(&self, out: &mut Vec<u8>, awaits: Option<Spot>) -> Result<(), OutOfMemory>
        ensures { OnOk result (out.new.items ≡ out.old.items ++ awaited_text (setting_of self.now) awaits) }
    {
        let Some(spot) = awaits else {
            return Ok(());
        };
        append(out, b" waits for ")?;
        self.append_spot(out, spot)
    }

    /// Appends the line of a sequence that is not at its end.
    fn append_waiting(&self, out: &mut Vec<u8>, waiting: &Waiting) -> Result<(), OutOfMemory>
        ensures { OnOk result (out.new.items ≡ out.old.items ++ waiting_line (setting_of self.now) waiting.now) }
    {
        let here = Spot {
            part: Part::Loop,
            sequence: waiting.sequence,
            at: waiting.at,
        };
        self.append_spot(out, here)?;
        self.append_awaited(out, waiting.awaits)?;
        append(out, b"\n")
    }

    /// Appends the lines of sequences that are not at their end.
    fn append_waitings(&self, out: &mut Vec<u8>, waitings: &[Waiting]) -> Result<(), OutOfMemory>
        ensures { OnOk result (out.new.items ≡ out.old.items ++
            flat_map (waiting_line (setting_of self.now)) waitings.now) }
    {
        for waiting in waitings {
            self.append_waiting(out, waiting)?;
        }
        Ok(())
    }

    /// Appends a reason. After want of memory part of it may stand there.
    fn append_why(&self, out: &mut Vec<u8>, why: &Why) -> Result<(), OutOfMemory>
        ensures { OnOk result (out.new.items ≡ out.old.items ++ why_text (setting_of self.now) why.now) }
    {
        match why {
            Why::Breaks(place) => self.append_place(out, place),
            Why::Stuck(waitings) => {
                append(out, b"K7 Stuck\n")?;
                self.append_waitings(out, waitings.as_slice())
            }
        }
    }

    /// Appends a reason, or that there is none. After want of memory part of it may stand there.
    pub fn append_answer(&self, out: &mut Vec<u8>, why: &Option<Why>) -> Result<(), OutOfMemory>
        ensures { OnOk result (out.new.items ≡ out.old.items ++ answer_text (setting_of self.now) why.now) }
    {
        match why {
            Some(why) => self.append_why(out, why),
            None => append(out, b"well formed\n"),
        }
    }
}

/// Appends a word, a number, and of what it is one.
fn append_numbered(
    out: &mut Vec<u8>,
    word: &[u8],
    number: usize,
    name: &[u8],
) -> Result<(), OutOfMemory>
    ensures { OnOk result (out.new.items ≡ out.old.items ++
        (word.now ++ (decimal number ++ (codes " of " ++ name.now)))) }
{
    append(out, word)?;
    append_count(out, number)?;
    append(out, b" of ")?;
    append(out, name)
}

/// Appends the number of a line, if there is one.
fn append_line_number(out: &mut Vec<u8>, line: Option<usize>) -> Result<(), OutOfMemory>
    ensures { OnOk result (out.new.items ≡ out.old.items ++ number_text line) }
{
    let Some(line) = line else {
        return Ok(());
    };
    append(out, b"line ")?;
    append_count(out, line)?;
    append(out, b": ")
}
