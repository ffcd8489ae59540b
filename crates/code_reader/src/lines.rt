//! The reading of a text, line by line, which callers of the crate ask for.
ghost use Rattle.std.specs.Prelude.{◌≤◌, ◌∷◌, [], length};
ghost use Rattle.syn_base.specs.Limits.{most_in_text};
ghost use Rattle.text_lines.specs.Text.{lines_of};
ghost use Rattle.macro_code.specs.ReadText.{line_of, macro_line, named_line, next_line, placed_line, program_in, rest_of, start, words_line};
ghost use Rattle.text_lines.specs.Refusals.{Gives, Steps};
ghost use Rattle.code_lines.specs.Views.{form_view};
ghost use Rattle.code_reader.specs.Views.{operation_line};
ghost use Rattle.code_reader.specs.Read.{reading};

use crate::macros::find_macro;
use crate::reader::Reader;
use code_lines::{
    Arguments, Form, Known, LineWords, Operation, bad_line, clean_code, op_form, read_call,
    unknown_macro, word_form, words,
};
use executive_program::{Archi, Flat, Program};
use macro_code::{CodeError, Macro};
use std::alloc::Global;

impl Reader {
    /// A line of a macro, at a place where it may stand.
    fn macro_line(
        &mut self,
        known: &Known,
        line: u32,
        arguments: &Arguments,
        found: Macro,
    ) -> Result<(), CodeError>
        ensures { Steps result (reading self.new)
            (macro_line known.now.archi (reading self.old) line arguments.now found) }
    {
        match found {
            Macro::Processor => self.processor_line(known, line, arguments),
            Macro::Semaphores => self.semaphores_line(line, arguments),
            Macro::Alloc => self.alloc_line(line, arguments),
            Macro::Thread => self.thread_line(known, line, arguments),
            Macro::EndThread => self.end_thread_line(line, arguments),
            Macro::Main => self.main_line(line, arguments),
            Macro::EndMain => self.end_main_line(line, arguments),
            Macro::SpawnThread => self.spawn_line(known, line, arguments),
            Macro::WaitEndThread => self.wait_line(known, line, arguments),
            Macro::Loop => self.loop_line(line, arguments),
            Macro::EndLoop => self.end_loop_line(line, arguments),
            Macro::Suc0 => self.suc0_line(line, arguments),
            Macro::Suc1 => self.suc1_line(line, arguments),
            Macro::Pre0 => self.pre0_line(line, arguments),
            Macro::Pre1 => self.pre1_line(line, arguments),
            Macro::Send => self.send_line(known, line, arguments),
            Macro::Recv => self.recv_line(known, line, arguments),
            Macro::Sync => self.sync_line(known, line, arguments),
        }
    }

    /// A line of a macro.
    fn placed_line(
        &mut self,
        known: &Known,
        line: u32,
        arguments: &Arguments,
        found: Macro,
    ) -> Result<(), CodeError>
        ensures { Steps result (reading self.new)
            (placed_line known.now.archi (reading self.old) line arguments.now found) }
    {
        if self.may_stand(found) {
            self.macro_line(known, line, arguments, found)
        } else {
            Err(bad_line(line))
        }
    }

    /// A line that begins with the name of a macro.
    fn named_line(
        &mut self,
        known: &Known,
        line: u32,
        name: &[u8],
        arguments: &Arguments,
    ) -> Result<(), CodeError>
        ensures { Steps result (reading self.new)
            (named_line known.now.archi (reading self.old) line name.now arguments.now) }
    {
        match find_macro(name) {
            Some(found) => self.placed_line(known, line, arguments, found),
            None => Err(unknown_macro(self.alloc, line, name)),
        }
    }

    /// op OPERATION(INS;OUTS)
    fn call_line(
        &mut self,
        known: &Known,
        line: u32,
        operation: &Operation,
    ) -> Result<(), CodeError>
        ensures { Steps result (reading self.new)
            (operation_line known.now.operations (reading self.old) line operation.now) }
    {
        if !self.takes_instr() {
            return Err(bad_line(line));
        }
        let written = read_call(self.alloc, known, line, &self.buffers_here, operation)?;
        self.add(written)
    }

    /// A line of this form.
    fn line_of(&mut self, known: &Known, line: u32, form: &Form) -> Result<(), CodeError>
        ensures { Steps result (reading self.new)
            (line_of known.now.operations known.now.archi (reading self.old) line (form_view form.now)) }
    {
        match form {
            Form::Bare(name) => self.named_line(known, line, name, &Arguments::none()),
            Form::Listed(name, list) => self.named_line(known, line, name, &Arguments::of(list)),
            Form::Call {
                operation,
                ins,
                outs,
            } => {
                let operation = Operation {
                    name: operation,
                    ins,
                    outs,
                };
                self.call_line(known, line, &operation)
            }
        }
    }

    /// A line of one word.
    fn word_line(&mut self, known: &Known, line: u32, word: &[u8]) -> Result<(), CodeError>
        ensures { Steps result (reading self.new)
            (words_line known.now.operations known.now.archi (reading self.old) line (word.now ∷ [])) }
    {
        match word_form(word) {
            Some(form) => self.line_of(known, line, &form),
            None => Err(bad_line(line)),
        }
    }

    /// A line of two words.
    fn op_line(&mut self, known: &Known, line: u32, op: &[u8], word: &[u8]) -> Result<(), CodeError>
        ensures { Steps result (reading self.new)
            (words_line known.now.operations known.now.archi (reading self.old) line (op.now ∷ word.now ∷ [])) }
    {
        match op_form(op, word) {
            Some(form) => self.line_of(known, line, &form),
            None => Err(bad_line(line)),
        }
    }

    /// Reads the next line.
    pub fn next_line(&mut self, known: &Known, line: u32, text: &[u8]) -> Result<(), CodeError>
        ensures { Steps result (reading self.new)
            (next_line known.now.operations known.now.archi (reading self.old) line text.now) }
    {
        let Some(code) = clean_code(text) else {
            return Err(bad_line(line));
        };
        match words(code) {
            LineWords::Blank => Ok(()),
            LineWords::One(word) => self.word_line(known, line, word),
            LineWords::Two(op, word) => self.op_line(known, line, op, word),
            LineWords::Many => Err(bad_line(line)),
        }
    }
}

/// The program of a text of macro-code, or its first refusal. In the order of its lines Refused with the line and
/// the cause; then Refused for the first line that declares a number of a buffer or of a pair that is too great or
/// stands before; then Limit, on words or else on micro-steps. OutOfMemory may come in place of any other result.
///
/// The text may be any, also one that no program here has printed. It takes time in proportion to the text.
pub fn read_code(
    alloc: Global,
    bytes: &[u8],
    flat: &Flat,
    archi: &Archi,
) -> Result<Program, CodeError>
    requires { length (lines_of bytes.now) ≤ most_in_text }
    ensures { Gives result (program_in bytes.now flat.now archi.now) }
{
    let known = Known::of(alloc, flat, archi)?;
    read_lines(alloc, bytes, &known)
}

/// The program of a text, or its first refusal, where the names are known.
fn read_lines(alloc: Global, bytes: &[u8], known: &Known) -> Result<Program, CodeError>
    requires { length (lines_of bytes.now) ≤ most_in_text }
    ensures { Gives result
        (rest_of known.now.operations known.now.archi start 1 (lines_of bytes.now)) }
{
    let mut reader = Reader::new(alloc);
    let mut from = 0;
    let mut number = 1;
    while from < bytes.len() {
        let to = text_lines::line_end(bytes, from);
        reader.next_line(known, number, &bytes[from..to])?;
        number += 1;
        from = to + 1;
    }
    reader.whole(known, number)
}
