//! The block of a function: its lines so far, which the reader gives it one by one.
ghost use Rattle.std.specs.Prelude.{◌≡◌, ◌≤◌, map, length, drop, position};
ghost use Rattle.text_lines.specs.Refusals.{Steps};
ghost use Rattle.algo_text.specs.Among.{is_among};
ghost use Rattle.algo_text.specs.Blocks.{in_line, result_line, result_words, is_equals, is_taken, new_block};
ghost use Rattle.algo_reader.specs.Views.{function_view, function_def};

use algo_lines::{Ports, bad_line, duplicate, read_formula, read_port};
use algo_text::{AlgoError, Body, Def, Output, Part};
use std::alloc::Global;
use syn_base::{Items, Name};
use text_lines::Words;

/// The lines of a function so far.
#[derive(Drop)]
pub struct FunctionBlock {
    pub name: Name,
    pub line: u32,
    /// Inputs or outputs.
    pub part: Part,
    pub ins: Ports,
    pub results: Vec<Output>,
}

/// Whether one of these outputs has this name.
fn has_output(outputs: &[Output], name: &[u8]) -> bool
    ensures { result ≡ is_among name.now (map (λ o. o.port.name) outputs.now) }
{
    for output in outputs {
        if name == output.port.name.as_bytes() {
            return true;
        }
    }
    false
}

/// How many outputs there are.
fn count(outputs: &Vec<Output>) -> usize
    ensures { result ≡ length outputs.now.items }
{
    outputs.len()
}

/// The bytes from a place on.
fn text_from(code: &[u8], at: usize) -> &[u8]
    requires { at ≤ length code.now }
    ensures { result.now ≡ drop at code.now }
{
    &code[at..]
}

/// The place of the first `=`.
fn equals_in(code: &[u8]) -> Option<usize>
    ensures { result ≡ position is_equals code.now }
{
    code.iter().position(|b| *b == b'=')
}

impl FunctionBlock {
    /// A function without lines. It takes no memory.
    pub fn new(alloc: Global, name: Name, line: u32) -> FunctionBlock
        ensures { function_view result ≡ new_block Part.Inputs name line }
    {
        FunctionBlock {
            name,
            line,
            part: Part::Inputs,
            ins: Ports::new(alloc),
            results: Vec::new(alloc),
        }
    }

    /// Whether a port of the function has this name.
    #[tactic(auto, using(crate::proofs::Taken::two_named))]
    fn is_taken(&self, name: &Name) -> bool
        ensures { result ≡ is_taken (function_view self.now) name.now }
    {
        let name = name.as_bytes();
        self.ins.has(name) || has_output(self.results.as_slice(), name)
    }

    /// The definition that the lines make.
    pub fn into_def(self) -> Def
        ensures { result ≡ function_def (function_view self) }
    {
        Def {
            name: self.name,
            line: self.line,
            body: Body::Function {
                ins: self.ins.into_items(),
                outs: Items::new(self.results),
            },
        }
    }

    /// Reads a line `in P LEN`: one input more, or the line's refusal.
    pub fn in_line(&mut self, alloc: Global, number: u32, words: &Words) -> Result<(), AlgoError>
        ensures { Steps result (function_view self.new) (in_line (function_view self.old) number words.now) }
    {
        if words.len() != 3 || !self.part.admits(Part::Inputs) {
            return Err(bad_line(number));
        }
        let port = read_port(alloc, number, self.ins.len(), words)?;
        if self.is_taken(&port.name) {
            return Err(duplicate(alloc, number, port.name.as_bytes()));
        }
        self.ins.add(port)?;
        Ok(())
    }

    /// Reads the words `out P LEN` with the text of the expression: one output more, or the line's refusal.
    fn result_words(
        &mut self,
        alloc: Global,
        number: u32,
        words: &Words,
        text: &[u8],
    ) -> Result<(), AlgoError>
        ensures { Steps result (function_view self.new)
            (result_words (function_view self.old) number words.now text.now) }
    {
        if words.len() != 3 || !self.part.admits(Part::Outputs) {
            return Err(bad_line(number));
        }
        let port = read_port(alloc, number, count(&self.results), words)?;
        let formula = read_formula(alloc, number, self.ins.as_slice(), text)?;
        if self.is_taken(&port.name) {
            return Err(duplicate(alloc, number, port.name.as_bytes()));
        }
        self.part = Part::Outputs;
        self.results.push(Output { port, formula })?;
        Ok(())
    }

    /// Reads a line `out P LEN = EXPRESSION`: the words stand before the first `=`, the expression after it.
    pub fn result_line(&mut self, alloc: Global, number: u32, code: &[u8]) -> Result<(), AlgoError>
        ensures { Steps result (function_view self.new) (result_line (function_view self.old) number code.now) }
    {
        let Some(at) = equals_in(code) else {
            return Err(bad_line(number));
        };
        let words = Words::of(alloc, &code[..at])?;
        self.result_words(alloc, number, &words, text_from(code, at + 1))
    }
}
