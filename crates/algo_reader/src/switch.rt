//! The block of a switch: its lines so far, which the reader gives it one by one.
ghost use Rattle.std.specs.Prelude.{◌≡◌, true, false, MatchOption};
ghost use Rattle.std.specs.Str.{bytes_eq};
ghost use Rattle.text_lines.specs.Refusals.{Steps};
ghost use Rattle.algo_text.specs.Parts.{is_whole};
ghost use Rattle.algo_text.specs.Blocks.{in_line, out_line, on_line, case_line, otherwise_line, is_taken, new_block};
ghost use Rattle.algo_reader.specs.Views.{switch_view, switch_def, part_of, on_of};

use algo_lines::{Ports, bad_line, bad_number, duplicate, line_name, read_number, read_port};
use algo_text::{AlgoError, Body, Case, Def, Part};
use std::alloc::Global;
use syn_base::{Items, LimitKind, Name};
use text_lines::{Words, check_limit};

/// The part of a switch after its line `on` in which the last line stands.
#[derive(Drop)]
pub enum SwitchPart {
    Inputs,
    Outputs,
    Cases,
    /// The definition of `otherwise`, and its line.
    Whole(Name, u32),
}

/// The lines of a switch so far.
#[derive(Drop)]
pub struct SwitchBlock {
    pub name: Name,
    pub line: u32,
    /// The conditioning input, once its line is read.
    pub on: Option<Name>,
    pub part: SwitchPart,
    pub ins: Ports,
    pub outs: Ports,
    pub cases: Vec<Case>,
}

impl SwitchBlock {
    /// A switch without lines. It takes no memory.
    pub fn new(alloc: Global, name: Name, line: u32) -> SwitchBlock
        ensures { switch_view result ≡ new_block Part.Conditioning name line }
    {
        SwitchBlock {
            name,
            line,
            on: None,
            part: SwitchPart::Inputs,
            ins: Ports::new(alloc),
            outs: Ports::new(alloc),
            cases: Vec::new(alloc),
        }
    }

    /// The part in which the last line stands.
    fn part(&self) -> Part
        ensures { result ≡ part_of self.now.on self.now.part }
    {
        if self.on.is_none() {
            return Part::Conditioning;
        }
        match &self.part {
            SwitchPart::Inputs => Part::Inputs,
            SwitchPart::Outputs => Part::Outputs,
            SwitchPart::Cases => Part::Cases,
            SwitchPart::Whole(_, _) => Part::Whole,
        }
    }

    /// Whether the conditioning input has this name; before its line is read it has none.
    fn is_on(&self, name: &[u8]) -> bool
        ensures { result ≡ bytes_eq name.now (on_of self.now.on) }
    {
        match &self.on {
            Some(on) => name == on.as_bytes(),
            None => name.is_empty(),
        }
    }

    /// Whether a port of the switch has this name.
    #[tactic(auto, using(crate::proofs::Taken::two_lists))]
    fn is_taken(&self, name: &Name) -> bool
        ensures { result ≡ is_taken (switch_view self.now) name.now }
    {
        let name = name.as_bytes();
        self.is_on(name) || self.ins.has(name) || self.outs.has(name)
    }

    /// The definition that the lines make, once the line `otherwise` was read.
    pub fn into_def(self) -> Option<Def>
        ensures { MatchOption result (is_whole (switch_view self).part ≡ false)
            (λ def. (is_whole (switch_view self).part ≡ true) ×
            (def ≡ switch_def (switch_view self))) }
    {
        let (Some(on), SwitchPart::Whole(otherwise, otherwise_line)) = (self.on, self.part) else {
            return None;
        };
        Some(Def {
            name: self.name,
            line: self.line,
            body: Body::Switch {
                on,
                ins: self.ins.into_items(),
                outs: self.outs.into_items(),
                cases: Items::new(self.cases),
                otherwise,
                otherwise_line,
            },
        })
    }

    /// Reads the first line, `on P`: the conditioning input, or the line's refusal.
    pub fn on_line(&mut self, alloc: Global, number: u32, words: &Words) -> Result<(), AlgoError>
        ensures { Steps result (switch_view self.new) (on_line (switch_view self.old) number words.now) }
    {
        if words.len() != 2 || !self.part().is_conditioning() {
            return Err(bad_line(number));
        }
        let on = line_name(alloc, number, words.get(1))?;
        self.on = Some(on);
        self.part = SwitchPart::Inputs;
        Ok(())
    }

    /// Reads a line `in P LEN`: one input more, or the line's refusal.
    pub fn in_line(&mut self, alloc: Global, number: u32, words: &Words) -> Result<(), AlgoError>
        ensures { Steps result (switch_view self.new) (in_line (switch_view self.old) number words.now) }
    {
        if words.len() != 3 || !self.part().admits(Part::Inputs) {
            return Err(bad_line(number));
        }
        let port = read_port(alloc, number, self.ins.len(), words)?;
        if self.is_taken(&port.name) {
            return Err(duplicate(alloc, number, port.name.as_bytes()));
        }
        self.ins.add(port)?;
        Ok(())
    }

    /// Reads a line `out P LEN`: one output more, or the line's refusal.
    pub fn out_line(&mut self, alloc: Global, number: u32, words: &Words) -> Result<(), AlgoError>
        ensures { Steps result (switch_view self.new) (out_line (switch_view self.old) number words.now) }
    {
        if words.len() != 3 || !self.part().admits(Part::Outputs) {
            return Err(bad_line(number));
        }
        let port = read_port(alloc, number, self.outs.len(), words)?;
        if self.is_taken(&port.name) {
            return Err(duplicate(alloc, number, port.name.as_bytes()));
        }
        self.part = SwitchPart::Outputs;
        self.outs.add(port)?;
        Ok(())
    }

    /// Reads a line `case VALUE DEF`: one case more, or the line's refusal.
    pub fn case_line(&mut self, alloc: Global, number: u32, words: &Words) -> Result<(), AlgoError>
        ensures { Steps result (switch_view self.new) (case_line (switch_view self.old) number words.now) }
    {
        if words.len() != 3 || !self.part().admits(Part::Cases) {
            return Err(bad_line(number));
        }
        let def = line_name(alloc, number, words.get(2))?;
        let Some(value) = read_number(words.get(1)) else {
            return Err(bad_number(alloc, number, words.get(1)));
        };
        let count = self.cases.len() as u128 + 1;
        check_limit(LimitKind::Cases, count)?;
        self.part = SwitchPart::Cases;
        self.cases.push(Case {
            value,
            def,
            line: number,
        })?;
        Ok(())
    }

    /// Reads the last line, `otherwise DEF`, or refuses it.
    pub fn otherwise_line(
        &mut self,
        alloc: Global,
        number: u32,
        words: &Words,
    ) -> Result<(), AlgoError>
        ensures { Steps result (switch_view self.new) (otherwise_line (switch_view self.old) number words.now) }
    {
        if words.len() != 2 || !self.part().admits(Part::Cases) {
            return Err(bad_line(number));
        }
        let def = line_name(alloc, number, words.get(1))?;
        self.part = SwitchPart::Whole(def, number);
        Ok(())
    }
}
