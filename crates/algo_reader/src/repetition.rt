//! The block of a repetition: its lines so far, which the reader gives it one by one.
ghost use Rattle.std.specs.Prelude.{◌≡◌, ◌∷◌, []};
ghost use Rattle.text_lines.specs.Refusals.{Steps};
ghost use Rattle.algo_text.specs.Among.{is_among};
ghost use Rattle.algo_text.specs.Outer.{all_outer, outer_names};
ghost use Rattle.algo_text.specs.Blocks.{fork_line, diffuse_line, iterate_line, join_line, new_block, with_frontier};
ghost use Rattle.algo_text.specs.declared.definition.Frontier.{Frontier};
ghost use Rattle.algo_text.specs.declared.part.Part.TheVariants.{Inputs};
ghost use Rattle.algo_reader.specs.Views.{repeat_view, repeat_def, with_line};

use algo_lines::{bad_line, duplicate, line_name};
use algo_text::{AlgoError, Body, Def, Frontier, FrontierLine};
use std::alloc::Global;
use syn_base::{Items, LimitKind, Name};
use text_lines::{Words, check_limit};

/// The lines of a repetition so far.
#[derive(Drop)]
pub struct RepeatBlock {
    pub name: Name,
    pub line: u32,
    pub copies: u32,
    pub def: Name,
    pub frontier: Vec<FrontierLine>,
}

/// Whether an outer port of this frontier has this name.
fn is_outer(frontier: &Frontier, name: &[u8]) -> bool
    ensures { result ≡ is_among name.now (outer_names frontier.now) }
{
    match frontier {
        Frontier::Fork { outer, .. }
        | Frontier::Diffuse { outer, .. }
        | Frontier::Join { outer, .. } => { name == outer.as_bytes() }
        Frontier::Iterate { outer, last, .. } => name == outer.as_bytes()
            || name == last.as_bytes(),
    }
}

/// Whether an outer port of one of these lines has this name.
#[tactic(auto, using(crate::proofs::Taken::either))]
fn has_outer(lines: &[FrontierLine], name: &[u8]) -> bool
    ensures { result ≡ is_among name.now (all_outer lines.now) }
{
    for line in lines {
        if is_outer(&line.frontier, name) {
            return true;
        }
    }
    false
}

impl RepeatBlock {
    /// A repetition without lines. It takes no memory.
    pub fn new(alloc: Global, name: Name, line: u32, copies: u32, def: Name) -> RepeatBlock
        ensures { repeat_view result ≡ record (new_block Inputs name line) { copies = copies; def = def } }
    {
        RepeatBlock {
            name,
            line,
            copies,
            def,
            frontier: Vec::new(alloc),
        }
    }

    /// The definition that the lines make.
    pub fn into_def(self) -> Def
        ensures { result ≡ repeat_def (repeat_view self) }
    {
        Def {
            name: self.name,
            line: self.line,
            body: Body::Repeat {
                copies: self.copies,
                def: self.def,
                lines: Items::new(self.frontier),
            },
        }
    }

    /// Whether a line that gives this one port of the repetition may follow, or why not.
    fn check_port(&self, alloc: Global, number: u32, outer: &[u8]) -> Result<(), AlgoError>
        ensures { (frontier : Frontier) → outer_names frontier ≡ outer.now ∷ [] →
            Steps result (with_line (repeat_view self.now) number frontier)
            (with_frontier (repeat_view self.now) number frontier) }
    {
        let count = self.frontier.len() as u128 + 1;
        check_limit(LimitKind::Ports, count)?;
        if has_outer(self.frontier.as_slice(), outer) {
            return Err(duplicate(alloc, number, outer));
        }
        Ok(())
    }

    /// Whether a line that gives this input and this output of the repetition may follow, or why not.
    fn check_ports(
        &self,
        alloc: Global,
        number: u32,
        outer: &[u8],
        last: &[u8],
    ) -> Result<(), AlgoError>
        ensures { (frontier : Frontier) → outer_names frontier ≡ outer.now ∷ last.now ∷ [] →
            Steps result (with_line (repeat_view self.now) number frontier)
            (with_frontier (repeat_view self.now) number frontier) }
    {
        let count = self.frontier.len() as u128 + 1;
        check_limit(LimitKind::Ports, count)?;
        if has_outer(self.frontier.as_slice(), outer) {
            return Err(duplicate(alloc, number, outer));
        }
        if last == outer || has_outer(self.frontier.as_slice(), last) {
            return Err(duplicate(alloc, number, last));
        }
        Ok(())
    }

    /// Adds a line that gives one port of the repetition.
    fn add(
        &mut self,
        alloc: Global,
        number: u32,
        frontier: Frontier,
        outer: &[u8],
    ) -> Result<(), AlgoError>
        requires { outer_names frontier ≡ outer.now ∷ [] }
        ensures { Steps result (repeat_view self.new) (with_frontier (repeat_view self.old) number frontier) }
    {
        self.check_port(alloc, number, outer)?;
        let line = FrontierLine {
            frontier,
            line: number,
        };
        self.frontier.push(line)?;
        Ok(())
    }

    /// Adds a line that gives an input and an output of the repetition.
    fn add_both(
        &mut self,
        alloc: Global,
        number: u32,
        frontier: Frontier,
        outer: &[u8],
        last: &[u8],
    ) -> Result<(), AlgoError>
        requires { outer_names frontier ≡ outer.now ∷ last.now ∷ [] }
        ensures { Steps result (repeat_view self.new) (with_frontier (repeat_view self.old) number frontier) }
    {
        self.check_ports(alloc, number, outer, last)?;
        let line = FrontierLine {
            frontier,
            line: number,
        };
        self.frontier.push(line)?;
        Ok(())
    }

    /// Reads a line `fork P X`: one frontier line more, or the line's refusal.
    #[tactic(auto, using(crate::proofs::AfterFirst::after_two))]
    pub fn fork_line(&mut self, alloc: Global, number: u32, words: &Words) -> Result<(), AlgoError>
        ensures { Steps result (repeat_view self.new) (fork_line (repeat_view self.old) number words.now) }
    {
        if words.len() != 3 {
            return Err(bad_line(number));
        }
        let outer = line_name(alloc, number, words.get(1))?;
        let inner = line_name(alloc, number, words.get(2))?;
        let frontier = Frontier::Fork { outer, inner };
        self.add(alloc, number, frontier, words.get(1))
    }

    /// Reads a line `diffuse P X`: one frontier line more, or the line's refusal.
    #[tactic(auto, using(crate::proofs::AfterFirst::after_two))]
    pub fn diffuse_line(
        &mut self,
        alloc: Global,
        number: u32,
        words: &Words,
    ) -> Result<(), AlgoError>
        ensures { Steps result (repeat_view self.new) (diffuse_line (repeat_view self.old) number words.now) }
    {
        if words.len() != 3 {
            return Err(bad_line(number));
        }
        let outer = line_name(alloc, number, words.get(1))?;
        let inner = line_name(alloc, number, words.get(2))?;
        let frontier = Frontier::Diffuse { outer, inner };
        self.add(alloc, number, frontier, words.get(1))
    }

    /// Reads a line `join Y Q`: one frontier line more, or the line's refusal.
    #[tactic(auto, using(crate::proofs::AfterFirst::after_two))]
    pub fn join_line(&mut self, alloc: Global, number: u32, words: &Words) -> Result<(), AlgoError>
        ensures { Steps result (repeat_view self.new) (join_line (repeat_view self.old) number words.now) }
    {
        if words.len() != 3 {
            return Err(bad_line(number));
        }
        let given = line_name(alloc, number, words.get(1))?;
        let outer = line_name(alloc, number, words.get(2))?;
        let frontier = Frontier::Join { given, outer };
        self.add(alloc, number, frontier, words.get(2))
    }

    /// Reads a line `iterate P X Y Q`: one frontier line more, or the line's refusal.
    #[tactic(auto, using(crate::proofs::AfterFirst::after_four))]
    pub fn iterate_line(
        &mut self,
        alloc: Global,
        number: u32,
        words: &Words,
    ) -> Result<(), AlgoError>
        ensures { Steps result (repeat_view self.new) (iterate_line (repeat_view self.old) number words.now) }
    {
        if words.len() != 5 {
            return Err(bad_line(number));
        }
        let outer = line_name(alloc, number, words.get(1))?;
        let inner = line_name(alloc, number, words.get(2))?;
        let given = line_name(alloc, number, words.get(3))?;
        let last = line_name(alloc, number, words.get(4))?;
        let frontier = Frontier::Iterate {
            outer,
            inner,
            given,
            last,
        };
        self.add_both(alloc, number, frontier, words.get(1), words.get(4))
    }
}
