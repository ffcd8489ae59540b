//! The block of a graph: its lines so far, which the reader gives it one by one.
ghost use Rattle.std.specs.Prelude.{◌≡◌, ◌≤◌, map, true, length};
ghost use Rattle.text_lines.specs.Refusals.{Gives, Steps};
ghost use Rattle.algo_text.specs.Among.{is_among};
ghost use Rattle.algo_text.specs.Blocks.{in_line, out_line, reference_of, with_reference, plain_line, marked_line, reference_line, edge_line, is_taken, new_block};
ghost use Rattle.algo_reader.specs.Views.{graph_view, graph_def};

use algo_lines::{
    Ports, bad_line, bad_name, bad_number, duplicate, line_name, read_end, read_period, read_port,
};
use algo_text::{AlgoError, Body, Def, Edge, Part, Reference};
use std::alloc::Global;
use syn_base::{Items, LimitKind, Name};
use text_lines::{Words, check_limit};

/// The lines of a graph so far.
#[derive(Drop)]
pub struct GraphBlock {
    pub name: Name,
    pub line: u32,
    /// Inputs, outputs, references or edges.
    pub part: Part,
    pub ins: Ports,
    pub outs: Ports,
    pub references: Vec<Reference>,
    pub edges: Vec<Edge>,
}

/// Whether one of these references has this name.
fn has_reference(references: &[Reference], name: &[u8]) -> bool
    ensures { result ≡ is_among name.now (map (λ r. r.name) references.now) }
{
    for reference in references {
        if name == reference.name.as_bytes() {
            return true;
        }
    }
    false
}

/// The reference that R DEF after `ref` gives, without a mark, or the line's refusal.
fn read_reference(alloc: Global, number: u32, words: &Words) -> Result<Reference, AlgoError>
    requires { 3 ≤ length words.now }
    ensures { Gives result (reference_of number words.now) }
{
    let name = line_name(alloc, number, words.get(1))?;
    let def = line_name(alloc, number, words.get(2))?;
    Ok(Reference {
        name,
        def,
        every: None,
        line: number,
    })
}

impl GraphBlock {
    /// A graph without lines. It takes no memory.
    pub fn new(alloc: Global, name: Name, line: u32) -> GraphBlock
        ensures { graph_view result ≡ new_block Part.Inputs name line }
    {
        GraphBlock {
            name,
            line,
            part: Part::Inputs,
            ins: Ports::new(alloc),
            outs: Ports::new(alloc),
            references: Vec::new(alloc),
            edges: Vec::new(alloc),
        }
    }

    /// Whether a port of the graph has this name.
    #[tactic(auto, using(crate::proofs::Taken::two_named))]
    fn is_taken(&self, name: &Name) -> bool
        ensures { result ≡ is_taken (graph_view self.now) name.now }
    {
        let name = name.as_bytes();
        self.ins.has(name) || self.outs.has(name)
    }

    /// The definition that the lines make.
    pub fn into_def(self) -> Def
        ensures { result ≡ graph_def (graph_view self) }
    {
        Def {
            name: self.name,
            line: self.line,
            body: Body::Graph {
                ins: self.ins.into_items(),
                outs: self.outs.into_items(),
                references: Items::new(self.references),
                edges: Items::new(self.edges),
            },
        }
    }

    /// Reads a line `in P LEN`: one input more, or the line's refusal.
    pub fn in_line(&mut self, alloc: Global, number: u32, words: &Words) -> Result<(), AlgoError>
        ensures { Steps result (graph_view self.new) (in_line (graph_view self.old) number words.now) }
    {
        if words.len() != 3 || !self.part.admits(Part::Inputs) {
            return Err(bad_line(number));
        }
        let port = read_port(alloc, number, self.ins.len(), words)?;
        if self.is_taken(&port.name) {
            return Err(duplicate(alloc, number, port.name.as_bytes()));
        }
        self.ins.add(port)?;
        Ok(())
    }

    /// Reads a line `out P LEN`: one output more, or the line's refusal.
    pub fn out_line(&mut self, alloc: Global, number: u32, words: &Words) -> Result<(), AlgoError>
        ensures { Steps result (graph_view self.new) (out_line (graph_view self.old) number words.now) }
    {
        if words.len() != 3 || !self.part.admits(Part::Outputs) {
            return Err(bad_line(number));
        }
        let port = read_port(alloc, number, self.outs.len(), words)?;
        if self.is_taken(&port.name) {
            return Err(duplicate(alloc, number, port.name.as_bytes()));
        }
        self.part = Part::Outputs;
        self.outs.add(port)?;
        Ok(())
    }

    /// Adds a reference, or refuses it where one has its name or there are too many.
    fn add_reference(&mut self, alloc: Global, reference: Reference) -> Result<(), AlgoError>
        ensures { Steps result (graph_view self.new) (with_reference (graph_view self.old) reference) }
    {
        let count = self.references.len() as u128 + 1;
        check_limit(LimitKind::References, count)?;
        if has_reference(self.references.as_slice(), reference.name.as_bytes()) {
            return Err(duplicate(alloc, reference.line, reference.name.as_bytes()));
        }
        self.part = Part::References;
        self.references.push(reference)?;
        Ok(())
    }

    /// Reads a line `ref R DEF`: one reference more, or the line's refusal.
    fn plain_line(&mut self, alloc: Global, number: u32, words: &Words) -> Result<(), AlgoError>
        ensures { Steps result (graph_view self.new) (plain_line (graph_view self.old) number words.now) }
    {
        if words.len() != 3 || !self.part.admits(Part::References) {
            return Err(bad_line(number));
        }
        let reference = read_reference(alloc, number, words)?;
        self.add_reference(alloc, reference)
    }

    /// Reads a line `ref R DEF every N`: one reference with a mark more, or the line's refusal.
    fn marked_line(&mut self, alloc: Global, number: u32, words: &Words) -> Result<(), AlgoError>
        requires { length words.now ≡ 5 }
        ensures { Steps result (graph_view self.new) (marked_line (graph_view self.old) number words.now) }
    {
        if words.get(3) != b"every".as_slice() || !self.part.admits(Part::References) {
            return Err(bad_line(number));
        }
        let reference = read_reference(alloc, number, words)?;
        let Some(every) = read_period(words.get(4)) else {
            return Err(bad_number(alloc, number, words.get(4)));
        };
        self.add_reference(
            alloc,
            Reference {
                every: Some(every),
                ..reference
            },
        )
    }

    /// Reads a line `ref`, whose reference may have a mark in version 3.
    pub fn reference_line(
        &mut self,
        alloc: Global,
        version: u32,
        number: u32,
        words: &Words,
    ) -> Result<(), AlgoError>
        ensures { Steps result (graph_view self.new) (reference_line version (graph_view self.old) number words.now) }
    {
        if version == 3 && words.len() == 5 {
            return self.marked_line(alloc, number, words);
        }
        self.plain_line(alloc, number, words)
    }

    /// Reads a line `edge FROM TO`: one edge more, or the line's refusal.
    pub fn edge_line(&mut self, alloc: Global, number: u32, words: &Words) -> Result<(), AlgoError>
        ensures { Steps result (graph_view self.new) (edge_line (graph_view self.old) number words.now) }
    {
        if words.len() != 3 {
            return Err(bad_line(number));
        }
        let Some(from) = read_end(alloc, words.get(1))? else {
            return Err(bad_name(alloc, number, words.get(1)));
        };
        let Some(to) = read_end(alloc, words.get(2))? else {
            return Err(bad_name(alloc, number, words.get(2)));
        };
        self.part = Part::Edges;
        self.edges.push(Edge {
            from,
            to,
            line: number,
        })?;
        Ok(())
    }
}
