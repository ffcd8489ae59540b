//! The reader of a whole text, which gives each line to what is open where it stands.
ghost use Rattle.std.specs.Prelude.{◌≡◌, ◌<◌, ◌≤◌, length, Ok};
ghost use Rattle.syn_base.specs.Limits.{most_in_text};
ghost use Rattle.text_lines.specs.Text.{lines_of};
ghost use Rattle.text_lines.specs.Refusals.{Gives, Steps};
ghost use Rattle.algo_text.specs.Blocks.{new_block};
ghost use Rattle.algo_text.specs.Text.{definitions_of, start, first_part, version_line, end_line, values_line, deep_line, delay_line, opening_line, repeat_line, between_line, function_line, graph_line, switch_line, frontier_line, by_stage, next_line, at_end, defs_in, in_function, in_graph, in_switch, in_repeat};
ghost use Rattle.algo_reader.specs.Views.{reading, settle, ended, is_between, function_end, graph_end, switch_end, repeat_end, any_end, stage_of, block_of, stage_for, end_body, values_body, function_view, graph_view, switch_view, repeat_view};

use crate::function::FunctionBlock;
use crate::graph::GraphBlock;
use crate::repetition::RepeatBlock;
use crate::switch::SwitchBlock;
use algo_lines::{
    add_new, bad_line, bad_number, delay_depth, line_name, not_text, read_count, read_values,
    read_version,
};
use algo_text::{AlgoError, Body, Def, Defs};
use std::alloc::Global;
use std::mem;
use syn_base::{Items, LimitKind, Name};
use text_lines::{Names, TableKey, Words, check_limit};

/// A kind of block that its first line only names.
#[derive(Clone, Copy, Drop)]
pub enum Kind {
    Function,
    Graph,
    Switch,
}

/// An end of the whole algorithm.
#[derive(Clone, Copy, Drop)]
pub enum EndKind {
    Sensor,
    Actuator,
}

/// A definition that is a list of values, of which a delay has depth 1.
#[derive(Clone, Copy, Drop)]
pub enum ValuesKind {
    Constant,
    Delay,
}

/// Where the next line stands.
#[derive(Drop)]
pub enum Place {
    BeforeVersion,
    Between,
    InFunction(FunctionBlock),
    InGraph(GraphBlock),
    InSwitch(SwitchBlock),
    InRepeat(RepeatBlock),
}

impl Place {
    /// Whether no block is open and the version was read.
    fn is_between(&self) -> bool
        ensures { result ≡ is_between (stage_of self.now) }
    {
        match self {
            Place::Between => true,
            _ => false,
        }
    }
}

/// What was read so far: the version, the definitions, their names with the open block's, and where the next line
/// stands.
#[derive(Drop)]
pub struct Reader<'a> {
    /// 0 before the line of the version.
    pub version: u32,
    pub defs: Vec<Def>,
    pub names: Names<'a>,
    pub place: Place,
}

/// The place of the next line where a block of this kind begins.
fn open_block(alloc: Global, kind: Kind, name: Name, line: u32) -> Place
    ensures stage { stage_of result ≡ stage_for kind }
    ensures block { block_of result ≡ new_block (first_part (stage_for kind)) name line }
{
    match kind {
        Kind::Function => Place::InFunction(FunctionBlock::new(alloc, name, line)),
        Kind::Graph => Place::InGraph(GraphBlock::new(alloc, name, line)),
        Kind::Switch => Place::InSwitch(SwitchBlock::new(alloc, name, line)),
    }
}

/// The body of a sensor or an actuator of this length.
fn end_body(kind: EndKind, len: u32) -> Body
    ensures { result ≡ end_body kind len }
{
    match kind {
        EndKind::Sensor => Body::Sensor(len),
        EndKind::Actuator => Body::Actuator(len),
    }
}

/// The body of a constant, or of a delay of depth 1, with these values.
fn values_body(kind: ValuesKind, values: Vec<i64>) -> Body
    ensures { result ≡ values_body kind values.items }
{
    match kind {
        ValuesKind::Constant => Body::Constant(Items::new(values)),
        ValuesKind::Delay => Body::Delay(1, Items::new(values)),
    }
}

impl<'a> Reader<'a> {
    /// A reader that has read nothing, with the key of its text. It takes no memory.
    pub fn new(alloc: Global, key: TableKey) -> Reader<'a>
        ensures { reading result ≡ start }
    {
        Reader {
            version: 0,
            defs: Vec::new(alloc),
            names: Names::new(alloc, key),
            place: Place::BeforeVersion,
        }
    }

    /// Lets the next line stand at this place.
    fn go_to(&mut self, place: Place)
        ensures { self.new ≡ record self.old { place = place } }
    {
        self.place = place;
    }

    /// Ends the open block, which has become this definition.
    fn end_as(&mut self, def: Def) -> Result<(), AlgoError>
        ensures { Steps result (reading self.new) (Ok (ended (reading self.old) def)) }
    {
        self.go_to(Place::Between);
        self.defs.push(def)?;
        Ok(())
    }

    /// Reads the first line, `algorithm VERSION`, or refuses it.
    fn version_line(&mut self, number: u32, words: &Words) -> Result<(), AlgoError>
        requires { 0 < length words.now }
        ensures { Steps result (reading self.new) (settle (version_line (reading self.old) number words.now)) }
    {
        if words.len() != 2 {
            return Err(bad_line(number));
        }
        if !words.begins(b"algorithm") {
            return Err(bad_line(number));
        }
        let Some(version) = read_version(words.get(1)) else {
            return Err(bad_line(number));
        };
        self.version = version;
        self.go_to(Place::Between);
        Ok(())
    }

    /// Reads a line `sensor NAME LEN` or `actuator NAME LEN`: one definition more, or the line's refusal.
    fn end_line(
        &mut self,
        alloc: Global,
        kind: EndKind,
        number: u32,
        words: &Words<'a>,
    ) -> Result<(), AlgoError>
        ensures { Steps result (reading self.new) (end_line (end_body kind) (reading self.old) number words.now) }
    {
        if words.len() != 3 {
            return Err(bad_line(number));
        }
        let name = line_name(alloc, number, words.get(1))?;
        let Some(len) = read_count(words.get(2)) else {
            return Err(bad_number(alloc, number, words.get(2)));
        };
        check_limit(LimitKind::PortLength, u128::from(len))?;
        add_new(alloc, &mut self.names, number, words.get(1))?;
        let def = Def {
            name,
            line: number,
            body: end_body(kind, len as u32),
        };
        self.defs.push(def)?;
        Ok(())
    }

    /// Reads a line `constant NAME = V0 V1 ..`, or `delay` likewise in version 1: one definition more, or the line's
    /// refusal.
    fn values_line(
        &mut self,
        alloc: Global,
        kind: ValuesKind,
        number: u32,
        words: &Words<'a>,
    ) -> Result<(), AlgoError>
        ensures { Steps result (reading self.new) (values_line (values_body kind) (reading self.old) number words.now) }
    {
        if words.len() < 4 {
            return Err(bad_line(number));
        }
        if words.get(2) != b"=".as_slice() {
            return Err(bad_line(number));
        }
        let name = line_name(alloc, number, words.get(1))?;
        let values = read_values(alloc, number, words, 3)?;
        check_limit(LimitKind::PortLength, values.len() as u128)?;
        add_new(alloc, &mut self.names, number, words.get(1))?;
        let def = Def {
            name,
            line: number,
            body: values_body(kind, values),
        };
        self.defs.push(def)?;
        Ok(())
    }

    /// Reads a line `delay NAME DEPTH = V0 V1 ..`, from version 2 on: one definition more, or the line's refusal.
    fn deep_line(&mut self, alloc: Global, number: u32, words: &Words<'a>) -> Result<(), AlgoError>
        ensures { Steps result (reading self.new) (deep_line (reading self.old) number words.now) }
    {
        if words.len() < 5 {
            return Err(bad_line(number));
        }
        if words.get(3) != b"=".as_slice() {
            return Err(bad_line(number));
        }
        let name = line_name(alloc, number, words.get(1))?;
        let Some(depth) = read_count(words.get(2)) else {
            return Err(bad_number(alloc, number, words.get(2)));
        };
        let values = read_values(alloc, number, words, 4)?;
        let depth = delay_depth(number, depth, values.as_slice())?;
        add_new(alloc, &mut self.names, number, words.get(1))?;
        let def = Def {
            name,
            line: number,
            body: Body::Delay(depth, Items::new(values)),
        };
        self.defs.push(def)?;
        Ok(())
    }

    /// Reads a line `delay`, of depth 1 in version 1.
    fn delay_line(&mut self, alloc: Global, number: u32, words: &Words<'a>) -> Result<(), AlgoError>
        ensures { Steps result (reading self.new) (delay_line (reading self.old) number words.now) }
    {
        if self.version == 1 {
            self.values_line(alloc, ValuesKind::Delay, number, words)
        } else {
            self.deep_line(alloc, number, words)
        }
    }

    /// Reads a line `function NAME`, `graph NAME` or `switch NAME`, which opens a block, or refuses it.
    fn opening_line(
        &mut self,
        alloc: Global,
        kind: Kind,
        number: u32,
        words: &Words<'a>,
    ) -> Result<(), AlgoError>
        ensures { Steps result (reading self.new) (opening_line (stage_for kind) (reading self.old) number words.now) }
    {
        if words.len() != 2 {
            return Err(bad_line(number));
        }
        let name = line_name(alloc, number, words.get(1))?;
        add_new(alloc, &mut self.names, number, words.get(1))?;
        self.go_to(open_block(alloc, kind, name, number));
        Ok(())
    }

    /// Reads a line `repeat NAME COUNT DEF`, which opens a block, or refuses it.
    fn repeat_line(
        &mut self,
        alloc: Global,
        number: u32,
        words: &Words<'a>,
    ) -> Result<(), AlgoError>
        ensures { Steps result (reading self.new) (repeat_line (reading self.old) number words.now) }
    {
        if words.len() != 4 {
            return Err(bad_line(number));
        }
        let name = line_name(alloc, number, words.get(1))?;
        let def = line_name(alloc, number, words.get(3))?;
        let Some(copies) = read_count(words.get(2)) else {
            return Err(bad_number(alloc, number, words.get(2)));
        };
        check_limit(LimitKind::Copies, u128::from(copies))?;
        add_new(alloc, &mut self.names, number, words.get(1))?;
        let block = RepeatBlock::new(alloc, name, number, copies as u32, def);
        self.go_to(Place::InRepeat(block));
        Ok(())
    }

    /// Reads a line between definitions.
    fn between_line(
        &mut self,
        alloc: Global,
        number: u32,
        words: &Words<'a>,
    ) -> Result<(), AlgoError>
        requires { 0 < length words.now }
        ensures { Steps result (reading self.new) (between_line (reading self.old) number words.now) }
    {
        if words.begins(b"sensor") {
            return self.end_line(alloc, EndKind::Sensor, number, words);
        }
        if words.begins(b"actuator") {
            return self.end_line(alloc, EndKind::Actuator, number, words);
        }
        if words.begins(b"constant") {
            return self.values_line(alloc, ValuesKind::Constant, number, words);
        }
        if words.begins(b"delay") {
            return self.delay_line(alloc, number, words);
        }
        if words.begins(b"function") {
            return self.opening_line(alloc, Kind::Function, number, words);
        }
        if words.begins(b"graph") {
            return self.opening_line(alloc, Kind::Graph, number, words);
        }
        if words.begins(b"switch") {
            return self.opening_line(alloc, Kind::Switch, number, words);
        }
        if words.begins(b"repeat") {
            return self.repeat_line(alloc, number, words);
        }
        Err(bad_line(number))
    }

    /// Reads the line `end` of a function, which has an output: one definition more, or the line's refusal.
    fn function_end(
        &mut self,
        number: u32,
        words: &Words,
        block: FunctionBlock,
    ) -> Result<(), AlgoError>
        ensures { Steps result (reading self.new)
            (settle (function_end (record (reading self.old)
            { stage = in_function; block = function_view block }) number words.now)) }
    {
        if words.len() != 1 || block.results.as_slice().is_empty() {
            return Err(bad_line(number));
        }
        self.end_as(block.into_def())
    }

    /// Reads the line `end` of a graph: one definition more, or the line's refusal.
    fn graph_end(&mut self, number: u32, words: &Words, block: GraphBlock) -> Result<(), AlgoError>
        ensures { Steps result (reading self.new)
            (settle (graph_end (record (reading self.old)
            { stage = in_graph; block = graph_view block }) number words.now)) }
    {
        if words.len() != 1 {
            return Err(bad_line(number));
        }
        self.end_as(block.into_def())
    }

    /// Reads the line `end` of a switch, which has its `otherwise`: one definition more, or the line's refusal.
    fn switch_end(
        &mut self,
        number: u32,
        words: &Words,
        block: SwitchBlock,
    ) -> Result<(), AlgoError>
        ensures { Steps result (reading self.new)
            (settle (switch_end (record (reading self.old)
            { stage = in_switch; block = switch_view block }) number words.now)) }
    {
        if words.len() != 1 {
            return Err(bad_line(number));
        }
        let Some(def) = block.into_def() else {
            return Err(bad_line(number));
        };
        self.end_as(def)
    }

    /// Reads the line `end` of a repetition: one definition more, or the line's refusal.
    fn repeat_end(
        &mut self,
        number: u32,
        words: &Words,
        block: RepeatBlock,
    ) -> Result<(), AlgoError>
        ensures { Steps result (reading self.new)
            (settle (repeat_end (record (reading self.old)
            { stage = in_repeat; block = repeat_view block }) number words.now)) }
    {
        if words.len() != 1 {
            return Err(bad_line(number));
        }
        self.end_as(block.into_def())
    }

    /// Reads the line `end`: the open block becomes a definition, or the line is refused.
    fn end_block(&mut self, number: u32, words: &Words) -> Result<(), AlgoError>
        ensures { Steps result (reading self.new)
            (settle (any_end (stage_of self.old.place) (reading self.old) number words.now)) }
    {
        match mem::replace(&mut self.place, Place::Between) {
            Place::InFunction(block) => self.function_end(number, words, block),
            Place::InGraph(block) => self.graph_end(number, words, block),
            Place::InSwitch(block) => self.switch_end(number, words, block),
            Place::InRepeat(block) => self.repeat_end(number, words, block),
            Place::BeforeVersion | Place::Between => Err(bad_line(number)),
        }
    }

    /// Reads a line of a function.
    fn function_line(
        &mut self,
        alloc: Global,
        number: u32,
        words: &Words,
        code: &[u8],
    ) -> Result<(), AlgoError>
        requires some { 0 < length words.now }
        requires open { stage_of self.old.place ≡ in_function }
        ensures { Steps result (reading self.new)
            (settle (function_line (reading self.old) number words.now code.now)) }
    {
        let Place::InFunction(block) = &mut self.place else {
            return Err(bad_line(number));
        };
        if words.begins(b"in") {
            return block.in_line(alloc, number, words);
        }
        if words.begins(b"out") {
            return block.result_line(alloc, number, code);
        }
        if words.begins(b"end") {
            return self.end_block(number, words);
        }
        Err(bad_line(number))
    }

    /// Reads a line of a graph.
    fn graph_line(&mut self, alloc: Global, number: u32, words: &Words) -> Result<(), AlgoError>
        requires some { 0 < length words.now }
        requires open { stage_of self.old.place ≡ in_graph }
        ensures { Steps result (reading self.new) (settle (graph_line (reading self.old) number words.now)) }
    {
        let Place::InGraph(block) = &mut self.place else {
            return Err(bad_line(number));
        };
        if words.begins(b"in") {
            return block.in_line(alloc, number, words);
        }
        if words.begins(b"out") {
            return block.out_line(alloc, number, words);
        }
        if words.begins(b"ref") {
            return block.reference_line(alloc, self.version, number, words);
        }
        if words.begins(b"edge") {
            return block.edge_line(alloc, number, words);
        }
        if words.begins(b"end") {
            return self.end_block(number, words);
        }
        Err(bad_line(number))
    }

    /// Reads a line of a switch.
    fn switch_line(&mut self, alloc: Global, number: u32, words: &Words) -> Result<(), AlgoError>
        requires some { 0 < length words.now }
        requires open { stage_of self.old.place ≡ in_switch }
        ensures { Steps result (reading self.new) (settle (switch_line (reading self.old) number words.now)) }
    {
        let Place::InSwitch(block) = &mut self.place else {
            return Err(bad_line(number));
        };
        if words.begins(b"on") {
            return block.on_line(alloc, number, words);
        }
        if words.begins(b"in") {
            return block.in_line(alloc, number, words);
        }
        if words.begins(b"out") {
            return block.out_line(alloc, number, words);
        }
        if words.begins(b"case") {
            return block.case_line(alloc, number, words);
        }
        if words.begins(b"otherwise") {
            return block.otherwise_line(alloc, number, words);
        }
        if words.begins(b"end") {
            return self.end_block(number, words);
        }
        Err(bad_line(number))
    }

    /// Reads a line of a repetition.
    fn frontier_line(&mut self, alloc: Global, number: u32, words: &Words) -> Result<(), AlgoError>
        requires some { 0 < length words.now }
        requires open { stage_of self.old.place ≡ in_repeat }
        ensures { Steps result (reading self.new) (settle (frontier_line (reading self.old) number words.now)) }
    {
        let Place::InRepeat(block) = &mut self.place else {
            return Err(bad_line(number));
        };
        if words.begins(b"fork") {
            return block.fork_line(alloc, number, words);
        }
        if words.begins(b"diffuse") {
            return block.diffuse_line(alloc, number, words);
        }
        if words.begins(b"iterate") {
            return block.iterate_line(alloc, number, words);
        }
        if words.begins(b"join") {
            return block.join_line(alloc, number, words);
        }
        if words.begins(b"end") {
            return self.end_block(number, words);
        }
        Err(bad_line(number))
    }

    /// Reads a line with words, by where it stands.
    #[tactic(auto, using(crate::proofs::Settled::steps_settled))]
    fn by_stage(
        &mut self,
        alloc: Global,
        number: u32,
        words: &Words<'a>,
        code: &[u8],
    ) -> Result<(), AlgoError>
        requires { 0 < length words.now }
        ensures { Steps result (reading self.new)
            (settle (by_stage (stage_of self.old.place) (reading self.old) number words.now
            code.now)) }
    {
        match &self.place {
            Place::BeforeVersion => self.version_line(number, words),
            Place::Between => self.between_line(alloc, number, words),
            Place::InFunction(_) => self.function_line(alloc, number, words, code),
            Place::InGraph(_) => self.graph_line(alloc, number, words),
            Place::InSwitch(_) => self.switch_line(alloc, number, words),
            Place::InRepeat(_) => self.frontier_line(alloc, number, words),
        }
    }

    /// Reads the next line.
    pub fn next_line(&mut self, alloc: Global, number: u32, line: &'a [u8]) -> Result<(), AlgoError>
        ensures { Steps result (reading self.new) (settle (next_line (reading self.old) number line.now)) }
    {
        if let Some(place) = text_lines::foreign(line) {
            return Err(not_text(number, place));
        }
        let code = text_lines::code(line);
        let words = Words::of(alloc, code)?;
        if words.len() == 0 {
            return Ok(());
        }
        self.by_stage(alloc, number, &words, code)
    }

    /// The version and the definitions that were read.
    fn into_defs(self) -> Defs
        ensures { result ≡ defs_in (reading self.entry) }
    {
        Defs {
            version: self.version,
            defs: Items::new(self.defs),
        }
    }

    /// The definitions at the end of the text, or the refusal of a text that ends before its version or in a block.
    #[tactic(auto, using(crate::proofs::Ends::end_by))]
    pub fn at_end(self, number: u32) -> Result<Defs, AlgoError>
        ensures { Gives result (at_end (stage_of self.entry.place) (defs_in (reading self.entry)) number) }
    {
        let is_whole = self.place.is_between();
        let defs = self.into_defs();
        if is_whole {
            Ok(defs)
        } else {
            Err(bad_line(number))
        }
    }
}

/// The definitions of a text, or its first refusal in the order of its lines: Refused with the line and
/// the cause, or Limit. OutOfMemory may come in place of any result.
pub fn read_algo(alloc: Global, bytes: &[u8]) -> Result<Defs, AlgoError>
    requires { length (lines_of bytes.now) ≤ most_in_text }
    ensures { Gives result (definitions_of bytes.now) }
{
    let mut reader = Reader::new(alloc, TableKey::of_text(bytes));
    let mut from = 0;
    let mut number = 1;
    while from < bytes.len() {
        let to = text_lines::line_end(bytes, from);
        reader.next_line(alloc, number, &bytes[from..to])?;
        number += 1;
        from = to + 1;
    }
    reader.at_end(number)
}
