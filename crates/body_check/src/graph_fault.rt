//! The refusals of a graph, each with the end or the names that it tells, or want of memory for them.
ghost use Rattle.std.specs.Prelude.{◌≡◌, ◌++◌, ◌∷◌, IfOk};
ghost use Rattle.algo_rules.specs.declared.AlgoCause.TheVariants.{UnknownName, WrongLength, TwiceConnected, Unconnected, Cycle};
ghost use Rattle.algo_rules.specs.Returned.{Tells};
ghost use Rattle.algo_rules.specs.Words.{end_word};
ghost use Rattle.algo_rules.specs.Links.{fault};

use algo_rules::{AlgoCause, AlgoError, End};
use std::alloc::Global;
use syn_base::{Items, Name, OutOfMemory};
use text_lines::refused_at;

/// An end as it is written: its owner, a dot and its port.
fn joined(alloc: Global, owner: &[u8], port: &[u8]) -> Result<Items<u8>, OutOfMemory>
    ensures { IfOk result (λ w. w ≡ owner.now ++ 46 ∷ port.now) }
{
    let mut word = Vec::from_slice(alloc, owner)?;
    word.push(b'.')?;
    word.extend_from_slice(port)?;
    Ok(Items::new(word))
}

/// An end as it is written: a port, or a reference, a dot and its port.
fn written(alloc: Global, end: &End) -> Result<Items<u8>, OutOfMemory>
    ensures { IfOk result (λ w. w ≡ end_word end.now) }
{
    match &end.owner {
        None => Ok(Items::new(Vec::from_slice(alloc, end.port.as_bytes())?)),
        Some(owner) => joined(alloc, owner.as_bytes(), end.port.as_bytes()),
    }
}

/// The refusal of an end of an edge that is not there.
pub fn unknown(alloc: Global, line: u32, end: &End) -> AlgoError
    ensures { Tells result (fault line (UnknownName (end_word end.now))) }
{
    match written(alloc, end) {
        Ok(word) => refused_at(line, AlgoCause::UnknownName(word)),
        Err(_) => AlgoError::OutOfMemory,
    }
}

/// The refusal of an edge between unequal lengths, which tells its target.
pub fn wrong_length(alloc: Global, line: u32, end: &End) -> AlgoError
    ensures { Tells result (fault line (WrongLength (end_word end.now))) }
{
    match written(alloc, end) {
        Ok(word) => refused_at(line, AlgoCause::WrongLength(word)),
        Err(_) => AlgoError::OutOfMemory,
    }
}

/// The refusal of a second edge into its target.
pub fn twice(alloc: Global, line: u32, end: &End) -> AlgoError
    ensures { Tells result (fault line (TwiceConnected (end_word end.now))) }
{
    match written(alloc, end) {
        Ok(word) => refused_at(line, AlgoCause::TwiceConnected(word)),
        Err(_) => AlgoError::OutOfMemory,
    }
}

/// The refusal of an input of a reference into which no edge leads.
pub fn open_input(alloc: Global, line: u32, owner: &[u8], port: &[u8]) -> AlgoError
    ensures { Tells result (fault line (Unconnected (owner.now ++ 46 ∷ port.now))) }
{
    match joined(alloc, owner, port) {
        Ok(word) => refused_at(line, AlgoCause::Unconnected(word)),
        Err(_) => AlgoError::OutOfMemory,
    }
}

/// The refusal of an output of the graph into which no edge leads.
pub fn open_output(alloc: Global, line: u32, port: &[u8]) -> AlgoError
    ensures { Tells result (fault line (Unconnected port.now)) }
{
    match Vec::from_slice(alloc, port) {
        Ok(word) => refused_at(line, AlgoCause::Unconnected(Items::new(word))),
        Err(_) => AlgoError::OutOfMemory,
    }
}

/// The refusal of the references that depend on themselves.
pub fn cycle(line: u32, names: Vec<Name>) -> AlgoError
    ensures { Tells result (fault line (Cycle names.items)) }
{
    refused_at(line, AlgoCause::Cycle(Items::new(names)))
}
