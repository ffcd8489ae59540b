//! The refusal of a line that names a definition, which `links_of` returns.
ghost use Rattle.algo_rules.specs.declared.AlgoCause.TheVariants.{UnknownName, Misplaced};
ghost use Rattle.algo_rules.specs.Returned.{Tells};
ghost use Rattle.algo_rules.specs.Links.{fault};

use algo_rules::{AlgoCause, AlgoError};
use std::alloc::Global;
use syn_base::{Items, Name};
use text_lines::refused_at;

/// The refusal of a line whose name no definition has, or want of memory for the name.
pub fn unknown(alloc: Global, line: u32, name: &[u8]) -> AlgoError
    ensures { Tells result (fault line (UnknownName name.now)) }
{
    match Vec::from_slice(alloc, name) {
        Ok(word) => refused_at(line, AlgoCause::UnknownName(Items::new(word))),
        Err(_) => AlgoError::OutOfMemory,
    }
}

/// The refusal of a line whose definition may not stand there, or want of memory for the name.
pub fn misplaced(alloc: Global, line: u32, name: &Name) -> AlgoError
    ensures { Tells result (fault line (Misplaced name.now)) }
{
    match name.copy(alloc) {
        Ok(name) => refused_at(line, AlgoCause::Misplaced(name)),
        Err(_) => AlgoError::OutOfMemory,
    }
}
