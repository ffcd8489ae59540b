//! The operands of an instruction's line: a pair, a transfer, two operators or a call.
ghost use Rattle.std.specs.Prelude.{◌≡◌, Some};
ghost use Rattle.std.specs.List.{list_all};
ghost use Rattle.macro_code.specs.Forms.{arguments_of, buffer_in, each_in};
ghost use Rattle.macro_code.specs.ReadText.{declared_buffer, ends_of, first_unknown, is_among, is_known, moved_of, pair_of};
ghost use Rattle.text_lines.specs.Refusals.{Gives};
ghost use Rattle.code_lines.specs.Views.{GivesEnds, GivesInstr, GivesMoved, HasWord, IsWord, call_in, texts_of};

use crate::arguments::{Arguments, buffers, cut_list};
use crate::fault::{bad_argument, unknown_name};
use crate::known::Known;
use crate::numbers::Numbers;
use crate::word::{is_name, read_buffer, read_number};
use crate::written::Written;
use macro_code::CodeError;
use std::alloc::Global;
use syn_base::Items;

/// A buffer and the operator to which it goes, or from which it comes.
#[derive(Clone, Copy)]
pub struct Moved {
    pub buffer: u64,
    pub operator: u32,
}

/// Two operators.
#[derive(Clone, Copy)]
pub struct Ends {
    pub from: u32,
    pub to: u32,
}

/// An operation with the list of the buffers that it reads and that of those that it writes.
#[derive(Clone, Copy)]
pub struct Operation<'a> {
    pub name: &'a [u8],
    pub ins: &'a [u8],
    pub outs: &'a [u8],
}

/// Suc0_(q) and its like, of a pair that is declared here.
pub fn read_pair(
    alloc: Global,
    line: u32,
    here: &Numbers,
    arguments: &Arguments,
) -> Result<u64, CodeError>
    ensures { Gives result (pair_of line here.now arguments.now) }
{
    let Some(word) = arguments.one() else {
        return Err(bad_argument(line));
    };
    let Some(number) = read_number(word) else {
        return Err(bad_argument(line));
    };
    if here.has(number) {
        Ok(number)
    } else {
        Err(unknown_name(alloc, line, word))
    }
}

/// A buffer that is declared here.
fn declared_buffer(
    alloc: Global,
    line: u32,
    here: &Numbers,
    word: &[u8],
    number: u64,
) -> Result<u64, CodeError>
    ensures { Gives result (declared_buffer line here.now word.now number) }
{
    if here.has(number) {
        Ok(number)
    } else {
        Err(unknown_name(alloc, line, word))
    }
}

/// send_(bN,TO) and recv_(bN,FROM)
pub fn read_transfer(
    alloc: Global,
    known: &Known,
    line: u32,
    here: &Numbers,
    arguments: &Arguments,
) -> Result<Moved, CodeError>
    ensures { GivesMoved result (moved_of known.now.archi line here.now arguments.now) }
{
    let Some((first, second)) = arguments.two() else {
        return Err(bad_argument(line));
    };
    let Some(number) = read_buffer(first) else {
        return Err(bad_argument(line));
    };
    if !is_name(second) {
        return Err(bad_argument(line));
    }
    let buffer = declared_buffer(alloc, line, here, first, number)?;
    let operator = known.operator(alloc, line, second)?;
    Ok(Moved { buffer, operator })
}

/// sync_(FROM,TO)
pub fn read_sync(
    alloc: Global,
    known: &Known,
    line: u32,
    arguments: &Arguments,
) -> Result<Ends, CodeError>
    ensures { GivesEnds result (ends_of known.now.archi line arguments.now) }
{
    let Some((first, second)) = arguments.two() else {
        return Err(bad_argument(line));
    };
    if !is_name(first) {
        return Err(bad_argument(line));
    }
    if !is_name(second) {
        return Err(bad_argument(line));
    }
    let from = known.operator(alloc, line, first)?;
    let to = known.operator(alloc, line, second)?;
    Ok(Ends { from, to })
}

/// The word names a buffer that is declared here.
fn is_known(here: &Numbers, word: &[u8]) -> bool
    ensures { result ≡ is_known here.now (buffer_in word.now) }
{
    match read_buffer(word) {
        Some(number) => here.has(number),
        None => false,
    }
}

/// The first of these words whose buffer is not declared here.
fn first_unknown<'a>(here: &Numbers, words: &[&'a [u8]]) -> Option<&'a [u8]>
    ensures { IsWord result (first_unknown here.now (texts_of words.now)) }
{
    for word in words {
        if !is_known(here, word) {
            return Some(word);
        }
    }
    None
}

/// All of these buffers are declared here.
fn are_known(here: &Numbers, buffers: &[u64]) -> bool
    ensures { result ≡ list_all (is_among here.now) buffers.now }
{
    buffers.iter().all(|buffer| here.has(*buffer))
}

/// The first word of a list, which names these buffers, whose buffer is not declared here. The list is cut into
/// words only where there is one.
fn first_unlisted<'a>(
    alloc: Global,
    here: &Numbers,
    list: &'a [u8],
    buffers: &[u64],
) -> Result<Option<&'a [u8]>, CodeError>
    requires { each_in buffer_in (arguments_of list.now) ≡ Some buffers.now }
    ensures { HasWord result (first_unknown here.now (arguments_of list.now)) }
{
    if are_known(here, buffers) {
        return Ok(None);
    }
    let words = cut_list(alloc, list)?;
    Ok(first_unknown(here, words.as_slice()))
}

/// op OPERATION(INS;OUTS)
pub fn read_call(
    alloc: Global,
    known: &Known,
    line: u32,
    here: &Numbers,
    operation: &Operation,
) -> Result<Written, CodeError>
    ensures { GivesInstr result (call_in known.now.operations line here.now operation.now) }
{
    let Some(ins) = buffers(alloc, operation.ins)? else {
        return Err(bad_argument(line));
    };
    let Some(outs) = buffers(alloc, operation.outs)? else {
        return Err(bad_argument(line));
    };
    let Some(vertex) = known.operation(operation.name) else {
        return Err(unknown_name(alloc, line, operation.name));
    };
    if let Some(word) = first_unlisted(alloc, here, operation.ins, ins.as_slice())? {
        return Err(unknown_name(alloc, line, word));
    }
    if let Some(word) = first_unlisted(alloc, here, operation.outs, outs.as_slice())? {
        return Err(unknown_name(alloc, line, word));
    }
    Ok(Written::Call {
        vertex,
        ins: Items::new(ins),
        outs: Items::new(outs),
    })
}
