//! The pairs and the buffer that a line declares.
ghost use Rattle.std.specs.Prelude.{◌≡◌, IfOk, true};
ghost use Rattle.macro_code.specs.ReadText.{declaration_of, follows, last_of, pairs_of};
ghost use Rattle.text_lines.specs.Refusals.{Gives};
ghost use Rattle.code_lines.specs.Views.{GivesDeclaration};

use crate::arguments::{Arguments, Declaration, ascends, cut_list, numbers, read_declaration};
use crate::fault::bad_argument;
use crate::numbers::Numbers;
use macro_code::CodeError;
use std::alloc::Global;

/// The pairs of a processor.
pub fn read_pairs(alloc: Global, line: u32, arguments: &Arguments) -> Result<Numbers, CodeError>
    ensures { Gives result (pairs_of line arguments.now) }
{
    let Some(list) = arguments.list() else {
        return Err(bad_argument(line));
    };
    let words = cut_list(alloc, list)?;
    let Some(pairs) = numbers(alloc, words.as_slice())? else {
        return Err(bad_argument(line));
    };
    if ascends(pairs.as_slice()) {
        Ok(Numbers::of(pairs))
    } else {
        Err(bad_argument(line))
    }
}

/// The buffer that a line declares, above those that are declared here.
pub fn read_buffer_line(
    line: u32,
    here: &Numbers,
    arguments: &Arguments,
) -> Result<Declaration, CodeError>
    ensures gives { GivesDeclaration result (declaration_of line here.now arguments.now) }
    ensures follows { IfOk result (λ d. follows (last_of here.now) d.number ≡ true) }
{
    let Some(list) = arguments.list() else {
        return Err(bad_argument(line));
    };
    let Some(declared) = read_declaration(list) else {
        return Err(bad_argument(line));
    };
    if here.are_followed_by(declared.number) {
        Ok(declared)
    } else {
        Err(bad_argument(line))
    }
}
