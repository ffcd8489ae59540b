//! The names of the definitions so far, to which the line of each definition adds its own.
ghost use Rattle.algo_lines.specs.Given.{AddsNew};

use crate::fault::duplicate;
use algo_text::AlgoError;
use std::alloc::Global;
use text_lines::Names;

/// Adds the name of a line's definition, or refuses the line where a definition has the name.
pub fn add_new<'a>(
    alloc: Global,
    names: &mut Names<'a>,
    number: u32,
    name: &'a [u8],
) -> Result<(), AlgoError>
    ensures { AddsNew result number names.old name.now names.new }
{
    if names.add(name)? {
        Ok(())
    } else {
        Err(duplicate(alloc, number, name))
    }
}
