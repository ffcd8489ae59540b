//! The line of a macro with its arguments, and lists joined by commas, for all other modules.
ghost use Rattle.std.specs.Prelude.{◌≡◌, ◌++◌, ◌∷◌, [], OnOk, codes, map};
ghost use Rattle.std.specs.Fmt.{decimal};
ghost use Rattle.macro_code.specs.Macros.{word_of};
ghost use Rattle.macro_code.specs.Text.{buffer_name, joined, line, word_line};
ghost use Rattle.syn_base.specs.Bytes.{each_after_comma};

use crate::macros::Macro;
use syn_base::{OutOfMemory, append, append_count};

/// Appends the line of a macro without arguments.
pub fn append_word_line(out: &mut Vec<u8>, name: Macro) -> Result<(), OutOfMemory>
    ensures { OnOk result (out.new.items ≡ out.old.items ++ word_line name) }
{
    append(out, name.word().as_bytes())?;
    append(out, b"\n")
}

/// Appends the name of a macro, and the parenthesis that opens its arguments.
pub fn append_opening(out: &mut Vec<u8>, name: Macro) -> Result<(), OutOfMemory>
    ensures { OnOk result (out.new.items ≡ out.old.items ++ (word_of name ++ codes "(")) }
{
    append(out, name.word().as_bytes())?;
    append(out, b"(")
}

/// Appends the line of a macro with one argument.
pub fn append_line(out: &mut Vec<u8>, name: Macro, argument: &[u8]) -> Result<(), OutOfMemory>
    ensures { OnOk result (out.new.items ≡ out.old.items ++ line name (argument.now ∷ [])) }
{
    append_opening(out, name)?;
    append(out, argument)?;
    append(out, b")\n")
}

/// Appends the line of a macro with a number as its argument.
pub fn append_number_line(out: &mut Vec<u8>, name: Macro, number: u32) -> Result<(), OutOfMemory>
    ensures { OnOk result (out.new.items ≡ out.old.items ++ line name (decimal number ∷ [])) }
{
    append_opening(out, name)?;
    append_count(out, number as usize)?;
    append(out, b")\n")
}

/// Appends the name of a buffer.
pub fn append_buffer(out: &mut Vec<u8>, buffer: usize) -> Result<(), OutOfMemory>
    ensures { OnOk result (out.new.items ≡ out.old.items ++ buffer_name buffer) }
{
    append(out, b"b")?;
    append_count(out, buffer)
}

/// Appends the names of these buffers, joined by commas.
pub fn append_buffers(out: &mut Vec<u8>, buffers: &[u32]) -> Result<(), OutOfMemory>
    ensures { OnOk result (out.new.items ≡ out.old.items ++ joined (map buffer_name buffers.now)) }
{
    match buffers.split_first() {
        None => Ok(()),
        Some((first, others)) => {
            append_buffer(out, *first as usize)?;
            append_more_buffers(out, others)
        }
    }
}

/// Appends further buffers of a list, each after a comma.
fn append_more_buffers(out: &mut Vec<u8>, buffers: &[u32]) -> Result<(), OutOfMemory>
    ensures { OnOk result (out.new.items ≡ out.old.items ++ each_after_comma (map buffer_name buffers.now)) }
{
    for buffer in buffers {
        append(out, b",")?;
        append_buffer(out, *buffer as usize)?;
    }
    Ok(())
}

/// Appends these numbers, joined by commas.
pub fn append_numbers(out: &mut Vec<u8>, numbers: &[usize]) -> Result<(), OutOfMemory>
    ensures { OnOk result (out.new.items ≡ out.old.items ++ joined (map decimal numbers.now)) }
{
    match numbers.split_first() {
        None => Ok(()),
        Some((first, others)) => {
            append_count(out, *first)?;
            append_more_numbers(out, others)
        }
    }
}

/// Appends further numbers of a list, each after a comma.
fn append_more_numbers(out: &mut Vec<u8>, numbers: &[usize]) -> Result<(), OutOfMemory>
    ensures { OnOk result (out.new.items ≡ out.old.items ++ each_after_comma (map decimal numbers.now)) }
{
    for number in numbers {
        append(out, b",")?;
        append_count(out, *number)?;
    }
    Ok(())
}
