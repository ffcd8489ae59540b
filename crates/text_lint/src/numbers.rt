//! The numbers of the lines of a text that begin with a word: the lines that an accepted text of an architecture gives
//! its operators and its durations in, which go by their order elsewhere.
ghost use Rattle.std.specs.Prelude.{◌≡◌, ◌++◌, IfOk, OnOk};
ghost use Rattle.text_lines.specs.Text.{code_of, words_of};
ghost use Rattle.text_lint.specs.Numbered.{begins_with, number_by, numbers_of};

use std::alloc::Global;
use syn_base::OutOfMemory;
use text_lines::Words;

/// The numbers of the lines of a text, from 1, whose first word is this one.
pub fn numbers_of(alloc: Global, key: &[u8], text: &[u8]) -> Result<Vec<usize>, OutOfMemory>
    ensures { IfOk result (λ numbers. numbers.items ≡ numbers_of key.now text.now) }
{
    let mut numbers = Vec::new(alloc);
    let mut from = 0;
    let mut number = 1;
    while from < text.len() {
        let to = text_lines::line_end(text, from);
        append_if_begins(alloc, key, number, &text[from..to], &mut numbers)?;
        number += 1;
        from = to + 1;
    }
    Ok(numbers)
}

/// Appends the number of a line, where its first word is this one.
fn append_if_begins(
    alloc: Global,
    key: &[u8],
    number: usize,
    line: &[u8],
    numbers: &mut Vec<usize>,
) -> Result<(), OutOfMemory>
    ensures { OnOk result (numbers.new.items ≡
        numbers.old.items ++ number_by key.now number line.now) }
{
    if begins_with(alloc, key, text_lines::code(line))? {
        numbers.push(number)?;
    }
    Ok(())
}

/// Whether the first word of a line without comment is this one.
fn begins_with(alloc: Global, key: &[u8], code: &[u8]) -> Result<bool, OutOfMemory>
    ensures { IfOk result (λ is. is ≡ begins_with key.now (words_of code.now)) }
{
    let words = Words::of(alloc, code)?;
    Ok(words.len() != 0 && words.begins(key))
}
