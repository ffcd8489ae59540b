//! The names of operators and media in their colours.
ghost use Rattle.std.specs.Prelude.{◌≡◌, ◌++◌, OnOk};
ghost use Rattle.graph_drawing.specs.Words.{word_text};
ghost use Rattle.graph_drawing.specs.FlatDrawing.{legend, medium_key, medium_keys, named, operator_key, operator_keys};

use crate::colour::{fill_of, stroke_of};
use crate::word::{Word, append_word};
use schedule::{Archi, Medium};
use syn_base::{Name, OutOfMemory, append, append_count};

/// Appends the legend of an architecture.
#[tactic(auto, unfolding(crate::specs::FlatDrawing::legend))]
pub fn append_legend(out: &mut Vec<u8>, archi: &Archi) -> Result<(), OutOfMemory>
    ensures { OnOk result (out.new.items ≡ out.old.items ++ legend archi.now) }
{
    append_word(out, Word::Legend)?;
    append_operator_keys(out, archi.operators())?;
    append_medium_keys(out, archi.media())?;
    append_word(out, Word::LegendFinish)
}

/// Appends the names of operators that are numbered from 0 on.
fn append_operator_keys(out: &mut Vec<u8>, operators: &[Name]) -> Result<(), OutOfMemory>
    ensures { OnOk result (out.new.items ≡ out.old.items ++ operator_keys 0 operators.now) }
{
    for (number, name) in operators.iter().enumerate() {
        append_operator_key(out, number, name.as_bytes())?;
    }
    Ok(())
}

/// Appends the name of an operator in its colour.
fn append_operator_key(out: &mut Vec<u8>, number: usize, name: &[u8]) -> Result<(), OutOfMemory>
    ensures { OnOk result (out.new.items ≡ out.old.items ++ operator_key number name.now) }
{
    append_named(out, Word::Operator, number, name)?;
    append_word(out, Word::OperatorColour)?;
    append(out, fill_of(number))?;
    append_word(out, Word::QuoteFinish)
}

/// Appends the names of media that are numbered from 0 on.
fn append_medium_keys(out: &mut Vec<u8>, media: &[Medium]) -> Result<(), OutOfMemory>
    ensures { OnOk result (out.new.items ≡ out.old.items ++ medium_keys 0 media.now) }
{
    for (number, medium) in media.iter().enumerate() {
        append_medium_key(out, number, medium.name.as_bytes())?;
    }
    Ok(())
}

/// Appends the name of a medium in its colour.
fn append_medium_key(out: &mut Vec<u8>, number: usize, name: &[u8]) -> Result<(), OutOfMemory>
    ensures { OnOk result (out.new.items ≡ out.old.items ++ medium_key number name.now) }
{
    append_named(out, Word::Medium, number, name)?;
    append_word(out, Word::MediumColour)?;
    append(out, stroke_of(number))?;
    append_word(out, Word::QuoteFinish)
}

/// Appends an operator or a medium, up to its name.
#[tactic(auto, unfolding(crate::specs::FlatDrawing::named))]
fn append_named(
    out: &mut Vec<u8>,
    kind: Word,
    number: usize,
    name: &[u8],
) -> Result<(), OutOfMemory>
    ensures { OnOk result (out.new.items ≡ out.old.items ++ named (word_text kind) number name.now) }
{
    append_word(out, kind)?;
    append_count(out, number)?;
    append_word(out, Word::Label)?;
    append(out, name)
}
