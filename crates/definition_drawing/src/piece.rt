//! The pieces of which all statements are made: identifiers, nodes and edges.
ghost use Rattle.definition_drawing.specs.Words.{word_text};
ghost use Rattle.definition_drawing.specs.Drawing.{in_id, out_id, ref_id};
ghost use Rattle.std.specs.Prelude.{◌≡◌, ◌++◌, OnOk};

use crate::word::{Word, append_word};
use syn_base::{OutOfMemory, append};

/// Appends the identifier of an input.
#[tactic(auto, unfolding(crate::specs::Drawing::in_id))]
pub fn append_in_id(out: &mut Vec<u8>, def: &[u8], port: &[u8]) -> Result<(), OutOfMemory>
    ensures { OnOk result (out.new.items ≡ out.old.items ++ in_id def.now port.now) }
{
    append(out, def)?;
    append_word(out, Word::In)?;
    append(out, port)
}

/// Appends the identifier of an output.
#[tactic(auto, unfolding(crate::specs::Drawing::out_id))]
pub fn append_out_id(out: &mut Vec<u8>, def: &[u8], port: &[u8]) -> Result<(), OutOfMemory>
    ensures { OnOk result (out.new.items ≡ out.old.items ++ out_id def.now port.now) }
{
    append(out, def)?;
    append_word(out, Word::Out)?;
    append(out, port)
}

/// Appends the identifier of a reference.
#[tactic(auto, unfolding(crate::specs::Drawing::ref_id))]
pub fn append_ref_id(out: &mut Vec<u8>, def: &[u8], name: &[u8]) -> Result<(), OutOfMemory>
    ensures { OnOk result (out.new.items ≡ out.old.items ++ ref_id def.now name.now) }
{
    append(out, def)?;
    append_word(out, Word::Ref)?;
    append(out, name)
}

/// Appends what stands before the identifier of a node or of an edge's source.
pub fn begin(out: &mut Vec<u8>) -> Result<(), OutOfMemory>
    ensures { OnOk result (out.new.items ≡ out.old.items ++ word_text Word.Begin) }
{
    append_word(out, Word::Begin)
}

/// Appends what stands between the identifier of a node and its label.
pub fn begin_label(out: &mut Vec<u8>) -> Result<(), OutOfMemory>
    ensures { OnOk result (out.new.items ≡ out.old.items ++ word_text Word.Label) }
{
    append_word(out, Word::Label)
}

/// Appends what stands between the two ends of an edge.
pub fn begin_target(out: &mut Vec<u8>) -> Result<(), OutOfMemory>
    ensures { OnOk result (out.new.items ≡ out.old.items ++ word_text Word.Target) }
{
    append_word(out, Word::Target)
}

/// Appends the end of an edge that is dotted and has no label.
pub fn finish_dotted(out: &mut Vec<u8>) -> Result<(), OutOfMemory>
    ensures { OnOk result (out.new.items ≡ out.old.items ++
        (word_text Word.Attributes ++ (word_text Word.Dotted ++ word_text Word.Finish))) }
{
    append_word(out, Word::Attributes)?;
    append_word(out, Word::Dotted)?;
    finish(out)
}

/// Appends the end of a statement.
pub fn finish(out: &mut Vec<u8>) -> Result<(), OutOfMemory>
    ensures { OnOk result (out.new.items ≡ out.old.items ++ word_text Word.Finish) }
{
    append_word(out, Word::Finish)
}
