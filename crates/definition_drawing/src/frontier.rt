//! The statements of a repetition: its copies, and its frontier lines as edges to them and from
//! them.
ghost use Rattle.definition_drawing.specs.Words.{word_text};
ghost use Rattle.std.specs.Prelude.{◌≡◌, ◌++◌, OnOk};
ghost use Rattle.std.specs.Fmt.{decimal};
ghost use Rattle.definition_drawing.specs.Drawing.{copies_text, edge_text, feed_text, frontier_text, give_text, in_id, out_id, outer_in, outer_out, rest_id};

use crate::piece::{append_in_id, append_out_id, begin, begin_label, begin_target, finish};
use crate::word::{Word, append_word, bytes_of};
use algo_text::Frontier;
use syn_base::{OutOfMemory, append, append_count};

/// Appends the copies of a definition.
pub fn append_copies(
    out: &mut Vec<u8>,
    def: &[u8],
    copies: u32,
    of: &[u8],
) -> Result<(), OutOfMemory>
    ensures { OnOk result (out.new.items ≡ out.old.items ++ copies_text def.now copies of.now) }
{
    begin(out)?;
    append_rest_id(out, def)?;
    begin_label(out)?;
    append_copies_label(out, copies, of)?;
    finish(out)
}

/// Appends the label of copies: how many there are, and of which definition.
fn append_copies_label(out: &mut Vec<u8>, copies: u32, of: &[u8]) -> Result<(), OutOfMemory>
    ensures { OnOk result (out.new.items ≡ out.old.items ++
        (decimal copies ++ (word_text Word.Copies ++ (of.now ++ word_text Word.Double)))) }
{
    append_count(out, copies as usize)?;
    append_word(out, Word::Copies)?;
    append(out, of)?;
    append_word(out, Word::Double)
}

/// Appends what a frontier line says: its outer ports, and an edge to the copies or from them.
pub fn append_frontier(
    out: &mut Vec<u8>,
    def: &[u8],
    frontier: &Frontier,
) -> Result<(), OutOfMemory>
    ensures { OnOk result (out.new.items ≡ out.old.items ++ frontier_text def.now frontier.now) }
{
    match frontier {
        Frontier::Fork { outer, inner } => {
            append_feed(
                out,
                def,
                bytes_of(Word::Fork),
                outer.as_bytes(),
                inner.as_bytes(),
            )
        }
        Frontier::Diffuse { outer, inner } => {
            append_feed(
                out,
                def,
                bytes_of(Word::Diffuse),
                outer.as_bytes(),
                inner.as_bytes(),
            )
        }
        Frontier::Iterate {
            outer,
            inner,
            given,
            last,
        } => {
            append_feed(
                out,
                def,
                bytes_of(Word::Iterate),
                outer.as_bytes(),
                inner.as_bytes(),
            )?;
            append_give(
                out,
                def,
                bytes_of(Word::Iterate),
                given.as_bytes(),
                last.as_bytes(),
            )
        }
        Frontier::Join { given, outer } => {
            append_give(
                out,
                def,
                bytes_of(Word::Join),
                given.as_bytes(),
                outer.as_bytes(),
            )
        }
    }
}

/// Appends an outer input and the edge from it to the copies.
fn append_feed(
    out: &mut Vec<u8>,
    def: &[u8],
    word: &[u8],
    outer: &[u8],
    inner: &[u8],
) -> Result<(), OutOfMemory>
    ensures { OnOk result (out.new.items ≡ out.old.items ++
        feed_text def.now word.now outer.now inner.now) }
{
    append_outer_in(out, def, outer)?;
    append_feed_edge(out, def, word, outer, inner)
}

/// Appends an outer input.
fn append_outer_in(out: &mut Vec<u8>, def: &[u8], outer: &[u8]) -> Result<(), OutOfMemory>
    ensures { OnOk result (out.new.items ≡ out.old.items ++ outer_in def.now outer.now) }
{
    begin(out)?;
    append_in_id(out, def, outer)?;
    begin_label(out)?;
    append(out, outer)?;
    append_word(out, Word::Arrow)?;
    finish(out)
}

/// Appends the edge from an outer input to the copies.
fn append_feed_edge(
    out: &mut Vec<u8>,
    def: &[u8],
    word: &[u8],
    outer: &[u8],
    inner: &[u8],
) -> Result<(), OutOfMemory>
    ensures { OnOk result (out.new.items ≡ out.old.items ++
        edge_text (in_id def.now outer.now) (rest_id def.now)
        (word_text Word.EdgeLabel ++ (word.now ++ (word_text Word.Head ++ (inner.now ++
        word_text Word.Quote))))) }
{
    begin(out)?;
    append_in_id(out, def, outer)?;
    begin_target(out)?;
    append_rest_id(out, def)?;
    append_labels(out, word, bytes_of(Word::Head), inner)?;
    finish(out)
}

/// Appends an outer output and the edge from the copies to it.
fn append_give(
    out: &mut Vec<u8>,
    def: &[u8],
    word: &[u8],
    given: &[u8],
    outer: &[u8],
) -> Result<(), OutOfMemory>
    ensures { OnOk result (out.new.items ≡ out.old.items ++
        give_text def.now word.now given.now outer.now) }
{
    append_outer_out(out, def, outer)?;
    append_give_edge(out, def, word, given, outer)
}

/// Appends an outer output.
fn append_outer_out(out: &mut Vec<u8>, def: &[u8], outer: &[u8]) -> Result<(), OutOfMemory>
    ensures { OnOk result (out.new.items ≡ out.old.items ++ outer_out def.now outer.now) }
{
    begin(out)?;
    append_out_id(out, def, outer)?;
    begin_label(out)?;
    append(out, outer)?;
    append_word(out, Word::Arrow)?;
    finish(out)
}

/// Appends the edge from the copies to an outer output.
fn append_give_edge(
    out: &mut Vec<u8>,
    def: &[u8],
    word: &[u8],
    given: &[u8],
    outer: &[u8],
) -> Result<(), OutOfMemory>
    ensures { OnOk result (out.new.items ≡ out.old.items ++
        edge_text (rest_id def.now) (out_id def.now outer.now)
        (word_text Word.EdgeLabel ++ (word.now ++ (word_text Word.Tail ++ (given.now ++
        word_text Word.Quote))))) }
{
    begin(out)?;
    append_rest_id(out, def)?;
    begin_target(out)?;
    append_out_id(out, def, outer)?;
    append_labels(out, word, bytes_of(Word::Tail), given)?;
    finish(out)
}

/// Appends the label of an edge, and that of one of its ends.
fn append_labels(
    out: &mut Vec<u8>,
    word: &[u8],
    place: &[u8],
    name: &[u8],
) -> Result<(), OutOfMemory>
    ensures { OnOk result (out.new.items ≡ out.old.items ++ (word_text Word.Attributes ++
        (word_text Word.EdgeLabel ++
        (word.now ++ (place.now ++ (name.now ++ word_text Word.Quote)))))) }
{
    append_word(out, Word::Attributes)?;
    append_word(out, Word::EdgeLabel)?;
    append(out, word)?;
    append(out, place)?;
    append(out, name)?;
    append_word(out, Word::Quote)
}

/// Appends the identifier of the copies, or of the case otherwise.
#[tactic(auto, unfolding(crate::specs::Drawing::rest_id))]
pub fn append_rest_id(out: &mut Vec<u8>, def: &[u8]) -> Result<(), OutOfMemory>
    ensures { OnOk result (out.new.items ≡ out.old.items ++ rest_id def.now) }
{
    append(out, def)?;
    append_word(out, Word::Rest)
}
