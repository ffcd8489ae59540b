//! The fixed words of a drawing. A proof reads them in `bytes_of` alone.
ghost use Rattle.std.specs.Prelude.{◌≡◌, ◌++◌, OnOk};
ghost use Rattle.graph_drawing.specs.Words.{word_text};

use syn_base::{OutOfMemory, append};

/// A word between what a drawing tells.
#[derive(Clone, Copy)]
pub enum Word {
    /// The begin of a node or an edge.
    Operation,
    /// The begin of an edge's end.
    Arrow,
    /// The begin of a label.
    Label,
    /// The end of a line within a label.
    Line,
    /// The end of a label, and the begin of a shape.
    Shape,
    /// The end of a statement.
    Finish,
    /// The begin of a colour inside a node.
    Fill,
    /// The begin of the colour of an edge.
    Stroke,
    /// The end of a text between quotes.
    Quote,
    /// The begin of the label at the beginning of an edge.
    Tail,
    /// The begin of the label at the end of an edge.
    Head,
    /// The begin of the label of a guard.
    Condition,
    /// What is said of the edge of a delay.
    Delay,
    /// The begin of the legend.
    Legend,
    /// The begin of an operator in the legend.
    Operator,
    /// The begin of its colour.
    OperatorColour,
    /// The begin of a medium in the legend.
    Medium,
    /// The begin of its colour.
    MediumColour,
    /// The end of a statement whose last text is between quotes.
    QuoteFinish,
    /// The end of the legend.
    LegendFinish,
}

/// Appends a word.
pub fn append_word(out: &mut Vec<u8>, word: Word) -> Result<(), OutOfMemory>
    ensures { OnOk result (out.new.items ≡ out.old.items ++ word_text word) }
{
    append(out, bytes_of(word))
}

/// The bytes of a word.
#[tactic(auto, unfolding(crate::specs::Words::word_text))]
fn bytes_of(word: Word) -> &'static [u8]
    ensures { result.now ≡ word_text word }
{
    match word {
        Word::Operation => b"  v",
        Word::Arrow => b" -> v",
        Word::Label => b" [label=\"",
        Word::Line => b"\\n",
        Word::Shape => b"\",shape=",
        Word::Finish => b"];\n",
        Word::Fill => b",fillcolor=\"",
        Word::Stroke => b",penwidth=2,color=\"",
        Word::Quote => b"\"",
        Word::Tail => b" [taillabel=\"",
        Word::Head => b"\",headlabel=\"",
        Word::Condition => b" [style=dotted,label=\"?",
        Word::Delay => b" [style=dashed,constraint=false];\n",
        Word::Legend => b"  subgraph cluster_legend {\n    label=\"operators and media\";\n",
        Word::Operator => b"    o",
        Word::OperatorColour => b"\",fillcolor=\"",
        Word::Medium => b"    m",
        Word::MediumColour => b"\",style=\"\",penwidth=2,color=\"",
        Word::QuoteFinish => b"\"];\n",
        Word::LegendFinish => b"  }\n",
    }
}
