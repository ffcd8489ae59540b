//! The fixed words of a drawing. A proof reads them in `bytes_of` alone.
ghost use Rattle.std.specs.Prelude.{◌≡◌, ◌++◌, OnOk};
ghost use Rattle.definition_drawing.specs.Words.{word_text};

use syn_base::{OutOfMemory, append};

/// A word between what a drawing tells.
#[derive(Clone, Copy)]
pub enum Word {
    /// The begin of a node or an edge.
    Begin,
    /// The begin of a frame.
    Frame,
    /// The end of a frame.
    FrameEnd,
    /// Between two words of a label.
    Blank,
    /// After the number of copies.
    Copies,
    /// Before the number of a case in an identifier.
    Case,
    /// Before the name of an input in an identifier.
    In,
    /// Before the name of an output.
    Out,
    /// Before the name of a reference.
    Ref,
    /// At the end of the identifier of copies, and of the case otherwise.
    Rest,
    /// Between the ends of an edge.
    Target,
    /// The begin of the attributes of an edge.
    Attributes,
    /// The begin of the label of a node.
    Label,
    /// The begin of the title of a frame.
    FrameLabel,
    /// The end of a text between quotes.
    Quote,
    /// The begin of the label at the end of an edge.
    Head,
    /// The look of copies.
    Double,
    /// The look of a port.
    Arrow,
    /// The look of a sensor and an actuator.
    Round,
    /// The look of a constant.
    Note,
    /// The look of a reference to a delay.
    Dashed,
    /// The look of a delay.
    Cylinder,
    /// The begin of the label at the beginning of an edge, after another one.
    Tail,
    /// The end of the title of a frame.
    TitleEnd,
    /// The end of a line within a label.
    Line,
    /// Before the depth of a delay.
    Depth,
    /// Before a mark.
    Every,
    /// Before the length of an actuator.
    Taken,
    /// Before an input of a function.
    Input,
    /// Before the length of a sensor and of a constant.
    Given,
    /// Before an output of a function.
    Output,
    /// The end of a statement.
    Finish,
    /// A kind of definition.
    Actuator,
    /// Before the value of a case.
    Selected,
    /// A kind of definition.
    Constant,
    /// A kind of definition.
    Delay,
    /// A kind of frontier line.
    Diffuse,
    /// The begin of a drawing.
    Opening,
    /// A kind of frontier line.
    Fork,
    /// A kind of definition.
    Function,
    /// A kind of definition.
    Graph,
    /// A kind of frontier line.
    Iterate,
    /// A kind of frontier line.
    Join,
    /// The begin of the label of an edge.
    EdgeLabel,
    /// Before the name of a conditioning input.
    On,
    /// Before the definition of the case otherwise.
    Otherwise,
    /// A kind of definition.
    Repeat,
    /// A kind of definition.
    Sensor,
    /// The look of an edge to a case.
    Dotted,
    /// A kind of definition.
    Switch,
    /// The begin of the label at the beginning of an edge.
    EdgeTail,
    /// The end of a drawing.
    Closing,
}

/// Appends a word.
pub fn append_word(out: &mut Vec<u8>, word: Word) -> Result<(), OutOfMemory>
    ensures { OnOk result (out.new.items ≡ out.old.items ++ word_text word) }
{
    append(out, bytes_of(word))
}

/// The bytes of a word.
#[tactic(auto, unfolding(crate::specs::Words::word_text))]
pub fn bytes_of(word: Word) -> &'static [u8]
    ensures { result.now ≡ word_text word }
{
    match word {
        Word::Begin => b"    \"",
        Word::Frame => b"  subgraph \"cluster_",
        Word::FrameEnd => b"  }\n",
        Word::Blank => b" ",
        Word::Copies => b" copies\\n",
        Word::Case => b".case.",
        Word::In => b".in.",
        Word::Out => b".out.",
        Word::Ref => b".ref.",
        Word::Rest => b".rest",
        Word::Target => b"\" -> \"",
        Word::Attributes => b"\" [",
        Word::Label => b"\" [label=\"",
        Word::FrameLabel => b"\" {\n    label=\"",
        Word::Quote => b"\"",
        Word::Head => b"\",headlabel=\"",
        Word::Double => b"\",peripheries=2",
        Word::Arrow => b"\",shape=cds",
        Word::Round => b"\",shape=ellipse",
        Word::Note => b"\",shape=note",
        Word::Dashed => b"\",style=\"filled,dashed\"",
        Word::Cylinder => b"\",style=\"filled,dashed\",shape=cylinder",
        Word::Tail => b"\",taillabel=\"",
        Word::TitleEnd => b"\";\n",
        Word::Line => b"\\n",
        Word::Depth => b"\\ndepth ",
        Word::Every => b"\\nevery ",
        Word::Taken => b"\\ni ",
        Word::Input => b"\\nin ",
        Word::Given => b"\\no ",
        Word::Output => b"\\nout ",
        Word::Finish => b"];\n",
        Word::Actuator => b"actuator",
        Word::Selected => b"case ",
        Word::Constant => b"constant",
        Word::Delay => b"delay",
        Word::Diffuse => b"diffuse",
        Word::Opening =>
            b"digraph algorithm {\n  rankdir=LR;\n  fontname=\"sans-serif\";\n  node [shape=box,style=filled,fillcolor=white,fontname=\"sans-serif\"];\n  edge [fontname=\"sans-serif\",fontsize=9,labeldistance=1.5];\n",
        Word::Fork => b"fork",
        Word::Function => b"function",
        Word::Graph => b"graph",
        Word::Iterate => b"iterate",
        Word::Join => b"join",
        Word::EdgeLabel => b"label=\"",
        Word::On => b"on ",
        Word::Otherwise => b"otherwise\\n",
        Word::Repeat => b"repeat",
        Word::Sensor => b"sensor",
        Word::Dotted => b"style=dotted",
        Word::Switch => b"switch",
        Word::EdgeTail => b"taillabel=\"",
        Word::Closing => b"}\n",
    }
}
