//! The fixed words of a trace. A proof reads them in `bytes_of` alone.
ghost use Rattle.std.specs.Prelude.{◌≡◌, ◌++◌, OnOk};
ghost use Rattle.trace_events.specs.Words.{word_text};

use syn_base::{OutOfMemory, append};

/// A word between what a trace tells.
#[derive(Clone, Copy)]
pub enum Word {
    /// The begin of the name of a lane.
    LaneName,
    /// The begin of a name that is told.
    Name,
    /// Between two words of a name.
    Blank,
    /// The end of such a name and of its event.
    NameEnd,
    /// The begin of the rank of a lane.
    Rank,
    /// The begin of its number.
    RankNumber,
    /// The end of an event that tells something.
    End,
    /// The begin of a slice.
    Slice,
    /// The begin of a category.
    Category,
    /// The begin of the date at which a slice starts.
    Start,
    /// The begin of how long it lasts.
    Lasting,
    /// The begin of the number of a lane.
    Place,
    /// The begin of the number of a reaction.
    Reaction,
    /// The begin of a flow.
    Leaves,
    /// The end of a flow.
    Arrives,
    /// The begin of the number of a flow.
    Number,
    /// Between two parts of this number.
    Between,
    /// The begin of the date of a flow.
    Date,
    /// The end of a flow's event.
    FlowEnd,
    /// Between an operation and its output.
    Dot,
    /// Between two operators.
    To,
    /// Before the name of an operator.
    Operator,
    /// Before the name of a medium.
    Medium,
    /// The category of operations.
    Operation,
    /// The category of transfers.
    Transfer,
    /// The begin of a trace, with the name of its process.
    Opening,
    /// The end of a trace.
    Closing,
}

/// Appends a word.
pub fn append_word(out: &mut Vec<u8>, word: Word) -> Result<(), OutOfMemory>
    ensures { OnOk result (out.new.items ≡ out.old.items ++ word_text word) }
{
    append(out, bytes_of(word))
}

/// The bytes of a word.
#[tactic(auto, unfolding(crate::specs::Words::word_text))]
pub fn bytes_of(word: Word) -> &'static [u8]
    ensures { result.now ≡ word_text word }
{
    match word {
        Word::LaneName => b",\n{\"name\":\"thread_name\",\"ph\":\"M\"",
        Word::Name => b",\"args\":{\"name\":\"",
        Word::Blank => b" ",
        Word::NameEnd => b"\"}}",
        Word::Rank => b",\n{\"name\":\"thread_sort_index\",\"ph\":\"M\"",
        Word::RankNumber => b",\"args\":{\"sort_index\":",
        Word::End => b"}}",
        Word::Slice => b",\n{\"name\":\"",
        Word::Category => b"\",\"cat\":\"",
        Word::Start => b"\",\"ph\":\"X\",\"ts\":",
        Word::Lasting => b",\"dur\":",
        Word::Place => b",\"pid\":1,\"tid\":",
        Word::Reaction => b",\"args\":{\"reaction\":",
        Word::Leaves => b",\n{\"name\":\"value\",\"cat\":\"flow\",\"ph\":\"s\"",
        Word::Arrives => b",\n{\"name\":\"value\",\"cat\":\"flow\",\"ph\":\"f\",\"bp\":\"e\"",
        Word::Number => b",\"id\":\"0x",
        Word::Between => b"a",
        Word::Date => b"\",\"ts\":",
        Word::FlowEnd => b"}",
        Word::Dot => b".",
        Word::To => b" to ",
        Word::Operator => b"operator",
        Word::Medium => b"medium",
        Word::Operation => b"operation",
        Word::Transfer => b"transfer",
        Word::Opening =>
            b"{\"traceEvents\":[\n{\"name\":\"process_name\",\"ph\":\"M\",\"pid\":1,\"args\":{\"name\":\"schedule\"}}",
        Word::Closing => b"\n]}\n",
    }
}
