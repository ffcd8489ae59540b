//! What stands round the acts of a trace: its opening, the lanes, and its closing.
ghost use Rattle.std.specs.Prelude.{◌≡◌, ◌++◌, ◌≤◌, OnOk, length};
ghost use Rattle.trace_events.specs.Events.{closing, opening, text_of};
ghost use Rattle.trace_events.specs.Trace.{lanes, medium_lanes, operator_lanes};

use crate::event::append_lane;
use crate::word::{Word, append_word, bytes_of};
use self_timed::{Archi, Medium};
use syn_base::{Name, OutOfMemory};

/// Appends the opening of a trace, with the name of its one process.
pub fn append_opening(out: &mut Vec<u8>) -> Result<(), OutOfMemory>
    ensures { OnOk result (out.new.items ≡ out.old.items ++ opening) }
{
    append_word(out, Word::Opening)
}

/// Appends the closing of a trace.
pub fn append_closing(out: &mut Vec<u8>) -> Result<(), OutOfMemory>
    ensures { OnOk result (out.new.items ≡ out.old.items ++ closing) }
{
    append_word(out, Word::Closing)
}

/// Appends the lanes of all operators and all media.
#[tactic(auto, using(crate::proofs::Texts::text_append))]
pub fn append_lanes(out: &mut Vec<u8>, archi: &Archi) -> Result<(), OutOfMemory>
    ensures { OnOk result (out.new.items ≡ out.old.items ++ text_of (lanes archi.now)) }
{
    append_operator_lanes(out, archi.operators())?;
    append_medium_lanes(out, archi.media())
}

/// Appends the lanes of operators that are numbered from 0 on.
fn append_operator_lanes(out: &mut Vec<u8>, operators: &[Name]) -> Result<(), OutOfMemory>
    requires { length operators.now ≤ 16 }
    ensures { OnOk result (out.new.items ≡ out.old.items ++
        text_of (operator_lanes 0 operators.now)) }
{
    for (number, name) in operators.iter().enumerate() {
        append_lane(out, number + 1, bytes_of(Word::Operator), name.as_bytes())?;
    }
    Ok(())
}

/// Appends the lanes of media that are numbered from 0 on.
fn append_medium_lanes(out: &mut Vec<u8>, media: &[Medium]) -> Result<(), OutOfMemory>
    requires { length media.now ≤ 16 }
    ensures { OnOk result (out.new.items ≡ out.old.items ++ text_of (medium_lanes 0 media.now)) }
{
    for (number, medium) in media.iter().enumerate() {
        append_lane(
            out,
            number + 17,
            bytes_of(Word::Medium),
            medium.name.as_bytes(),
        )?;
    }
    Ok(())
}
