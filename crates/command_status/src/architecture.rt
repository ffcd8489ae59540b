//! The line of a refused architecture, and of a text of durations that is refused as one; `say` writes it.
ghost use Rattle.std.specs.Prelude.{◌≡◌, is_ok};
ghost use Rattle.command_plan.specs.Sink.{Wrote};
ghost use Rattle.command_status.specs.Lines.{architecture_detail, architecture_word, described_line, two_names_line};

use crate::line::{write_head, write_number, write_word};
use archi_defs::{ArchiCause, ArchiFault};
use command_plan::{Failed, Sink, write_pieces, write_whole};

/// Writes, after this text, where an architecture's text is refused, for which cause, and what comes with it.
pub fn write_described<E: Sink>(err: &mut E, text: &[u8], fault: &ArchiFault) -> Result<(), Failed>
    ensures { Wrote (E.sunk err.old) (E.sunk err.new) (described_line text.now fault.now) (is_ok result) }
{
    let word = architecture_word(&fault.cause);
    write_head(err, text, u64::from(fault.line), word)?;
    write_architecture_detail(err, &fault.cause)
}

/// The number and the name of an architecture's cause.
fn architecture_word(cause: &ArchiCause) -> &'static [u8]
    ensures { result.now ≡ architecture_word cause.now }
{
    match cause {
        ArchiCause::NotText(_) => b"H1 NotText",
        ArchiCause::BadLine => b"H2 BadLine",
        ArchiCause::BadName(_) => b"H3 BadName",
        ArchiCause::BadNumber(_) => b"H4 BadNumber",
        ArchiCause::DuplicateName(_) => b"H5 DuplicateName",
        ArchiCause::UnknownName(_) => b"H6 UnknownName",
        ArchiCause::BadMedium(_) => b"H7 BadMedium",
        ArchiCause::NoOperator => b"H8 NoOperator",
        ArchiCause::Disconnected(..) => b"H9 Disconnected",
        ArchiCause::NoDuration(_) => b"H11 NoDuration",
    }
}

/// Writes what stands after the cause's word.
fn write_architecture_detail<E: Sink>(err: &mut E, cause: &ArchiCause) -> Result<(), Failed>
    ensures { Wrote (E.sunk err.old) (E.sunk err.new) (architecture_detail cause.now) (is_ok result) }
{
    match cause {
        ArchiCause::NotText(place) => write_number(err, *place),
        ArchiCause::BadName(word)
        | ArchiCause::BadNumber(word)
        | ArchiCause::DuplicateName(word)
        | ArchiCause::UnknownName(word) => write_word(err, word.as_slice()),
        ArchiCause::BadMedium(name) | ArchiCause::NoDuration(name) => {
            write_word(err, name.as_bytes())
        }
        ArchiCause::Disconnected(first, other) => {
            write_two_names(err, first.as_bytes(), other.as_bytes())
        }
        ArchiCause::BadLine | ArchiCause::NoOperator => write_whole(err, b"\n"),
    }
}

/// Writes two names after the cause, and the end of the line.
fn write_two_names<E: Sink>(err: &mut E, first: &[u8], other: &[u8]) -> Result<(), Failed>
    ensures { Wrote (E.sunk err.old) (E.sunk err.new) (two_names_line first.now other.now) (is_ok result) }
{
    write_pieces(err, &[b" ", first, b" ", other, b"\n"])
}
