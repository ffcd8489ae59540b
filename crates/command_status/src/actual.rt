//! The line of a refused text of the durations that really occur; `say` writes it.
ghost use Rattle.std.specs.Prelude.{is_ok};
ghost use Rattle.command_plan.specs.Sink.{Wrote};
ghost use Rattle.command_status.specs.Lines.{durations_line, named_line};

use crate::architecture::write_described;
use actual_defs::ActualFault;
use command_plan::{Failed, Sink, write_pieces, write_whole};

/// Writes why the durations are refused, and for which medium or definition.
pub fn write_durations<E: Sink>(err: &mut E, fault: &ActualFault) -> Result<(), Failed>
    ensures { Wrote (E.sunk err.old) (E.sunk err.new) (durations_line fault.now) (is_ok result) }
{
    match fault {
        ActualFault::Text(fault) => write_described(err, b"durations line ", fault),
        ActualFault::Differs => write_whole(err, b"durations: E1 Differs\n"),
        ActualFault::Longer(name) => write_named(err, b"durations: E2 Longer ", name.as_bytes()),
        ActualFault::Missing(name) => write_named(err, b"durations: E3 Missing ", name.as_bytes()),
    }
}

/// Writes this text, a name and the end of the line.
fn write_named<E: Sink>(err: &mut E, text: &[u8], name: &[u8]) -> Result<(), Failed>
    ensures { Wrote (E.sunk err.old) (E.sunk err.new) (named_line text.now name.now) (is_ok result) }
{
    write_pieces(err, &[text, name, b"\n"])
}
