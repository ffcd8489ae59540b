//! Writing the text that a command made, by one call.
ghost use Rattle.command_plan.specs.Run.{Writes};
ghost use Rattle.command_status.specs.Status.{ending_of};
ghost use Rattle.command_status.specs.Written.{Written};

use crate::status::Status;
use command_plan::{Failed, Sink, write_whole};

/// Writes the text that was made, or returns why there is none.
pub fn write_text<K: Sink>(out: &mut K, made: Result<Vec<u8>, Status>) -> Status
    ensures { Written made (K.sunk out.old) (K.sunk out.new) (ending_of result) }
{
    match made {
        Err(refused) => refused,
        Ok(text) => put_text(out, &text),
    }
}

/// Writes a text.
pub fn put_text<K: Sink>(out: &mut K, text: &[u8]) -> Status
    ensures { Writes text.now (K.sunk out.old) (K.sunk out.new) (ending_of result) }
{
    match write_whole(out, text) {
        Ok(()) => Status::Done,
        Err(Failed) => Status::WriteFault,
    }
}
