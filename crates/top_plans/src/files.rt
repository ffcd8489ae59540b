//! What the files of a command say: each is read whole, and its text then goes through the first stages of the
//! compiler, or the reader of sensor tables. The commands call these functions in the order of their plans.
ghost use Rattle.std.specs.Prelude.{IfOk, IfErr};
ghost use Rattle.command_status.specs.Run.{FailsToRead, WasRead};
ghost use Rattle.command_status.specs.Status.{above, ending_of};
ghost use Rattle.command_status.specs.Shelf.{Stays, file_limit};
ghost use Rattle.top_plans.specs.Reads.{
  ReadsAlgorithm,
  ReadsProblem,
  ReadsDescription,
  ReadsTable,
};

use algo_rules::Tree;
use command_status::{File, ReadAnswer, Shelf, Status, read_whole};
use compiler::{
    Algorithm, Problem, compile_to_durations, parse_algorithm, parse_architecture, parse_table,
};
use self_timed::ArchiText;
use std::alloc::Global;
use syn_base::SensorRows;

/// All bytes of a file, or why it was not read.
pub fn read_file<S: Shelf>(
    alloc: Global,
    shelf: &mut S,
    file: File,
    name: &str,
) -> Result<Vec<u8>, Status>
    ensures stays { Stays (S.held shelf.old) (S.held shelf.new) }
    ensures read { IfOk result (λ v. WasRead file name.now (S.held shelf.old) (S.held shelf.new) v.items) }
    ensures not_read { IfErr result (λ status. FailsToRead file name.now (above file_limit)
        (S.held shelf.old) (S.held shelf.new) (ending_of status)) }
{
    match read_whole(alloc, shelf, file, name) {
        Ok(bytes) => Ok(bytes),
        Err(ReadAnswer::Fault) => Err(Status::ReadFault(file)),
        Err(ReadAnswer::TooLong(limit)) => Err(Status::Limit(limit)),
        Err(ReadAnswer::OutOfMemory) => Err(Status::OutOfMemory),
    }
}

/// The algorithm of a file, or why there is none.
pub fn read_algorithm<S: Shelf>(
    alloc: Global,
    shelf: &mut S,
    name: &str,
) -> Result<Algorithm, Status>
    ensures stays { Stays (S.held shelf.old) (S.held shelf.new) }
    ensures reads { ReadsAlgorithm name.now (S.held shelf.old) (S.held shelf.new) result }
{
    let text = read_file(alloc, shelf, File::Algorithm, name)?;
    Ok(parse_algorithm(alloc, &text)?)
}

/// What the text of a file describes, whatever its durations are; or why there is nothing.
pub fn read_description<S: Shelf>(
    alloc: Global,
    shelf: &mut S,
    name: &str,
) -> Result<ArchiText, Status>
    ensures stays { Stays (S.held shelf.old) (S.held shelf.new) }
    ensures reads { ReadsDescription name.now (S.held shelf.old) (S.held shelf.new) result }
{
    let text = read_file(alloc, shelf, File::Architecture, name)?;
    Ok(parse_architecture(alloc, &text)?)
}

/// The problem of a tree and the architecture of a file, or why there is none.
pub fn read_architecture<S: Shelf>(
    alloc: Global,
    shelf: &mut S,
    name: &str,
    tree: &Tree,
) -> Result<Problem, Status>
    ensures stays { Stays (S.held shelf.old) (S.held shelf.new) }
    ensures reads { ReadsProblem tree.now name.now (S.held shelf.old) (S.held shelf.new) result }
{
    let text = read_file(alloc, shelf, File::Architecture, name)?;
    Ok(compile_to_durations(alloc, &text, tree)?)
}

/// The rows of a file's table for this algorithm, or why there are none.
pub fn read_table<S: Shelf>(
    alloc: Global,
    shelf: &mut S,
    name: &str,
    tree: &Tree,
) -> Result<SensorRows, Status>
    ensures stays { Stays (S.held shelf.old) (S.held shelf.new) }
    ensures reads { ReadsTable tree.now name.now (S.held shelf.old) (S.held shelf.new) result }
{
    let table = read_file(alloc, shelf, File::Sensors, name)?;
    Ok(parse_table(alloc, &table, tree)?)
}
