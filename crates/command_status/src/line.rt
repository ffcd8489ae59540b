//! The line of a status on the error sink, written piece by piece without memory. The top calls write it by `report`.
ghost use Rattle.std.specs.Prelude.{◌≡◌, is_ok};
ghost use Rattle.command_plan.specs.Sink.{Wrote};
ghost use Rattle.command_status.specs.Lines.{
  algorithm_detail,
  algorithm_line,
  algorithm_word,
  counts_line,
  file_word,
  head,
  limit_line,
  line_of,
  names_line,
  number_line,
  sensors_detail,
  sensors_line,
  sensors_word,
  word_line,
  Said,
};

use crate::actual::write_durations;
use crate::architecture::write_described;
use crate::code::{write_check, write_code};
use crate::status::Status;
use algo_text::{AlgoCause, AlgoFault};
use command_plan::{Failed, File, Sink, write_pieces, write_whole};
use itoa::Buffer;
use sensor_table::{SensorCause, SensorFault};
use syn_base::{LimitFault, Name};

/// Writes the status's line. What happens there changes nothing else.
pub fn say<E: Sink>(err: &mut E, status: &Status)
    ensures { Said (line_of status.now) (E.sunk err.old) (E.sunk err.new) }
{
    let _ = write_line(err, status);
}

/// Writes the line of a status, and returns the status.
pub fn report<E: Sink>(err: &mut E, status: Status) -> Status
    ensures same { result ≡ status }
    ensures line { Said (line_of status) (E.sunk err.old) (E.sunk err.new) }
{
    say(err, &status);
    status
}

/// Writes the status's line, which is empty where the command is done.
fn write_line<E: Sink>(err: &mut E, status: &Status) -> Result<(), Failed>
    ensures { Wrote (E.sunk err.old) (E.sunk err.new) (line_of status.now) (is_ok result) }
{
    match status {
        Status::Done => Ok(()),
        Status::Usage => write_whole(err, b"usage\n"),
        Status::ReadFault(file) => write_pieces(err, &[b"cannot read ", word_of(*file), b"\n"]),
        Status::WriteFault => write_whole(err, b"cannot write\n"),
        Status::AlgoRefused(fault) => write_algorithm(err, fault),
        Status::ArchiRefused(fault) => write_described(err, b"architecture line ", fault),
        Status::SensorsRefused(fault) => write_sensors(err, fault),
        Status::CodeRefused(fault) => write_code(err, fault),
        Status::CheckRefused(cause) => write_check(err, cause),
        Status::ActualRefused(fault) => write_durations(err, fault),
        Status::Limit(fault) => write_limit(err, fault),
        Status::OutOfMemory => write_whole(err, b"out of memory\n"),
    }
}

/// Writes which quantity is above its bound, and both numbers.
fn write_limit<E: Sink>(err: &mut E, fault: &LimitFault) -> Result<(), Failed>
    ensures { Wrote (E.sunk err.old) (E.sunk err.new) (limit_line fault.now) (is_ok result) }
{
    let mut count = Buffer::new();
    let mut bound = Buffer::new();
    let count = count.format(fault.count).as_bytes();
    let bound = bound.format(fault.bound).as_bytes();
    let word = fault.which.word().as_bytes();
    write_pieces(
        err,
        &[b"limit ", word, b": ", count, b" above ", bound, b"\n"],
    )
}

/// The word for a file.
fn word_of(file: File) -> &'static [u8]
    ensures { result.now ≡ file_word file }
{
    match file {
        File::Algorithm => b"algorithm",
        File::Architecture => b"architecture",
        File::Sensors => b"sensors",
        File::Code => b"code",
        File::Durations => b"durations",
    }
}

/// Writes where a text is refused, and for which cause.
pub fn write_head<E: Sink>(err: &mut E, text: &[u8], at: u64, word: &[u8]) -> Result<(), Failed>
    ensures { Wrote (E.sunk err.old) (E.sunk err.new) (head text.now at word.now) (is_ok result) }
{
    let mut digits = Buffer::new();
    write_pieces(err, &[text, digits.format(at).as_bytes(), b": ", word])
}

/// Writes where an algorithm's text is refused, for which cause, and what stands after it.
fn write_algorithm<E: Sink>(err: &mut E, fault: &AlgoFault) -> Result<(), Failed>
    ensures { Wrote (E.sunk err.old) (E.sunk err.new) (algorithm_line fault.now) (is_ok result) }
{
    let word = algorithm_word(&fault.cause);
    write_head(err, b"algorithm line ", u64::from(fault.line), word)?;
    write_algorithm_detail(err, &fault.cause)
}

/// The number and the name of an algorithm's cause.
fn algorithm_word(cause: &AlgoCause) -> &'static [u8]
    ensures { result.now ≡ algorithm_word cause.now }
{
    match cause {
        AlgoCause::NotText(_) => b"A1 NotText",
        AlgoCause::BadLine => b"A2 BadLine",
        AlgoCause::BadName(_) => b"A3 BadName",
        AlgoCause::BadNumber(_) => b"A4 BadNumber",
        AlgoCause::BadExpression(_) => b"A5 BadExpression",
        AlgoCause::DuplicateName(_) => b"A6 DuplicateName",
        AlgoCause::UnknownName(_) => b"A7 UnknownName",
        AlgoCause::WrongLength(_) => b"A8 WrongLength",
        AlgoCause::Unconnected(_) => b"A9 Unconnected",
        AlgoCause::TwiceConnected(_) => b"A10 TwiceConnected",
        AlgoCause::Recursive(_) => b"A11 Recursive",
        AlgoCause::Cycle(_) => b"A12 Cycle",
        AlgoCause::NoMain => b"A13 NoMain",
        AlgoCause::BadCase => b"A14 BadCase",
        AlgoCause::Misplaced(_) => b"A15 Misplaced",
        AlgoCause::BadRepeat => b"A16 BadRepeat",
        AlgoCause::BadDelay => b"A17 BadDelay",
        AlgoCause::BadEvery(_) => b"A18 BadEvery",
    }
}

/// Writes what stands after the cause's word.
fn write_algorithm_detail<E: Sink>(err: &mut E, cause: &AlgoCause) -> Result<(), Failed>
    ensures { Wrote (E.sunk err.old) (E.sunk err.new) (algorithm_detail cause.now) (is_ok result) }
{
    match cause {
        AlgoCause::NotText(place) | AlgoCause::BadExpression(place) => write_number(err, *place),
        AlgoCause::BadName(word)
        | AlgoCause::BadNumber(word)
        | AlgoCause::DuplicateName(word)
        | AlgoCause::UnknownName(word)
        | AlgoCause::WrongLength(word)
        | AlgoCause::Unconnected(word)
        | AlgoCause::TwiceConnected(word) => write_word(err, word.as_slice()),
        AlgoCause::Recursive(name) | AlgoCause::Misplaced(name) | AlgoCause::BadEvery(name) =>
            write_word(err, name.as_bytes()),
        AlgoCause::Cycle(names) => write_names(err, names.as_slice()),
        AlgoCause::BadLine
        | AlgoCause::NoMain
        | AlgoCause::BadCase
        | AlgoCause::BadRepeat
        | AlgoCause::BadDelay => write_whole(err, b"\n"),
    }
}

/// Writes where a sensor table is refused, for which cause, and what stands after it.
fn write_sensors<E: Sink>(err: &mut E, fault: &SensorFault) -> Result<(), Failed>
    ensures { Wrote (E.sunk err.old) (E.sunk err.new) (sensors_line fault.now) (is_ok result) }
{
    let word = sensors_word(&fault.cause);
    write_head(err, b"sensors row ", fault.row, word)?;
    write_sensors_detail(err, &fault.cause)
}

/// The number and the name of a sensor table's cause.
fn sensors_word(cause: &SensorCause) -> &'static [u8]
    ensures { result.now ≡ sensors_word cause.now }
{
    match cause {
        SensorCause::BadHeader => b"S1 BadHeader",
        SensorCause::BadCount { .. } => b"S2 BadCount",
        SensorCause::BadIndex => b"S3 BadIndex",
        SensorCause::BadNumber(_) => b"S4 BadNumber",
    }
}

/// Writes what stands after the cause's word.
fn write_sensors_detail<E: Sink>(err: &mut E, cause: &SensorCause) -> Result<(), Failed>
    ensures { Wrote (E.sunk err.old) (E.sunk err.new) (sensors_detail cause.now) (is_ok result) }
{
    match cause {
        SensorCause::BadHeader | SensorCause::BadIndex => write_whole(err, b"\n"),
        SensorCause::BadCount { found, wanted } => write_counts(err, *found, *wanted),
        SensorCause::BadNumber(column) => write_number(err, *column),
    }
}

/// Writes two counts after the cause, and the end of the line.
fn write_counts<E: Sink>(err: &mut E, found: u64, wanted: u64) -> Result<(), Failed>
    ensures { Wrote (E.sunk err.old) (E.sunk err.new) (counts_line found wanted) (is_ok result) }
{
    let mut first = Buffer::new();
    let mut second = Buffer::new();
    let found = first.format(found).as_bytes();
    let wanted = second.format(wanted).as_bytes();
    write_pieces(err, &[b" ", found, b" ", wanted, b"\n"])
}

/// Writes a number after the cause, and the end of the line.
pub fn write_number<E: Sink>(err: &mut E, number: usize) -> Result<(), Failed>
    ensures { Wrote (E.sunk err.old) (E.sunk err.new) (number_line number) (is_ok result) }
{
    let mut digits = Buffer::new();
    write_pieces(err, &[b" ", digits.format(number).as_bytes(), b"\n"])
}

/// Writes a word after the cause, and the end of the line.
pub fn write_word<E: Sink>(err: &mut E, word: &[u8]) -> Result<(), Failed>
    ensures { Wrote (E.sunk err.old) (E.sunk err.new) (word_line word.now) (is_ok result) }
{
    write_pieces(err, &[b" ", word, b"\n"])
}

/// Writes names after the cause, and the end of the line.
pub fn write_names<E: Sink>(err: &mut E, names: &[Name]) -> Result<(), Failed>
    ensures { Wrote (E.sunk err.old) (E.sunk err.new) (names_line names.now) (is_ok result) }
{
    for name in names {
        write_pieces(err, &[b" ", name.as_bytes()])?;
    }
    write_whole(err, b"\n")
}
