//! The lines of a script, and what each asks for. `player` reads them.

/// What a line of a script asks for. NAME is a word; TEXT is the rest of the line, with the escapes
/// of `file`.
#[derive(Clone, Copy)]
pub enum Line<'a> {
    /// An empty line, or a comment after `#`: it goes into the transcript.
    Comment,
    /// `$ WORDS`: a call of the program with these words, of which the first is its own name: `syndex_lab`,
    /// `syndex_plain` for `plain_command`, or any other word for `syndex`.
    Call(&'a str),
    /// `file NAME`: the lines up to the next such one write this file, in place of an earlier one.
    File(&'a str),
    /// What is written to that file.
    Edit(Edit<'a>),
    /// What holds for the next call.
    Condition(Condition<'a>),
    /// Any other line: it goes into the transcript after a question mark.
    Unknown,
}

/// What is written to the newest file.
#[derive(Clone, Copy)]
pub enum Edit<'a> {
    /// `| TEXT`: one more line.
    Text(&'a str),
    /// `copy NAME`: all bytes of another file.
    Copy(&'a str),
    /// `times COUNT TEXT`: as many lines, with their numbers from 0 in the place of `%`.
    Times(u64, &'a str),
    /// `line NUMBER TEXT`: this text in place of that line, counted from 1.
    Line(u64, &'a str),
    /// `pad SIZE`: as many `#` as bring the file to this size.
    Pad(usize),
}

/// Which gate is asked before each step.
#[derive(Clone, Copy)]
pub enum GateKind {
    /// One that holds nothing back.
    Free,
    /// One at which this many sequences, from 0 on, wait for each other before their first steps.
    Meeting(usize),
    /// One that counts the steps of sequences 0 to 3 that it is asked for.
    Counting,
    /// One that holds sequence 1 before its step 1 until sequence 0 was asked for its step 6.
    Holding,
}

/// What holds for the next call alone. Calls of the outside are counted from 0.
#[derive(Clone, Copy)]
pub enum Condition<'a> {
    /// `shelf fails N`: call N on the shelf fails.
    ShelfFails(u64),
    /// `shelf by bytes`: a call on the shelf gives one byte at most.
    ShelfByBytes,
    /// `out fails N`: call N on the output fails.
    OutFails(u64),
    /// `out takes N`: a call on the output takes at most N bytes.
    OutTakes(usize),
    /// `out holds N`: there is room for N bytes of output.
    OutHolds(usize),
    /// `err fails N`: call N on the error stream fails.
    ErrFails(u64),
    /// `err takes N`: a call on the error stream takes at most N bytes.
    ErrTakes(usize),
    /// `count calls`: the numbers of calls on the shelf and on the output are written.
    Count,
    /// `tell driven`: the number of micro-steps that were driven is written, with the counts of the last table.
    Driven,
    /// `tell words`: the words of the last table are written.
    Words,
    /// `tell sum`: the sum of all values in the output is written in the place of the output.
    Sum,
    /// `gate KIND`, with `meeting N`, of 8 sequences at most, `counting` or `holding`: this gate is asked before
    /// each step, and what it has seen is written.
    Gate(GateKind),
    /// `output NAME`: where the output is what this file holds, its name stands in the transcript.
    Output(&'a str),
    /// `has NAME`: where the lines of this file are among those of the output, in the same order, `(has NAME)`
    /// stands in the transcript.
    Has(&'a str),
    /// `keep NAME`: what is written becomes a file of this name, and `(kept as NAME)` stands in the transcript.
    Keep(&'a str),
    /// `cuts NAME`: the call is made once for each length of this file, from 0 up to the whole, with the file
    /// cut there. `cuts` has what then stands in the transcript. Nothing is held back, and nothing else is written.
    Cuts(&'a str),
    /// `spoilt NAME`: the call is made once for each length of this file, and for each of five bytes at each of its
    /// places. `spoilt` has what then stands in the transcript, and nothing else is told.
    Spoilt(&'a str),
    /// `faults`: the call is made once for each call on its shelf and its sinks, which fails. `faults` has what then
    /// stands in the transcript, and nothing else is told.
    Faults,
}

/// What a line asks for.
pub fn line_of(line: &str) -> Line<'_> {
    if line.is_empty() || line.starts_with('#') {
        return Line::Comment;
    }
    let (word, rest) = line.split_once(' ').unwrap_or((line, ""));
    match word {
        "$" => Line::Call(rest),
        "file" => Line::File(rest),
        _ => {
            if let Some(edit) = edit_of(word, rest) {
                return Line::Edit(edit);
            }
            condition_of(word, rest).map_or(Line::Unknown, Line::Condition)
        }
    }
}

/// What is written to the newest file, by the first word of a line and its rest.
fn edit_of<'a>(word: &str, rest: &'a str) -> Option<Edit<'a>> {
    match word {
        "|" => Some(Edit::Text(rest)),
        "copy" => Some(Edit::Copy(rest)),
        "pad" => Some(Edit::Pad(rest.parse::<usize>().ok()?)),
        "times" => {
            let (count, text) = counted(rest)?;
            Some(Edit::Times(count, text))
        }
        "line" => {
            let (number, text) = counted(rest)?;
            Some(Edit::Line(number, text))
        }
        _ => None,
    }
}

/// A number and the text after it.
fn counted(rest: &str) -> Option<(u64, &str)> {
    let (number, text) = rest.split_once(' ')?;
    Some((number.parse::<u64>().ok()?, text))
}

/// What holds for the next call, by the first word of a line and its rest.
fn condition_of<'a>(word: &str, rest: &'a str) -> Option<Condition<'a>> {
    match word {
        "output" => Some(Condition::Output(rest)),
        "has" => Some(Condition::Has(rest)),
        "keep" => Some(Condition::Keep(rest)),
        "cuts" => Some(Condition::Cuts(rest)),
        "spoilt" => Some(Condition::Spoilt(rest)),
        "faults" => Some(Condition::Faults),
        "count" => Some(Condition::Count),
        "tell" => told_by(rest),
        "gate" => Some(Condition::Gate(gate_of(rest)?)),
        "shelf" if rest == "by bytes" => Some(Condition::ShelfByBytes),
        _ => {
            let (verb, number) = rest.split_once(' ')?;
            limit_of(word, verb, number.parse::<u64>().ok()?)
        }
    }
}

/// What is told by this name.
fn told_by(name: &str) -> Option<Condition<'static>> {
    match name {
        "driven" => Some(Condition::Driven),
        "words" => Some(Condition::Words),
        "sum" => Some(Condition::Sum),
        _ => None,
    }
}

/// The gate of this name.
fn gate_of(name: &str) -> Option<GateKind> {
    if let Some(("meeting", number)) = name.split_once(' ') {
        return Some(GateKind::Meeting(number.parse::<usize>().ok()?));
    }
    match name {
        "counting" => Some(GateKind::Counting),
        "holding" => Some(GateKind::Holding),
        _ => None,
    }
}

/// What holds of the calls on one part of the outside.
fn limit_of<'a>(part: &str, verb: &str, number: u64) -> Option<Condition<'a>> {
    match (part, verb) {
        ("shelf", "fails") => Some(Condition::ShelfFails(number)),
        ("out", "fails") => Some(Condition::OutFails(number)),
        ("out", "takes") => Some(Condition::OutTakes(number as usize)),
        ("out", "holds") => Some(Condition::OutHolds(number as usize)),
        ("err", "fails") => Some(Condition::ErrFails(number)),
        ("err", "takes") => Some(Condition::ErrTakes(number as usize)),
        _ => None,
    }
}
