//! The cuts of a file: a call for each length to which it is cut. `call` makes them.
//!
//! Where the answers of several lengths are equal, one line has them: the least and the greatest of these
//! lengths, the status after `= `, and the line of standard error. Under it stands the output, where there is any.

use crate::answer::{Answer, Span};
use crate::call::outside_for;
use crate::conditions::Conditions;
use crate::damage::{Damage, damaged};
use crate::file::{File, bytes_of};
use std::io;
use std::rt::Files;
use std::sync::Wait;
use std::thread::Threads;

/// Calls the program with these words once for each length of this file, from nothing up to the whole of it.
pub fn call_cuts<R: Files + Print + AllocGlobal + Threads + Wait + Sync>(
    rt: &R,
    files: &[File],
    words: &[String],
    holds: &Conditions,
    name: &str,
) -> io::Result<()> {
    let whole = match bytes_of(rt, files, name)? {
        Some(bytes) => bytes.len(),
        None => 0,
    };
    let mut span = Span::new(0, answer_at(rt, files, words, holds, name, 0)?);
    for length in 1..=whole {
        let answer = answer_at(rt, files, words, holds, name, length)?;
        span.follow(rt, files, holds, length as u64, answer)?;
    }
    span.write(rt, files, holds)
}

/// What the program answers to these words, where the file of this name has at most this many bytes.
fn answer_at<R: Files + AllocGlobal + Threads + Wait + Sync>(
    rt: &R,
    files: &[File],
    words: &[String],
    holds: &Conditions,
    name: &str,
    length: usize,
) -> io::Result<Answer> {
    let named = damaged(rt, files, words, name, Damage::Cut(length))?;
    let mut outside = outside_for(rt, &named, words, holds)?;
    Ok(Answer::of(rt, words, &mut outside)?)
}
