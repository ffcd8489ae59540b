//! The player of a script, which `main` gives its lines.

use crate::call::call;
use crate::conditions::Conditions;
use crate::file::{File, append_line, append_times, bytes_of, replaced};
use crate::script::{Edit, Line, line_of};
use std::alloc::{AllocError, Global};
use std::io;
use std::rt::Files;
use std::sync::Wait;
use std::thread::Threads;

/// The files that were written so far, the newest first, and what holds for the next call.
#[derive(Drop)]
pub struct Player {
    files: Vec<File>,
    holds: Conditions,
}

impl Player {
    /// Before the first line.
    pub fn new(alloc: Global) -> Player {
        Player {
            files: Vec::new(alloc),
            holds: Conditions::new(alloc),
        }
    }

    /// Plays one line more.
    pub fn play<R: Files + Print + AllocGlobal + Threads + Wait + Sync>(
        &mut self,
        rt: &R,
        text: &str,
    ) -> io::Result<()> {
        match line_of(text) {
            Line::Comment => println!(rt; "{text}"),
            Line::Unknown => println!(rt; "? {text}"),
            Line::Call(words) => {
                let kept = call(rt, &self.files, words, &self.holds)?;
                self.holds = Conditions::new(rt.alloc());
                if let Some(file) = kept {
                    self.files.insert(0, file)?;
                }
                Ok(())
            }
            Line::Condition(condition) => Ok(self.holds.add(rt.alloc(), condition)?),
            Line::File(name) => Ok(begin(rt.alloc(), &mut self.files, name)?),
            Line::Edit(edit) => write(rt, &mut self.files, edit),
        }
    }
}

/// Puts an empty file of this name before the others.
fn begin(alloc: Global, files: &mut Vec<File>, name: &str) -> Result<(), AllocError> {
    files.insert(0, File::new(alloc, name)?)?;
    Ok(())
}

/// Writes to the newest file.
fn write<R: Files + AllocGlobal>(rt: &R, files: &mut Vec<File>, edit: Edit<'_>) -> io::Result<()> {
    let copied = match edit {
        Edit::Copy(name) => bytes_of(rt, files, name)?,
        _ => None,
    };
    if let Some(file) = files.first_mut() {
        match copied {
            Some(bytes) => file.bytes.extend_from_slice(&bytes)?,
            None => apply(rt.alloc(), &mut file.bytes, edit)?,
        }
    }
    Ok(())
}

/// Changes the bytes of a file; a copy of another one is made elsewhere.
fn apply(alloc: Global, bytes: &mut Vec<u8>, edit: Edit<'_>) -> Result<(), AllocError> {
    match edit {
        Edit::Text(text) => append_line(bytes, text)?,
        Edit::Times(count, text) => append_times(alloc, bytes, count, text)?,
        Edit::Line(number, text) => *bytes = replaced(alloc, bytes, number, text)?,
        Edit::Pad(size) if bytes.len() < size => bytes.resize(size, b'#')?,
        Edit::Pad(_) | Edit::Copy(_) => (),
    }
    Ok(())
}
