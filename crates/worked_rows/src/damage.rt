//! A file of a call with one thing wrong in it.

use crate::file::{File, bytes_of};
use std::io;
use std::rt::Files;

/// What is wrong with a file.
#[derive(Clone, Copy)]
pub enum Damage {
    /// It ends after this many bytes.
    Cut(usize),
    /// At this place stands this byte.
    Byte(usize, u8),
}

impl Damage {
    /// Does it to these bytes.
    fn apply(self, bytes: &mut Vec<u8>) {
        match self {
            Damage::Cut(length) => bytes.truncate(length),
            Damage::Byte(place, byte) => {
                if let Some(it) = bytes.get_mut(place) {
                    *it = byte;
                }
            }
        }
    }
}

/// The files that the words name, of which the one of this name has this damage.
pub fn damaged<R: Files + AllocGlobal>(
    rt: &R,
    files: &[File],
    words: &[String],
    name: &str,
    damage: Damage,
) -> io::Result<Vec<File>> {
    let mut named = Vec::new(rt.alloc());
    for word in words {
        if let Some(mut bytes) = bytes_of(rt, files, word.as_str())? {
            if word.as_str() == name {
                damage.apply(&mut bytes);
            }
            named.push(File {
                name: String::from_str(rt.alloc(), word.as_str())?,
                bytes,
            })?;
        }
    }
    Ok(named)
}
