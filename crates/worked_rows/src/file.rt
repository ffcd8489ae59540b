//! The files that a script writes. `player` writes them, and `call` and `cuts` read them.
//!
//! In a text `\r`, `\t` and `\\` are a carriage return, a tab and a backslash, `\xHH` is the byte of
//! these two digits, and a text that ends with `\c` is followed by no line feed.

use std::alloc::{AllocError, Global};
use std::rt::Files;
use std::{fs, io};

/// A file with its name.
#[derive(Drop)]
pub struct File {
    pub name: String,
    pub bytes: Vec<u8>,
}

impl File {
    /// An empty file.
    pub fn new(alloc: Global, name: &str) -> Result<File, AllocError> {
        Ok(File {
            name: String::from_str(alloc, name)?,
            bytes: Vec::new(alloc),
        })
    }
}

/// Where the next byte of a text stands.
#[derive(Clone, Copy)]
enum Escape {
    /// In no escape.
    Outside,
    /// After a backslash.
    Begun,
    /// After `\x`.
    Byte,
    /// After `\x` and this digit.
    Digit(u8),
}

/// Appends the bytes of a text, and a line feed unless `\c` ends it.
pub fn append_line(bytes: &mut Vec<u8>, text: &str) -> Result<(), AllocError> {
    match text.strip_suffix("\\c") {
        Some(text) => append_text(bytes, text),
        None => {
            append_text(bytes, text)?;
            bytes.push(b'\n')?;
            Ok(())
        }
    }
}

/// Appends the bytes of a text.
pub fn append_text(bytes: &mut Vec<u8>, text: &str) -> Result<(), AllocError> {
    let mut escape = Escape::Outside;
    for byte in text.bytes() {
        let (next, made) = after(escape, byte);
        escape = next;
        if let Some(made) = made {
            bytes.push(made)?;
        }
    }
    Ok(())
}

/// What stands after one more byte, and the byte that is then made.
fn after(escape: Escape, byte: u8) -> (Escape, Option<u8>) {
    match (escape, byte) {
        (Escape::Outside, b'\\') => (Escape::Begun, None),
        (Escape::Begun, b'x') => (Escape::Byte, None),
        (Escape::Begun, b'r') => (Escape::Outside, Some(b'\r')),
        (Escape::Begun, b't') => (Escape::Outside, Some(b'\t')),
        (Escape::Byte, _) => (Escape::Digit(digit(byte)), None),
        (Escape::Digit(high), _) => (Escape::Outside, Some(high % 16 * 16 + digit(byte) % 16)),
        _ => (Escape::Outside, Some(byte)),
    }
}

/// The value of a hexadecimal digit.
fn digit(byte: u8) -> u8 {
    match byte {
        b'0'..=b'9' => byte - b'0',
        b'a'..=b'f' => byte - b'a' + 10,
        _ => 0,
    }
}

/// Appends as many lines, with their numbers in the place of `%`.
pub fn append_times(
    alloc: Global,
    bytes: &mut Vec<u8>,
    count: u64,
    text: &str,
) -> Result<(), AllocError> {
    let Some((before, rest)) = text.split_once('%') else {
        for _ in 0..count {
            append_line(bytes, text)?;
        }
        return Ok(());
    };
    for number in 0..count {
        append_text(bytes, before)?;
        bytes.extend_from_slice(number.to_string(alloc)?.as_bytes())?;
        append_line(bytes, rest)?;
    }
    Ok(())
}

/// A file with this text in place of its line of that number.
pub fn replaced(
    alloc: Global,
    bytes: &[u8],
    number: u64,
    text: &str,
) -> Result<Vec<u8>, AllocError> {
    let mut made = Vec::new(alloc);
    let mut at = 1u64;
    for byte in bytes {
        if at != number {
            made.push(*byte)?;
        }
        if *byte == b'\n' {
            if at == number {
                append_line(&mut made, text)?;
            }
            at = at.saturating_add(1);
        }
    }
    Ok(made)
}

/// The bytes of the file of this name: the script's, or those in the folder; None where neither has it.
pub fn bytes_of<R: Files + AllocGlobal>(
    rt: &R,
    files: &[File],
    name: &str,
) -> io::Result<Option<Vec<u8>>> {
    match files.iter().find(|file| file.name.as_str() == name) {
        Some(file) => Ok(Some(Vec::from_slice(rt.alloc(), &file.bytes)?)),
        None => Ok(fs::read(rt, name).ok()),
    }
}
