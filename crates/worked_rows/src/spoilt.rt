//! A call for each place of one of its files at which it is cut, or at which another byte stands.
//!
//! There are six lines: for the cuts, and for each of five bytes in the place of every byte of the file. Each
//! tells how often each status was answered, and a digest of all the answers in the order of the places. The
//! plain readers of `tests/` make the same lines, so what each answer has to be stands there.

use crate::answer::Answer;
use crate::call::outside_for;
use crate::conditions::Conditions;
use crate::damage::{Damage, damaged};
use crate::file::{File, bytes_of};
use std::io;
use std::rt::Files;
use std::sync::Wait;
use std::thread::Threads;

/// What stands in the place of another byte: one that may not stand in a text, a line feed, a digit, a letter,
/// and the begin of a comment.
const BYTES: [u8; 5] = [1, b'\n', b'2', b'w', b'#'];

/// A prime number and a first value by which bytes are mixed: those of the digest FNV-1a of 64 bits.
const PRIME: u64 = 1_099_511_628_211;

const FIRST: u64 = 14_695_981_039_346_656_037;

/// How often each status was answered, and a digest of all answers.
#[derive(Drop)]
struct Account {
    counts: [u64; 16],
    digest: u64,
}

impl Account {
    /// Before the first answer.
    fn new() -> Account {
        Account {
            counts: [0; 16],
            digest: FIRST,
        }
    }

    /// Takes one more answer: its status, its line and its output, each with an end of its own.
    fn add(&mut self, answer: &Answer) {
        if let Some(count) = self.counts.get_mut(answer.number as usize) {
            *count = count.saturating_add(1);
        }
        self.mix(answer.number);
        self.mix_all(&answer.line);
        self.mix_all(&answer.output);
    }

    /// Mixes these bytes into the digest, and a byte 0 after them.
    fn mix_all(&mut self, bytes: &[u8]) {
        for byte in bytes {
            self.mix(*byte);
        }
        self.mix(0);
    }

    /// Mixes a byte into the digest.
    fn mix(&mut self, byte: u8) {
        self.digest = (self.digest ^ byte as u64).wrapping_mul(PRIME);
    }

    /// Writes each status that was answered, with its number of times, and the digest.
    fn write(&self, rt: &impl Print) -> io::Result<()> {
        for (number, count) in self.counts.iter().enumerate() {
            if *count > 0 {
                print!(rt; " {count} x {number},")?;
            }
        }
        let digest = self.digest;
        println!(rt; " digest {digest}")
    }
}

/// Calls the program with these words for each cut of this file, and for each other byte at each of its places.
pub fn call_spoilt<R: Files + Print + AllocGlobal + Threads + Wait + Sync>(
    rt: &R,
    files: &[File],
    words: &[String],
    holds: &Conditions,
    name: &str,
) -> io::Result<()> {
    let whole = match bytes_of(rt, files, name)? {
        Some(bytes) => bytes.len(),
        None => 0,
    };
    let called = Called {
        files,
        words,
        holds,
        name,
    };
    print!(rt; "cut:")?;
    called.cuts(rt, whole)?.write(rt)?;
    for byte in BYTES {
        print!(rt; "byte {byte}:")?;
        called.bytes(rt, whole, byte)?.write(rt)?;
    }
    Ok(())
}

/// The call that is made so often.
#[derive(Clone, Copy)]
struct Called<'a> {
    files: &'a [File],
    words: &'a [String],
    holds: &'a Conditions,
    name: &'a str,
}

impl<'a> Called<'a> {
    /// The answers at each length of the file.
    fn cuts<R: Files + AllocGlobal + Threads + Wait + Sync>(
        &self,
        rt: &R,
        whole: usize,
    ) -> io::Result<Account> {
        let mut account = Account::new();
        for length in 0..=whole {
            account.add(&self.answer(rt, Damage::Cut(length))?);
        }
        Ok(account)
    }

    /// The answers with this byte at each place of the file.
    fn bytes<R: Files + AllocGlobal + Threads + Wait + Sync>(
        &self,
        rt: &R,
        whole: usize,
        byte: u8,
    ) -> io::Result<Account> {
        let mut account = Account::new();
        for place in 0..whole {
            account.add(&self.answer(rt, Damage::Byte(place, byte))?);
        }
        Ok(account)
    }

    /// What the program answers where the file has this damage.
    fn answer<R: Files + AllocGlobal + Threads + Wait + Sync>(
        &self,
        rt: &R,
        damage: Damage,
    ) -> io::Result<Answer> {
        let named = damaged(rt, self.files, self.words, self.name, damage)?;
        let mut outside = outside_for(rt, &named, self.words, self.holds)?;
        Ok(Answer::of(rt, self.words, &mut outside)?)
    }
}
