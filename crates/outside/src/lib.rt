//! The outside world as the program sees it: files that are read piece by piece, sinks that bytes are put into,
//! and a gate that is asked before a step; and whole reads and writes over them.
//!
//! `read_whole`, `write_whole` and `write_pieces` work over any shelf and sink, and the top call of the
//! program is generic over them. Those in memory serve tests; `real_edge` has the real ones.
#![tactic(auto)]

ghost use Rattle.std.specs.Prelude.{◌≡◌, ◌≤◌, ◌<◌, length, take, map, IfOk, OnErr, IfErr, IfSome, is_ok};
ghost use Rattle.outside.specs.Bytes.{joined};
ghost use Rattle.outside.specs.Faults.{Rose};
ghost use Rattle.outside.specs.Shelf.{Stays, OthersStay, Took, IsRead, NotRead};
ghost use Rattle.outside.specs.Sink.{Appends, Wrote};

use std::alloc::Global;
use syn_base::{LimitFault, LimitKind};

mod file;
mod memory;

pub use file::{Failed, File, ReadAnswer};
pub use memory::{Files, GateFree, ShelfMem, ShelfSure, SinkMem, SinkSure};

/// Files that are read piece by piece. A shelf tells the bytes under each name, where it tells
/// them, and for each file and name a count of faults that never falls. What it told never changes.
pub trait Shelf {
    ghost use Rattle.outside.specs.Shelf.{Held};

    ghost held: { Self → Held };

    /// Puts bytes of the file `name` from place `at` into the buffer, and returns how many. Into a
    /// buffer with room it puts none only where `at` is at or past the file's end. It fails only
    /// where the count of this file under this name rose, and raises the count of no other file.
    fn piece(&mut self, file: File, name: &str, at: u64, into: &mut [u8]) -> Result<usize, Failed>
        ensures stays { Stays (held self.old) (held self.new) }
        ensures others { OthersStay file (held self.old) (held self.new) }
        ensures failed { OnErr result (Rose ((held self.old).faults file name.now)
            ((held self.new).faults file name.now)) }
        ensures fits { IfOk result (λ n. n ≤ length into.old) }
        ensures took { IfOk result (λ n. IfSome ((held self.old).told name.now) (λ bytes. Took bytes at n into.new)) };
}

/// What bytes are put into. A sink tells the bytes written, where it tells them, and a count of
/// faults that never falls.
pub trait Sink {
    ghost use Rattle.outside.specs.Sink.{Sunk};

    ghost sunk: { Self → Sunk };

    /// Appends the first bytes of the piece, and returns how many: at least one where the piece has
    /// any. It fails only where the count rose, and nothing was appended then.
    fn put(&mut self, bytes: &[u8]) -> Result<usize, Failed>
        ensures fits { IfOk result (λ n. n ≤ length bytes.now) }
        ensures some { IfOk result (λ n. 0 < length bytes.now → 0 < n) }
        ensures took { IfOk result (λ n. Appends (sunk self.old) (sunk self.new) (take n bytes.now)) }
        ensures nothing { OnErr result ((sunk self.new).told ≡ (sunk self.old).told) }
        ensures failed { OnErr result (Rose (sunk self.old).faults (sunk self.new).faults) }
        ensures faults { (sunk self.old).faults ≤ (sunk self.new).faults };
}

/// What is asked once before the first try of step `n` of sequence `seq`, by the thread that drives
/// the sequence. It promises nothing, and may wait.
pub trait Gate: Sync {
    /// Returns when step `n` of sequence `seq` may be tried.
    fn pass(&self, seq: u32, n: u64);
}

/// The most bytes that one call on a shelf is asked for.
const PIECE: usize = 4096;

/// The most bytes that a file may have: the bound of `LimitKind::File`.
const FILE_BOUND: usize = 16_777_216;

/// All bytes of a file. It fails only where a call on the shelf failed, and says TooLong exactly
/// where one byte more than the bound was taken. Each turn takes at least one byte or ends.
pub fn read_whole<S: Shelf>(
    alloc: Global,
    shelf: &mut S,
    file: File,
    name: &str,
) -> Result<Vec<u8>, ReadAnswer>
    ensures stays { Stays (S.held shelf.old) (S.held shelf.new) }
    ensures others { OthersStay file (S.held shelf.old) (S.held shelf.new) }
    ensures read { IfOk result (λ v. IsRead name.now (S.held shelf.old) v.items) }
    ensures not_read { IfErr result (NotRead file name.now (S.held shelf.old) (S.held shelf.new)) }
{
    let mut bytes = Vec::new(alloc);
    let mut buffer = [0u8; PIECE];
    while bytes.len() <= FILE_BOUND {
        let room = (FILE_BOUND + 1 - bytes.len()).min(PIECE);
        let Ok(n) = shelf.piece(file, name, bytes.len() as u64, &mut buffer[..room]) else {
            return Err(ReadAnswer::Fault);
        };
        if n == 0 {
            return Ok(bytes);
        }
        if bytes.extend_from_slice(&buffer[..n]).is_err() {
            return Err(ReadAnswer::OutOfMemory);
        }
    }
    Err(ReadAnswer::TooLong(LimitFault {
        which: LimitKind::File,
        count: FILE_BOUND as u128 + 1,
        bound: FILE_BOUND as u128,
    }))
}

/// Puts all of the bytes, and takes no memory. It fails only where the sink's count rose, and a
/// prefix of the bytes was appended then.
pub fn write_whole<K: Sink>(sink: &mut K, bytes: &[u8]) -> Result<(), Failed>
    ensures { Wrote (K.sunk sink.old) (K.sunk sink.new) bytes.now (is_ok result) }
{
    let mut at = 0;
    while at < bytes.len() {
        at += sink.put(&bytes[at..])?;
    }
    Ok(())
}

/// Puts all pieces, one after another, and takes no memory. It fails only where the sink's count
/// rose, and a prefix of the joined pieces was appended then.
pub fn write_pieces<K: Sink>(sink: &mut K, pieces: &[&[u8]]) -> Result<(), Failed>
    ensures { Wrote (K.sunk sink.old) (K.sunk sink.new) (joined (map (λ p. p.now) pieces.now)) (is_ok result) }
{
    for piece in pieces {
        write_whole(sink, piece)?;
    }
    Ok(())
}
