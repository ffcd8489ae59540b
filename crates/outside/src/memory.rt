//! Shelves and sinks in memory, and a gate that does nothing: for tests, and for calls that are sure to succeed.

ghost use Rattle.std.specs.Prelude.{◌≡◌, ◌≤◌, ◌<◌, ◌-◌, [], length, min, take, replicate, option_map, MatchOption, IfOk, IfSome, IsErr, OnErr, is_ok, if◌then◌else◌, not};
ghost use Rattle.outside.specs.Bytes.{named};
ghost use Rattle.outside.specs.Faults.{Rose};
ghost use Rattle.outside.specs.Shelf.{Stays, OthersStay, Took};
ghost use Rattle.outside.specs.Sink.{Appends};

use crate::{Failed, File, Gate, Shelf, Sink};
use std::alloc::Global;
use std::marker::Model;
use syn_base::{Items, OutOfMemory};

/// Names with their bytes. Of a repeated name the first entry counts.
pub type Files = Items<(Items<u8>, Items<u8>)>;

/// Files in memory, with the calls that are to fail. An absent name is a failure.
#[derive(Drop)]
pub struct ShelfMem {
    /// The files.
    pub files: Files,
    /// The numbers, from 0, of the calls that are to fail.
    pub failing: Items<u64>,
    /// The count of faults of each file, in the order of `File`.
    pub faults: [u64; 5],
    /// The number of calls made.
    pub calls: u64,
}

impl ShelfMem {
    /// A shelf with these files and failing calls, before its first call. It takes no memory.
    pub fn new(files: Files, failing: Items<u64>) -> ShelfMem
        ensures files { result.files ≡ files }
        ensures failing { result.failing ≡ failing }
        ensures faults { result.faults ≡ replicate 5 0 }
        ensures calls { result.calls ≡ 0 }
    {
        ShelfMem {
            files,
            failing,
            faults: [0; 5],
            calls: 0,
        }
    }
}

/// The bytes of the first entry with this name.
fn file_at<'a>(files: &'a [(Items<u8>, Items<u8>)], name: &[u8]) -> Option<&'a [u8]>
    ensures { option_map (λ s. s.now) result ≡ named files.now name.now }
{
    for entry in files {
        if entry.0.as_slice() == name {
            return Some(entry.1.as_slice());
        }
    }
    None
}

/// Copies what fits of the bytes from a place on, and returns how many bytes that is.
fn copy_piece(bytes: &[u8], at: u64, into: &mut [u8]) -> usize
    ensures count { result ≡ min (length into.old) (length bytes.now - at) }
    ensures took { Took bytes.now at result into.new }
{
    if at >= bytes.len() as u64 {
        return 0;
    }
    let from = at as usize;
    let n = (bytes.len() - from).min(into.len());
    into[..n].copy_from_slice(&bytes[from..from + n]);
    n
}

impl Shelf for ShelfMem {
    ghost use Rattle.outside.specs.ShelfMemory.{memory_held, read_next, after_read, after_fault};

    ghost held = { memory_held };

    fn piece(&mut self, file: File, name: &str, at: u64, into: &mut [u8]) -> Result<usize, Failed>
        ensures stays { Stays (memory_held self.old) (memory_held self.new) }
        ensures others { OthersStay file (memory_held self.old) (memory_held self.new) }
        ensures failed { OnErr result (Rose ((memory_held self.old).faults file name.now)
            ((memory_held self.new).faults file name.now)) }
        ensures fits { IfOk result (λ n. n ≤ length into.old) }
        ensures took { IfOk result (λ n. IfSome ((memory_held self.old).told name.now)
            (λ bytes. Took bytes at n into.new)) }

        // It fails exactly where nothing is read, and counts each call.
        ensures count { MatchOption (read_next self.old name.now) (IsErr result) (λ bytes. result ≡
            Ok (min (length into.old) (length bytes - at))) }
        ensures after { self.new ≡ (if is_ok result then after_read self.old else after_fault self.old file) }
    {
        let call = self.calls;
        self.calls = call.saturating_add(1);
        if !self.failing.as_slice().contains(&call) {
            if let Some(bytes) = file_at(self.files.as_slice(), name.as_bytes()) {
                return Ok(copy_piece(bytes, at, into));
            }
        }
        let place = file as usize;
        self.faults[place] = self.faults[place].saturating_add(1);
        Err(Failed)
    }
}

/// Files in memory that are always read, and under each other name an empty file.
#[derive(Drop)]
pub struct ShelfSure {
    /// The files.
    pub files: Files,
}

impl Shelf for ShelfSure {
    ghost use Rattle.outside.specs.ShelfMemory.{sure_bytes, sure_held};

    ghost held = { sure_held };

    fn piece(&mut self, _file: File, name: &str, at: u64, into: &mut [u8]) -> Result<usize, Failed>
        ensures stays { Stays (sure_held self.old) (sure_held self.new) }
        ensures others { OthersStay _file (sure_held self.old) (sure_held self.new) }
        ensures fits { IfOk result (λ n. n ≤ length into.old) }
        ensures took { IfOk result (λ n. IfSome ((sure_held self.old).told name.now)
            (λ bytes. Took bytes at n into.new)) }

        // It never fails, and stays as it is.
        ensures count { result ≡ Ok (min (length into.old) (length (sure_bytes self.old name.now) - at)) }
        ensures after { self.new ≡ self.old }
    {
        let bytes = file_at(self.files.as_slice(), name.as_bytes()).unwrap_or(&[]);
        Ok(copy_piece(bytes, at, into))
    }
}

/// A sink in memory: what was written, the most that it may hold, the calls that are to fail, the
/// most that one call takes, and the counts of faults and calls so far. The memory for all that it
/// may hold was taken when it was made.
#[derive(Drop)]
pub struct SinkMem {
    bytes: Vec<u8>,
    room: usize,
    failing: Vec<u64>,
    most: usize,
    faults: u64,
    calls: u64,
}

impl Model for SinkMem {
    ghost use Rattle.std.specs.Prelude.{◌≤◌, length};
    ghost use Rattle.std.specs.Vec.{vec_capacity};
    ghost use Rattle.outside.specs.SinkMemory.{Memory};

    ghost Value = { Memory };

    ghost view = { λ s. record {
      bytes = s.bytes.items;
      room = s.room;
      failing = s.failing.items;
      most = s.most;
      faults = s.faults;
      calls = s.calls;
    } };

    ghost invariant = { λ s. (1 ≤ s.most) × (length s.bytes.items ≤ s.room) × (s.room ≤ vec_capacity s.bytes) };
}

impl SinkMem {
    /// An empty sink with room for `room` bytes, that takes at most `most` of them in one call.
    pub fn new(
        alloc: Global,
        room: usize,
        most: usize,
        failing: Vec<u64>,
    ) -> Result<SinkMem, OutOfMemory>
        requires { 1 ≤ most }
        ensures { IfOk result (λ s. s ≡ record {
          bytes = [];
          room = room;
          failing = failing.items;
          most = most;
          faults = 0;
          calls = 0;
        }) }
    {
        let bytes = Vec::with_capacity(alloc, room)?;
        Ok(SinkMem {
            bytes,
            room,
            failing,
            most,
            faults: 0,
            calls: 0,
        })
    }

    /// What was written.
    pub fn bytes(&self) -> &[u8]
        ensures { result.now ≡ self.now.bytes }
    {
        self.bytes.as_slice()
    }

    /// The count of faults.
    pub fn faults(&self) -> u64
        ensures { result ≡ self.now.faults }
    {
        self.faults
    }

    /// The number of calls made.
    pub fn calls(&self) -> u64
        ensures { result ≡ self.now.calls }
    {
        self.calls
    }
}

impl Sink for SinkMem {
    ghost use Rattle.outside.specs.SinkMemory.{memory_sunk, put_fails, put_takes, after_put, after_fault};

    ghost sunk = { memory_sunk };

    fn put(&mut self, bytes: &[u8]) -> Result<usize, Failed>
        ensures fits { IfOk result (λ n. n ≤ length bytes.now) }
        ensures some { IfOk result (λ n. 0 < length bytes.now → 0 < n) }
        ensures took { IfOk result (λ n. Appends (memory_sunk self.old) (memory_sunk self.new) (take n bytes.now)) }
        ensures nothing { OnErr result ((memory_sunk self.new).told ≡ (memory_sunk self.old).told) }
        ensures failed { OnErr result (Rose (memory_sunk self.old).faults (memory_sunk self.new).faults) }
        ensures faults { (memory_sunk self.old).faults ≤ (memory_sunk self.new).faults }

        // It fails exactly where no room is left or the call is to fail, and takes what fits.
        ensures fails { is_ok result ≡ not (put_fails self.old) }
        ensures count { IfOk result (λ n. (n ≡ put_takes self.old bytes.now) ×
            (self.new ≡ after_put self.old bytes.now n)) }
        ensures err { OnErr result (self.new ≡ after_fault self.old) }
    {
        let call = self.calls;
        self.calls = call.saturating_add(1);
        let room = self.room - self.bytes.len();
        if room == 0 || self.failing.contains(&call) {
            self.faults = self.faults.saturating_add(1);
            return Err(Failed);
        }
        let n = bytes.len().min(self.most).min(room);
        if self.bytes.extend_from_slice(&bytes[..n]).is_err() {
            unreachable!()
        }
        Ok(n)
    }
}

/// A sink that takes all and keeps nothing.
#[derive(Clone, Copy, Debug)]
pub struct SinkSure;

impl Sink for SinkSure {
    ghost use Rattle.std.specs.Prelude.{None};

    ghost sunk = { λ _. record { told = None; faults = 0 } };

    fn put(&mut self, bytes: &[u8]) -> Result<usize, Failed>
        ensures { result ≡ Ok (length bytes.now) }
    {
        Ok(bytes.len())
    }
}

/// A gate that does nothing.
#[derive(Clone, Copy, Debug)]
pub struct GateFree;

impl Gate for GateFree {
    fn pass(&self, _seq: u32, _n: u64) {}
}
