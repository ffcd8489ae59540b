//! The real outside world: files, standard output, standard error and the words of the command line. The
//! contracts of files and outputs do not tell what they hold, and each counts its failed calls.
//!
//! Nothing here is proved beyond that: what a file gives and what a terminal takes is trusted. `main` makes
//! a `FileShelf`, a `StdSink` and an `ErrSink`, and hands them to the program.
#![tactic(auto)]

ghost use Rattle.std.specs.Prelude.{◌≡◌, ◌≤◌, length, replicate, IfSome};

use outside::{Failed, File, Shelf, Sink};
use std::io::{Read, Write};
use std::os::unix::fs::FileExt;
use std::{env, fs, io};

/// The words of the command line; none where one of them is no text.
pub fn words_of(rt: &HostRuntime) -> io::Result<Vec<String>> {
    match env::args(rt) {
        Ok(words) => Ok(words.collect(rt.alloc())?),
        Err(error) if error.kind() == io::ErrorKind::InvalidData => Ok(Vec::new(rt.alloc())),
        Err(error) => Err(error),
    }
}

/// A file that cannot be read at a place, as a pipe or a terminal: it stays open and is read on.
#[derive(Drop)]
struct Stream {
    name: String,
    /// How many bytes of it were read.
    at: u64,
    open: fs::File,
}

impl Stream {
    /// Whether the bytes from this place on of the file with this name are the next ones.
    fn goes_on(&self, name: &str, at: u64) -> bool {
        self.at == at && self.name.as_str() == name
    }

    /// Reads its next bytes, and returns how many.
    fn read(&mut self, into: &mut [u8]) -> Option<usize>
        ensures { IfSome result (λ n. n ≤ length into.old) }
    {
        let n = self.open.read(into).ok()?;
        self.at = self.at.saturating_add(n as u64);
        Some(n)
    }
}

/// Files where they lie. Each call opens the file that it names, so that what it reads depends on no call
/// before it. Only a file that cannot be read at a place, as a pipe, is kept open from its first piece on, and
/// each call that asks for the bytes after the last ones reads on from there: one such file at a time.
#[derive(Drop)]
pub struct FileShelf<'r> {
    rt: &'r HostRuntime,
    faults: [u64; 5],
    stream: Option<Stream>,
}

impl<'r> FileShelf<'r> {
    /// A shelf over the files that the runtime reaches, without a fault so far.
    pub fn new(rt: &'r HostRuntime) -> FileShelf<'r>
        ensures { result.faults ≡ replicate 5 0 }
    {
        FileShelf {
            rt,
            faults: [0; 5],
            stream: None,
        }
    }

    /// Reads bytes of a file from a place on, and returns how many: none where the file cannot be opened or read.
    fn read(&mut self, name: &str, at: u64, into: &mut [u8]) -> Option<usize>
        ensures read { IfSome result (λ n. n ≤ length into.old) }
        ensures faults { self.new.faults ≡ self.old.faults }
    {
        if let Some(stream) = &mut self.stream {
            if stream.goes_on(name, at) {
                return stream.read(into);
            }
        }
        let open = fs::open(self.rt, name).ok()?;
        match open.read_at(into, at) {
            Ok(n) => Some(n),
            Err(_) if at == 0 => self.begin(name, open, into),
            Err(_) => None,
        }
    }

    /// Reads the first bytes of a file that cannot be read at a place, and keeps it open.
    fn begin(&mut self, name: &str, open: fs::File, into: &mut [u8]) -> Option<usize>
        ensures read { IfSome result (λ n. n ≤ length into.old) }
        ensures faults { self.new.faults ≡ self.old.faults }
    {
        let name = String::from_str(self.rt.alloc(), name).ok()?;
        let mut stream = Stream { name, at: 0, open };
        let n = stream.read(into)?;
        self.stream = Some(stream);
        Some(n)
    }
}

impl Shelf for FileShelf<'_> {
    ghost use Rattle.std.specs.Prelude.{None};
    ghost use Rattle.outside.specs.ShelfMemory.{faults_of};

    ghost held = { λ s. record { told = λ name. None; faults = faults_of s.faults } };

    fn piece(&mut self, file: File, name: &str, at: u64, into: &mut [u8]) -> Result<usize, Failed> {
        match self.read(name, at, into) {
            Some(n) => Ok(n),
            None => {
                let place = file as usize;
                self.faults[place] = self.faults[place].saturating_add(1);
                Err(Failed)
            }
        }
    }
}

/// Standard output.
#[derive(Drop)]
pub struct StdSink<'r> {
    rt: &'r HostRuntime,
    faults: u64,
}

impl<'r> StdSink<'r> {
    /// The runtime's standard output, without a fault so far.
    pub fn new(rt: &'r HostRuntime) -> StdSink<'r>
        ensures { result.faults ≡ 0 }
    {
        StdSink { rt, faults: 0 }
    }
}

impl Sink for StdSink<'_> {
    ghost use Rattle.std.specs.Prelude.{None};

    ghost sunk = { λ s. record { told = None; faults = s.faults } };

    fn put(&mut self, bytes: &[u8]) -> Result<usize, Failed> {
        match self.rt.stdout().write(bytes) {
            Ok(n) if n > 0 || bytes.is_empty() => Ok(n),
            _ => {
                self.faults = self.faults.saturating_add(1);
                Err(Failed)
            }
        }
    }
}

/// Standard error.
#[derive(Drop)]
pub struct ErrSink<'r> {
    rt: &'r HostRuntime,
    faults: u64,
}

impl<'r> ErrSink<'r> {
    /// The runtime's standard error, without a fault so far.
    pub fn new(rt: &'r HostRuntime) -> ErrSink<'r>
        ensures { result.faults ≡ 0 }
    {
        ErrSink { rt, faults: 0 }
    }
}

impl Sink for ErrSink<'_> {
    ghost use Rattle.std.specs.Prelude.{None};

    ghost sunk = { λ s. record { told = None; faults = s.faults } };

    fn put(&mut self, bytes: &[u8]) -> Result<usize, Failed> {
        match self.rt.stderr().write(bytes) {
            Ok(n) if n > 0 || bytes.is_empty() => Ok(n),
            _ => {
                self.faults = self.faults.saturating_add(1);
                Err(Failed)
            }
        }
    }
}

#[cfg(test)]
mod tests {
    use super::*;
    use outside::{read_whole, write_whole};
    use std::test::Fail;

    #[test]
    fn reads_a_file_and_counts_an_absent_one(rt: HostRuntime) -> Result<(), Fail> {
        fs::write(&rt, "words.txt", "algorithm 1\n")?;
        let mut shelf = FileShelf::new(&rt);
        let bytes = read_whole(rt.alloc(), &mut shelf, File::Algorithm, "words.txt")?;
        fs::remove_file(&rt, "words.txt")?;
        assert_eq!(rt; bytes.as_slice(), b"algorithm 1\n".as_slice());
        assert!(rt; read_whole(rt.alloc(), &mut shelf, File::Sensors, "absent.txt").is_err());
        assert_eq!(rt; shelf.faults.as_slice(), [0, 0, 1, 0, 0].as_slice());
        Ok(())
    }

    #[test]
    fn answers_the_piece_that_it_is_asked_for(rt: HostRuntime) -> Result<(), Fail> {
        fs::write(&rt, "first.txt", "abcdef")?;
        fs::write(&rt, "second.txt", "uvwxyz")?;
        let mut shelf = FileShelf::new(&rt);
        let mut piece = [0; 2];
        assert_eq!(rt;
            shelf.piece(File::Algorithm, "first.txt", 0, &mut piece),
            Ok(2)
        );
        assert_eq!(rt; piece.as_slice(), b"ab".as_slice());
        assert_eq!(rt;
            shelf.piece(File::Sensors, "second.txt", 3, &mut piece),
            Ok(2)
        );
        assert_eq!(rt; piece.as_slice(), b"xy".as_slice());
        assert_eq!(rt;
            shelf.piece(File::Algorithm, "first.txt", 4, &mut piece),
            Ok(2)
        );
        assert_eq!(rt; piece.as_slice(), b"ef".as_slice());
        fs::remove_file(&rt, "first.txt")?;
        fs::remove_file(&rt, "second.txt")?;
        Ok(())
    }

    #[test]
    fn writes_to_standard_output(rt: HostRuntime) -> Result<(), Fail> {
        let mut out = StdSink::new(&rt);
        write_whole(&mut out, b"to standard output\n")?;
        assert_eq!(rt; out.faults, 0);
        Ok(())
    }

    #[test]
    fn writes_to_standard_error(rt: HostRuntime) -> Result<(), Fail> {
        let mut err = ErrSink::new(&rt);
        write_whole(&mut err, b"to standard error\n")?;
        assert_eq!(rt; err.faults, 0);
        Ok(())
    }
}
