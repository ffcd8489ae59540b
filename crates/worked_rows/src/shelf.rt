//! The shelf of a call, which gives all that it is asked for, or byte by byte. `call` reads from it.
use worked_parts::{Failed, File, Shelf, ShelfMem};

/// How much a call on a shelf gives at most.
#[derive(Clone, Copy, Debug, PartialEq, Eq)]
pub enum Pace {
    /// As many bytes as it is asked for.
    Whole,
    /// One byte.
    ByBytes,
}

/// Files in memory, which are given at this pace.
#[derive(Drop)]
pub struct PacedShelf {
    pub files: ShelfMem,
    pub pace: Pace,
}

impl Shelf for PacedShelf {
    ghost use Rattle.worked_parts.specs.ShelfMemory.{memory_held};

    ghost held = { λ s. memory_held s.files };

    fn piece(&mut self, file: File, name: &str, at: u64, into: &mut [u8]) -> Result<usize, Failed> {
        match self.pace {
            Pace::Whole => self.files.piece(file, name, at, into),
            Pace::ByBytes => {
                let room = into.len().min(1);
                self.files.piece(file, name, at, &mut into[..room])
            }
        }
    }
}
