//! Gates that show which steps are asked for, by which threads, and in what order. Tests of runs hold them, and the
//! script of `worked_rows` names them.
use outside::Gate;
use std::hint;
use std::sync::atomic::{AtomicU64, Ordering};

/// After this many turns of waiting a gate gives up.
const TURNS: u32 = 50_000_000;

/// Waits until the word is at least this, and says whether it was.
fn waits(word: &AtomicU64, least: u64) -> bool {
    for _ in 0..TURNS {
        if word.load(Ordering::SeqCst) >= least {
            return true;
        }
        hint::spin_loop();
    }
    false
}

/// How many sequences a meeting has at most.
const MOST: usize = 8;

/// Before their first steps the first sequences wait until all of them have come, as many as are to meet. So
/// where one thread drives two of them, the one that is asked for first waits in vain.
#[derive(Drop)]
pub struct Meeting {
    sequences: usize,
    marks: [AtomicU64; MOST],
    given_up: AtomicU64,
}

impl Meeting {
    /// A gate at which this many sequences are to meet, eight at most, and none has come.
    pub fn of(sequences: usize) -> Meeting {
        Meeting {
            sequences: sequences.min(MOST),
            marks: [
                AtomicU64::new(0),
                AtomicU64::new(0),
                AtomicU64::new(0),
                AtomicU64::new(0),
                AtomicU64::new(0),
                AtomicU64::new(0),
                AtomicU64::new(0),
                AtomicU64::new(0),
            ],
            given_up: AtomicU64::new(0),
        }
    }

    /// How many of the sequences have come.
    pub fn came(&self) -> u64 {
        let mut came = 0u64;
        for mark in &self.marks {
            came = came.saturating_add(mark.load(Ordering::SeqCst));
        }
        came
    }

    /// How often a sequence waited in vain.
    pub fn given_up(&self) -> u64 {
        self.given_up.load(Ordering::SeqCst)
    }

    /// Waits until all have come, and says whether they have.
    fn waits_for_all(&self) -> bool {
        for place in 0..self.sequences.min(MOST) {
            if !waits(&self.marks[place], 1) {
                return false;
            }
        }
        true
    }
}

impl Gate for Meeting {
    fn pass(&self, seq: u32, n: u64) {
        let place = seq as usize;
        if place >= self.sequences.min(MOST) || n > 0 {
            return;
        }
        self.marks[place].store(1, Ordering::SeqCst);
        if !self.waits_for_all() {
            self.given_up.fetch_add(1, Ordering::SeqCst);
        }
    }
}

/// Counts the steps of each of four sequences that it is asked for, and those that come out of turn.
#[derive(Drop)]
pub struct Counting {
    asked: [AtomicU64; 4],
    out_of_turn: AtomicU64,
}

impl Counting {
    /// A gate that has counted no step.
    pub fn new() -> Counting {
        Counting {
            asked: [
                AtomicU64::new(0),
                AtomicU64::new(0),
                AtomicU64::new(0),
                AtomicU64::new(0),
            ],
            out_of_turn: AtomicU64::new(0),
        }
    }

    /// How many steps of each sequence it was asked for.
    pub fn asked(&self) -> [u64; 4] {
        [
            self.asked[0].load(Ordering::SeqCst),
            self.asked[1].load(Ordering::SeqCst),
            self.asked[2].load(Ordering::SeqCst),
            self.asked[3].load(Ordering::SeqCst),
        ]
    }

    /// How often a step was not the one after the last step of its sequence.
    pub fn out_of_turn(&self) -> u64 {
        self.out_of_turn.load(Ordering::SeqCst)
    }
}

impl Gate for Counting {
    fn pass(&self, seq: u32, n: u64) {
        let before = match self.asked.get(seq as usize) {
            Some(asked) => asked.fetch_add(1, Ordering::SeqCst),
            None => u64::MAX,
        };
        if before != n {
            self.out_of_turn.fetch_add(1, Ordering::SeqCst);
        }
    }
}

/// Holds sequence 1 before its step 1 until sequence 0 was asked for its step 6.
#[derive(Drop)]
pub struct Holding {
    /// The last step of sequence 0 that was asked for, and what it was when sequence 1 was let go.
    first: AtomicU64,
    at_release: AtomicU64,
}

impl Holding {
    /// A gate that holds sequence 1 and has been asked for no step.
    pub fn new() -> Holding {
        Holding {
            first: AtomicU64::new(0),
            at_release: AtomicU64::new(0),
        }
    }

    /// The last step of sequence 0 that was asked for when sequence 1 was let go; 0 where that did not come.
    pub fn at_release(&self) -> u64 {
        self.at_release.load(Ordering::SeqCst)
    }
}

impl Gate for Holding {
    fn pass(&self, seq: u32, n: u64) {
        if seq == 0 {
            self.first.store(n, Ordering::SeqCst);
        }
        if seq == 1 && n == 1 && waits(&self.first, 6) {
            let last = self.first.load(Ordering::SeqCst);
            self.at_release.store(last, Ordering::SeqCst);
        }
    }
}
