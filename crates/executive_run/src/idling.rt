//! How a worker waits that finds nothing to do, for `Crew::work`.
use crossbeam_utils::Backoff;
use std::sync::Wait;
use std::sync::atomic::{AtomicU64, Ordering};
use std::time::Duration;

/// After this many rounds without a step, one after another, a worker sleeps.
const PATIENCE: u32 = 4;

/// For how many microseconds it sleeps at first, and at most.
const SHORTEST: u64 = 100;

const LONGEST: u64 = 1_600;

/// What a worker has waited since its last step, and for how long it sleeps next. A worker that looks at all groups
/// again and again takes them from those that have steps to make, so one that finds nothing sleeps, each time for
/// twice as long. Others drive the groups meanwhile, and it looks again when it wakes: nobody needs to wake it.
#[derive(Drop)]
pub struct Idling {
    backoff: Backoff,
    rounds: u32,
    micros: u64,
}

impl Idling {
    /// When nothing was waited.
    pub fn new() -> Idling {
        Idling {
            backoff: Backoff::new(),
            rounds: 0,
            micros: SHORTEST,
        }
    }

    /// After a round with a step. What was spun is not forgotten: where there are more workers than processors, each
    /// soon yields at once when it cannot go on, and one that can is not kept waiting by others that spin.
    pub fn end(&mut self) {
        self.rounds = 0;
        self.micros = SHORTEST;
    }

    /// Waits after a round without a step, unless a group was finished or until all are.
    pub fn wait<R: Wait>(&mut self, rt: &R, unfinished: &AtomicU64) {
        if self.rounds < PATIENCE {
            self.rounds += 1;
            self.backoff.snooze();
        } else {
            let groups = unfinished.load(Ordering::SeqCst).min(u64::from(u32::MAX)) as u32;
            unfinished.park_timeout(rt, groups, Duration::from_micros(self.micros));
            self.micros = self.micros.saturating_mul(2).min(LONGEST);
        }
    }
}
