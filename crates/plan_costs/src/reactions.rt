//! Reactions of a plan's acts one after another, where each act starts as soon as it may: when the act
//! before it in its line and those that make what it reads have ended, and when its buffers are empty.
use crate::acts::{Acts, LINES};
use crate::numbers::{NOBODY, date_at, number_at, put_date, put_number};
use std::alloc::Global;
use syn_base::OutOfMemory;

/// How many reactions are run.
const REACTIONS: u32 = 10;

/// How many of them are run before their time is taken.
const FIRST: u32 = 4;

/// How much the time of the later reactions counts beside that of the first ones.
const WEIGHT: u64 = 8;

/// When a value is there or a line is free, and which act made it so late.
#[derive(Clone, Copy)]
struct Cause {
    date: u64,
    act: u32,
}

/// What was done so far.
#[derive(Drop)]
pub(crate) struct Reactions {
    /// How many places a buffer has.
    depth: u32,
    /// By act its end in its last reaction, and the act that made it start so late, or `NOBODY`.
    ends: Vec<u64>,
    causes: Vec<u32>,
    /// By place of a buffer and act, when what the act made there has been read, and the act that read it last.
    freed: Vec<u64>,
    freers: Vec<u32>,
    /// By line the last end, and the act that ended then.
    busy: [u64; LINES],
    last: [u32; LINES],
}

impl Reactions {
    /// Nothing was done so far. There is room for this many acts.
    pub fn new(alloc: Global, most: usize, depth: u32) -> Result<Reactions, OutOfMemory> {
        let places = most.saturating_mul(depth as usize);
        Ok(Reactions {
            depth: depth.max(1),
            ends: vec![in alloc; 0; most]?,
            causes: vec![in alloc; NOBODY; most]?,
            freed: vec![in alloc; 0; places]?,
            freers: vec![in alloc; NOBODY; places]?,
            busy: [0; LINES],
            last: [NOBODY; LINES],
        })
    }

    /// Runs these acts from nothing. Returns what the time from one reaction to the next costs, and with
    /// less weight that of the first reactions.
    pub fn follow(&mut self, acts: &Acts) -> u64 {
        self.clear(acts);
        self.run(acts, 0, FIRST);
        let first = self.done();
        self.run(acts, FIRST, REACTIONS);
        let later = self.done().saturating_sub(first);
        later.saturating_mul(WEIGHT).saturating_add(first)
    }

    /// Nothing was done.
    fn clear(&mut self, acts: &Acts) {
        let places = acts.count.saturating_mul(self.depth);
        for place in 0..places {
            put_date(self.freed.as_mut_slice(), place, 0);
        }
        self.busy = [0; LINES];
        self.last = [NOBODY; LINES];
    }

    /// When all is done.
    fn done(&self) -> u64 {
        let mut latest = 0;
        for end in &self.busy {
            latest = latest.max(*end);
        }
        latest
    }

    /// The act that ends last in the last reaction, or `NOBODY`.
    pub fn last_act(&self) -> u32 {
        let done = self.done();
        let mut act = NOBODY;
        for line in 0..32 {
            if date_at(&self.busy, line) == done {
                act = number_at(&self.last, line);
            }
        }
        act
    }

    /// The act that made this one start so late, or `NOBODY`.
    pub fn cause(&self, act: u32) -> u32 {
        number_at(self.causes.as_slice(), act)
    }

    /// Runs some reactions after those before them.
    fn run(&mut self, acts: &Acts, from: u32, to: u32) {
        for reaction in from..to {
            let place = (reaction % self.depth.max(1)).saturating_mul(acts.count);
            for act in 0..acts.count {
                self.act(acts, act, place.saturating_add(act));
            }
        }
    }

    /// Runs an act, whose buffers have this place.
    fn act(&mut self, acts: &Acts, act: u32, place: u32) {
        let line = acts.line(act);
        let mut start = self.free(line, place);
        for source in acts.first(act)..acts.first(act.saturating_add(1)) {
            start = later(start, self.made(acts.source(source)));
        }
        let end = start.date.saturating_add(acts.ticks(act));
        put_date(self.ends.as_mut_slice(), act, end);
        put_number(self.causes.as_mut_slice(), act, start.act);
        put_date(&mut self.busy, line, end);
        put_number(&mut self.last, line, act);
        let base = place.saturating_sub(act);
        for source in acts.first(act)..acts.first(act.saturating_add(1)) {
            self.note_read(base.saturating_add(acts.source(source)), act, end);
        }
    }

    /// When a line is free, and the buffers at this place are empty.
    fn free(&mut self, line: u32, place: u32) -> Cause {
        let before = Cause {
            date: date_at(&self.busy, line),
            act: number_at(&self.last, line),
        };
        let read = Cause {
            date: date_at(self.freed.as_slice(), place),
            act: number_at(self.freers.as_slice(), place),
        };
        put_date(self.freed.as_mut_slice(), place, 0);
        later(before, read)
    }

    /// When an act has made what it makes in this reaction.
    fn made(&self, act: u32) -> Cause {
        Cause {
            date: date_at(self.ends.as_slice(), act),
            act,
        }
    }

    /// An act that ends then has read what stands at this place of a buffer.
    fn note_read(&mut self, place: u32, act: u32, end: u64) {
        if end > date_at(self.freed.as_slice(), place) {
            put_date(self.freed.as_mut_slice(), place, end);
            put_number(self.freers.as_mut_slice(), place, act);
        }
    }
}

/// The later of two, the first where both come at once.
fn later(one: Cause, other: Cause) -> Cause {
    if one.date < other.date { other } else { one }
}
