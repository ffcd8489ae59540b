//! Where a sequence is in its loop, kept beside its count, so that its next micro-step is found without a division.
ghost use Rattle.std.specs.Prelude.{◌≡◌, ◌<◌, ◌/◌, ◌%◌, true, slice_get};
ghost use Rattle.executive_program.specs.Sites.{reaction_at};
ghost use Rattle.executive_program.specs.Expanded.{code_of, next_in};

use executive_program::{MicroStep, SeqSteps};

/// The place of a sequence's next micro-step in its loop, and the reaction of that. It is a guess: each use
/// compares it with the count, and divides where it is wrong.
#[derive(Clone, Copy, Debug)]
pub struct LoopPlace {
    place: usize,
    reaction: u64,
}

/// The next micro-step of a sequence, where it has one, and its reaction.
#[derive(Clone, Copy, Drop)]
pub struct Due {
    pub step: Option<MicroStep>,
    pub reaction: u64,
}

/// Where a sequence is in its loop, as it was kept.
pub fn place_of(places: &[LoopPlace], seq: u32) -> LoopPlace {
    let kept = places.get(seq as usize).copied();
    kept.unwrap_or(LoopPlace::FIRST)
}

/// Keeps where a sequence is in its loop.
pub fn keep_place(places: &mut Vec<LoopPlace>, seq: u32, place: LoopPlace) {
    if let Some(kept) = places.get_mut(seq as usize) {
        *kept = place;
    }
}

/// The micro-step at a place, if there is one.
fn step_at(steps: &[MicroStep], place: usize) -> Option<MicroStep>
    ensures { result ≡ slice_get steps.now place }
{
    steps.get(place).copied()
}

impl LoopPlace {
    /// At the first micro-step of the first reaction.
    pub const FIRST: LoopPlace = LoopPlace {
        place: 0,
        reaction: 0,
    };

    /// Whether a loop of this length is here after as many of its micro-steps.
    fn is_after(self, made: u64, length: usize) -> bool
        ensures { result ≡ true → (self.place ≡ made % length) × (self.reaction ≡ made / length) }
    {
        self.place < length
            && self.reaction as u128 * length as u128 + self.place as u128 == made as u128
    }

    /// Where a loop of this length is after as many of its micro-steps.
    fn after(self, made: u64, length: usize) -> LoopPlace
        requires { 0 < length }
        ensures place { result.place ≡ made % length }
        ensures reaction { result.reaction ≡ made / length }
    {
        if self.is_after(made, length) {
            return self;
        }
        LoopPlace {
            place: (made % length as u64) as usize,
            reaction: made / length as u64,
        }
    }

    /// The next micro-step of a sequence that has made `count` of them. Its place is kept.
    pub fn due(&mut self, code: &SeqSteps, reactions: u64, count: u64) -> Due
        ensures step { result.step ≡ next_in reactions code.now count }
        ensures reaction { result.reaction ≡ reaction_at (code_of code.now) count }
    {
        let prologue = code.prologue.as_slice();
        let turn = code.turn.as_slice();
        if count < prologue.len() as u64 {
            return Due {
                step: step_at(prologue, count as usize),
                reaction: 0,
            };
        }
        if turn.is_empty() {
            return Due {
                step: None,
                reaction: 0,
            };
        }
        let here = self.after(count - prologue.len() as u64, turn.len());
        *self = here;
        let LoopPlace { place, reaction } = here;
        let step = if reaction < reactions {
            step_at(turn, place)
        } else {
            None
        };
        Due { step, reaction }
    }

    /// Goes on to the place after the micro-step that was due after `count` of them.
    pub fn go_on(&mut self, code: &SeqSteps, count: u64) {
        if count < code.prologue.as_slice().len() as u64 {
            return;
        }
        self.place = self.place.wrapping_add(1);
        if self.place >= code.turn.as_slice().len() {
            *self = LoopPlace {
                place: 0,
                reaction: self.reaction.wrapping_add(1),
            };
        }
    }
}
