//! The chances of the search, from a seed: the same seed gives the same ones.
use rand_core::Rng;
use rand_pcg::Pcg32;

/// A generator of chances.
#[derive(Drop)]
pub(crate) struct Chances {
    words: Pcg32,
}

impl Chances {
    /// Those of a seed.
    pub fn new(seed: u64) -> Chances {
        Chances {
            words: Pcg32::new(seed, 0),
        }
    }

    /// A number below this one, 0 where there is none.
    pub fn below(&mut self, bound: u32) -> u32 {
        let word = self.words.next_u32();
        if bound == 0 { 0 } else { word % bound }
    }

    /// Whether a chance of this many out of a hundred holds.
    pub fn holds(&mut self, hundredths: u32) -> bool {
        self.below(100) < hundredths
    }
}
