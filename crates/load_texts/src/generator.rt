//! The values of a load's sensor: a linear congruential generator.
ghost use Rattle.std.specs.Prelude.{◌≡◌};
ghost use Rattle.load_texts.specs.Table.{next_state, value_of};

/// The factor of a state.
const FACTOR: u64 = 6_364_136_223_846_793_005;
/// What is added to a state.
const INCREMENT: u64 = 1_442_695_040_888_963_407;
/// The low bits of a state, which a value leaves out.
const LOW: u64 = 1 << 40;

/// The generator, whose state a value follows from.
#[derive(Drop)]
pub struct Generator {
    pub state: u64,
}

impl Generator {
    /// The value of the next state, -500 to 499.
    pub fn next_value(&mut self) -> i64
        ensures state { self.new.state ≡ next_state self.old.state }
        ensures value { result ≡ value_of (next_state self.old.state) }
    {
        self.state = next(self.state);
        value(self.state)
    }
}

/// The state after this one.
fn next(state: u64) -> u64
    ensures { result ≡ next_state state }
{
    state.wrapping_mul(FACTOR).wrapping_add(INCREMENT)
}

/// The value of a state, from its upper bits.
fn value(state: u64) -> i64
    ensures { result ≡ value_of state }
{
    (state / LOW % 1000) as i64 - 500
}
