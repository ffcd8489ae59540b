//! The texts that go down the pipeline.

/// Two operators on a bus; the sensor stands on the first one alone.
pub const ARCHITECTURE: &[u8] = b"architecture 1
operator P
operator Q
medium bus p2p 1 1
connect bus P
connect bus Q
duration Sense P 1
duration F P 10
duration F Q 10
duration Act P 1
duration Act Q 1
";
