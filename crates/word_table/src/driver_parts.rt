//! What a driver keeps: its seat on the table, the counts of its sequences, and what these have of their own.
ghost use Rattle.std.specs.Prelude.{◌≡◌, ◌<◌, ◌+◌, ◌^◌, length, slice_index_or, slice_set};

use word_rule::{Job, OwnParts, WordSeat};

/// What a `Driver` keeps, for the steps of `FabricParts`, whose contracts speak of the single fields.
#[derive(Drop)]
pub struct DriverParts<'a> {
    pub seat: WordSeat<'a>,
    pub job: &'a Job<'a>,
    /// It drives the sequences whose number leaves `group` when it is divided by `groups`.
    pub groups: u32,
    pub group: u32,
    /// How many micro-steps each sequence has made; of sequences that it does not drive, 0.
    pub counts: Vec<u64>,
    pub own: OwnParts,
}

/// Counts one more micro-step of a sequence.
pub fn count_up(counts: &mut Vec<u64>, seq: u32)
    requires { (seq < length counts.old.items) × (slice_index_or counts.old.items seq 0 + 1 < 2 ^ 64) }
    ensures { counts.new.items ≡ slice_set counts.old.items seq (slice_index_or counts.old.items seq 0 + 1) }
{
    counts[seq as usize] += 1;
}
