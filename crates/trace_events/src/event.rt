//! How lanes and slices are written. `act` and `chart` call it.
ghost use Rattle.std.specs.Prelude.{◌≡◌, ◌++◌, OnOk};
ghost use Rattle.trace_events.specs.Events.{event_text, lane_text, moment_text, name_text, place_text, rank_text, rest_of_slice, thread};

use crate::word::{Word, append_word};
use syn_base::{OutOfMemory, append, append_count};

/// When an act lasts, in ticks, and in which reaction.
#[derive(Clone, Copy)]
pub struct Moment {
    pub reaction: usize,
    pub start: u64,
    pub end: u64,
}

/// Where and when a value is read: the reaction, the date, the lane, and the operator on which it
/// stands.
#[derive(Clone, Copy)]
pub struct Reader {
    pub reaction: usize,
    pub date: u64,
    pub lane: usize,
    pub operator: u32,
}

/// Appends the name of a lane, which is a word and a name, and its rank.
pub fn append_lane(
    out: &mut Vec<u8>,
    number: usize,
    word: &[u8],
    name: &[u8],
) -> Result<(), OutOfMemory>
    ensures { OnOk result (out.new.items ≡ out.old.items ++
        event_text (thread number word.now name.now)) }
{
    append_lane_name(out, number, word, name)?;
    append_rank(out, number)
}

/// Appends the name of a lane.
fn append_lane_name(
    out: &mut Vec<u8>,
    number: usize,
    word: &[u8],
    name: &[u8],
) -> Result<(), OutOfMemory>
    ensures { OnOk result (out.new.items ≡ out.old.items ++ lane_text number word.now name.now) }
{
    append_word(out, Word::LaneName)?;
    append_place(out, number)?;
    append_name(out, word, name)
}

/// Appends a name after a word.
#[tactic(auto, unfolding(crate::specs::Events::name_text))]
fn append_name(out: &mut Vec<u8>, word: &[u8], name: &[u8]) -> Result<(), OutOfMemory>
    ensures { OnOk result (out.new.items ≡ out.old.items ++ name_text word.now name.now) }
{
    append_word(out, Word::Name)?;
    append(out, word)?;
    append_word(out, Word::Blank)?;
    append(out, name)?;
    append_word(out, Word::NameEnd)
}

/// Appends the rank of a lane, which is its number.
fn append_rank(out: &mut Vec<u8>, number: usize) -> Result<(), OutOfMemory>
    ensures { OnOk result (out.new.items ≡ out.old.items ++ rank_text number) }
{
    append_word(out, Word::Rank)?;
    append_place(out, number)?;
    append_word(out, Word::RankNumber)?;
    append_count(out, number)?;
    append_word(out, Word::End)
}

/// Appends what stands after the name of a slice: its category, when it lasts, its lane and its
/// reaction.
#[tactic(auto, unfolding(crate::specs::Events::rest_of_slice))]
pub fn append_slice_rest(
    out: &mut Vec<u8>,
    category: &[u8],
    number: usize,
    moment: Moment,
) -> Result<(), OutOfMemory>
    ensures { OnOk result (out.new.items ≡ out.old.items ++
        rest_of_slice category.now number moment) }
{
    append_word(out, Word::Category)?;
    append(out, category)?;
    append_moment(out, moment)?;
    append_place(out, number)?;
    append_word(out, Word::Reaction)?;
    append_count(out, moment.reaction)?;
    append_word(out, Word::End)
}

/// Appends when a slice starts, and how long it lasts.
#[tactic(auto, unfolding(crate::specs::Events::moment_text))]
fn append_moment(out: &mut Vec<u8>, moment: Moment) -> Result<(), OutOfMemory>
    ensures { OnOk result (out.new.items ≡ out.old.items ++ moment_text moment) }
{
    append_word(out, Word::Start)?;
    append_count(out, moment.start as usize)?;
    append_word(out, Word::Lasting)?;
    append_count(out, moment.end.saturating_sub(moment.start) as usize)
}

/// Appends the process and the lane of an event.
#[tactic(auto, unfolding(crate::specs::Events::place_text))]
pub fn append_place(out: &mut Vec<u8>, number: usize) -> Result<(), OutOfMemory>
    ensures { OnOk result (out.new.items ≡ out.old.items ++ place_text number) }
{
    append_word(out, Word::Place)?;
    append_count(out, number)
}
