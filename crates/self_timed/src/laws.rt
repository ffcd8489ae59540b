//! The laws of the dates, each the contract of a function that does nothing.
ghost use Rattle.self_timed.specs.Laws.{BuffersHaveDepth, DatesAreOne, EntriesAreActs, EntriesEndInTime, FirstReactionIsStated, LinesAreInOrder, NoLaterThanStated};

/// The equations of the dates have exactly one solution, for any acts, any durations, and buffers of
/// at least one place.
pub fn dates_are_one()
    ensures { DatesAreOne }
{}

/// Where nothing lasts longer than stated, each act of reaction k ends no later than k times the
/// schedule's length and its end there. It holds of operations and of transfers.
pub fn no_later_than_stated()
    ensures { NoLaterThanStated }
{}

/// Where each act lasts as stated in the first reaction, that reaction has the schedule's dates exactly
/// where the schedule is tight.
pub fn first_reaction_is_stated()
    ensures { FirstReactionIsStated }
{}

/// Each entry, operations by number and then transfers in their order, is that of one act.
pub fn entries_are_acts()
    ensures { EntriesAreActs }
{}

/// The buffer of what another sequence reads has as many places as the dates count with.
pub fn buffers_have_depth()
    ensures { BuffersHaveDepth }
{}

/// Acts on one operator, or over one medium, never overlap, in one reaction and from one to the next.
pub fn lines_are_in_order()
    ensures { LinesAreInOrder }
{}

/// Of ticks by entry: no act ends later than stated, and a first reaction that is as stated is the
/// chart, where the schedule is tight.
pub fn entries_end_in_time()
    ensures { EntriesEndInTime }
{}
