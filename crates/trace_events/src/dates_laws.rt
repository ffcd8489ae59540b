//! The laws of traces of dates.
ghost use Rattle.trace_events.specs.DatesShown.{DatesOneAfterAnother, EachDateOnce};

/// A trace of dates has one complete event for each operation and each transfer of each reaction,
/// in their order, which lasts when the dates say.
pub fn each_date_is_shown_once()
    ensures { EachDateOnce }
{}

/// The complete events of a lane do not overlap, in one reaction and from one to a later one, where
/// the schedule is valid.
pub fn dates_do_not_overlap()
    ensures { DatesOneAfterAnother }
{}
