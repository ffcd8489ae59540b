//! The laws of traces of charts.
ghost use Rattle.trace_events.specs.Shown.{EachActOnce, OneAfterAnother};

/// A trace has one complete event for each operation and each transfer, in their order, which lasts
/// when the chart says.
pub fn each_act_is_shown_once()
    ensures { EachActOnce }
{}

/// The complete events of a lane do not overlap, where the schedule is valid.
pub fn lanes_do_not_overlap()
    ensures { OneAfterAnother }
{}
