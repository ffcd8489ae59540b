//! What holds of the loads of every valid schedule.
ghost use Rattle.lower_bound.specs.LoadLaws.{NoLineIsOverfull};

/// No operator and no medium of a valid schedule is busy for longer than the schedule lasts.
pub fn no_line_is_overfull()
    ensures { NoLineIsOverfull }
{}
