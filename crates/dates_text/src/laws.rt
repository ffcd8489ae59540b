//! The law of texts of actual durations, which the command `dates` cites.
ghost use Rattle.dates_text.specs.Within.{ActualAreWithin};

/// Where a schedule is valid for the stated durations, the ticks of every text that is accepted beside them
/// are one for each entry, and none is longer than stated. So `dates_text` may be called with them.
pub fn actual_are_within()
    ensures { ActualAreWithin }
{}
