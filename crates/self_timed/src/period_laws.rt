//! What holds of the period of schedules on one operator.
ghost use Rattle.self_timed.specs.Period.{OneOperatorHasItsLengthAsPeriod};

/// Where all acts of a schedule run on one operator, the last half of its reactions takes as many times
/// the sum of their stated durations as there are reactions in it.
pub fn one_operator_has_its_length_as_period()
    ensures { OneOperatorHasItsLengthAsPeriod }
{}
