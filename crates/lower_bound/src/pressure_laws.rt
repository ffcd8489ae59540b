//! The law of the bound for the pressure run.
ghost use Rattle.lower_bound.specs.Runs.{NoRunIsShorter};

/// No pressure run is shorter than the bound, since it is a valid schedule.
#[tactic(auto, using(crate::proofs::Runs::no_run_is_shorter))]
pub fn no_run_is_shorter()
    ensures { NoRunIsShorter }
{}
