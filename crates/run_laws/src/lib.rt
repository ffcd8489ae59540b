//! Laws of a run in windows: the first reaction of each window, the jobs and the lines of the
//! windows, and which counts of steps they leave.
//!
//! Each law is the contract of a function that does nothing. That the windows make the run is a law of `phase_laws`.
//! The plans of the commands that run jobs stand on this crate, and so does the loop that runs and writes windows.
#![tactic(auto)]

ghost use Rattle.run_laws.specs.Drives.{LastIsKept, NumbersRise};
ghost use Rattle.run_laws.specs.Windows.{WindowsAreFull, WindowsAreShort, WindowsTellTheRun};

/// The lines of the windows, one after another, are those of the run.
pub fn windows_tell_the_run()
    ensures { WindowsTellTheRun }
{}

/// No window begins after the last reaction, and each but the last is full.
pub fn windows_are_full()
    ensures { WindowsAreFull }
{}

/// No window has more than 256 reactions, and none ends after the last.
pub fn windows_are_short()
    ensures { WindowsAreShort }
{}

/// The number of what is driven rises by the sum over the jobs that are run to their ends, up to its last
/// value.
pub fn numbers_rise()
    ensures { NumbersRise }
{}

/// Its counts and words are those of the last of the jobs.
pub fn last_is_kept()
    ensures { LastIsKept }
{}
