//! The core, whose sequences share cells and rows, and the theory, where each has its own, agree.

ghost use Rattle.phase_laws.specs.Agrees.{JobsAreFormed, StepsAreMatched, StepsAgree, RunsAgree, AgreementTells, ToldAgrees, LawsFollow};

/// Every job on a valid graph is what the laws of this module ask for.
pub fn jobs_are_formed()
    ensures { JobsAreFormed }
{}

/// Micro-step by micro-step the core's sequences are those of the theory, where what a load or a store
/// does beside is forgotten.
pub fn steps_are_matched()
    ensures { StepsAreMatched }
{}

/// A step of the core and the same step of the theory lead from states that agree to states that agree.
pub fn steps_agree()
    ensures { StepsAgree }
{}

/// After any list of sequence numbers the core's run and the theory's agree.
pub fn runs_agree()
    ensures { RunsAgree }
{}

/// The state of the theory tells the core's state that agrees with it.
pub fn agreement_tells()
    ensures { AgreementTells }
{}

/// What counts tell of the core and what they tell of the theory agree.
pub fn told_agrees()
    ensures { ToldAgrees }
{}

/// Where the system of a job is synchronized, and has the values that are told, the laws of every run of
/// the job hold.
pub fn laws_follow()
    ensures { LawsFollow }
{}
