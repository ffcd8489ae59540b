//! The law of what links lead to, for the crates that follow links.
ghost use Rattle.algo_check.specs.Linked.{EachLeads, AllLead};

/// Where every name is known, each link is the place of the definition that its line names: of line k of the
/// definition at place i, and of all that its body names.
pub fn links_lead_to_definitions()
    ensures each { EachLeads }
    ensures all { AllLead }
{}
