//! The laws of rates, each the contract of a function that does nothing.
ghost use Rattle.rates.specs.Laws.{ArcsAreNeeds, ChartIsSustained, ClockKeepsOrder, CriticalCyclesAreExact, CycleIsTested, CyclesTakeReactions, EveryRateIsSustainedOrExceeded, ExactRatesAreOne, NoExecutiveIsFaster, NoRateIsBelowACycle, RatesAreSustained, SomeRateIsExact, SustainedIsTested, SustainsIsOfNeeds, TablesAreTested};

/// The acts to which the arcs of an act lead from a reaction are all that must precede it there.
pub fn arcs_are_needs()
    ensures { ArcsAreNeeds }
{}

/// Offsets fit all arcs exactly if in each reaction they fit each act after all that must precede
/// it.
pub fn sustains_is_of_needs()
    ensures { SustainsIsOfNeeds }
{}

/// If offsets fit and nothing lasts longer than they count with, so many reactions end in so many
/// ticks, for ever: act i of reaction k no later than k times the ticks and its offset.
pub fn rates_are_sustained()
    ensures { RatesAreSustained }
{}

/// The chart, repeated, is such a rate: one reaction in each length of the schedule, with the end
/// of each act as its offset.
pub fn chart_is_sustained()
    ensures { ChartIsSustained }
{}

/// In every executive that keeps the order, a turn of a cycle takes at least as long as all its
/// acts together.
pub fn no_executive_is_faster()
    ensures { NoExecutiveIsFaster }
{}

/// No offsets fit a rate that is faster than a cycle.
pub fn no_rate_is_below_a_cycle()
    ensures { NoRateIsBelowACycle }
{}

/// If offsets fit the rate of a cycle, that rate is exact: in no reaction does the first act of the
/// cycle end earlier or later than it says, but for the offset and less than one turn.
pub fn critical_cycles_are_exact()
    ensures { CriticalCyclesAreExact }
{}

/// Each cycle leads over at least one reaction.
pub fn cycles_take_reactions()
    ensures { CyclesTakeReactions }
{}

/// Whether offsets fit is a test of finitely many sums.
pub fn sustained_is_tested()
    ensures { SustainedIsTested }
{}

/// Whether acts are a cycle, and a critical one, is a test of the arcs of each.
pub fn cycle_is_tested()
    ensures { CycleIsTested }
{}

/// If offsets fit, an executive by the clock with these offsets keeps the order.
pub fn clock_keeps_order()
    ensures { ClockKeepsOrder }
{}

/// Every rate is sustained, or exceeded by a cycle: longest ways end if no cycle is over the rate.
pub fn every_rate_is_sustained_or_exceeded()
    ensures { EveryRateIsSustainedOrExceeded }
{}

/// Some rate is exact, so a rate that is sustained and a cycle that is critical for it can always
/// be found.
pub fn some_rate_is_exact()
    ensures { SomeRateIsExact }
{}

/// There is one exact rate.
pub fn exact_rates_are_one()
    ensures { ExactRatesAreOne }
{}

/// Over a table of the acts, the tests of offsets and of a critical cycle are those of the acts.
pub fn tables_are_tested()
    ensures { TablesAreTested }
{}
