//! Laws of checking macro-code from any source: which conditions on a program do not depend on
//! the order in which its sequences take turns, and why a single run finds a serial order or
//! shows that there is none.
//!
//! What is asked comes in the order in which a program is refused for it. The functions do nothing: their contracts
//! are the laws. `macro_check`, which checks programs, stands on them.
#![tactic(auto)]

ghost use Rattle.check_laws.specs.Laws.{CauseIsExact, NoCauseIsWellFormed, OrderIsFound, RunIsOrder, RunsAreOrders, RunsStopAlike, WellFormedHasItems};

/// Where nothing that is asked is missing and the run comes to every end, it is a serial order.
pub fn run_is_order()
    ensures { RunIsOrder }
{}

/// Where there is a serial order, the run comes to every end.
pub fn order_is_found()
    ensures { OrderIsFound }
{}

/// A well-formed program has all that is asked whatever the order.
pub fn well_formed_has_items()
    ensures { WellFormedHasItems }
{}

/// The first cause of a program says what is missing, and that nothing before it is.
pub fn cause_is_exact()
    ensures { CauseIsExact }
{}

/// Exactly the well-formed programs have no cause.
pub fn no_cause_is_well_formed()
    ensures { NoCauseIsWellFormed }
{}

/// A run by any choice that comes to every end is a serial order.
pub fn runs_are_orders()
    ensures { RunsAreOrders }
{}

/// Where a run stops does not depend on which ready sequence it takes.
pub fn runs_stop_alike()
    ensures { RunsStopAlike }
{}
