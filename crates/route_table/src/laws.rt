//! The law of the least routes, by which a schedule over the routes that were found is the schedule
//! that is defined.
ghost use Rattle.route_table.specs.Computed.{RoutesAreLeast};

/// The computed routes are the least ones of their architecture, so that whatever is chosen over them is
/// chosen over the table that `routes_of` makes. The definitions of the schedules that a command makes cite it.
pub fn routes_are_least()
    ensures { RoutesAreLeast }
{}
