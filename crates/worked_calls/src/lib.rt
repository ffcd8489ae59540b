//! Tests of calls where no transcript of the program shows what they return: of numbers, references, loads,
//! shelves, routes and their levels, of the exact checks of flat graphs, architectures and schedules that are made
//! by hand, and of the pipeline over one small algorithm on two operators (the decisions of a draft and of the pressure run, and
//! the serial order of the program).
//!
//! What they return is compared with values that were worked by hand. The crate has tests alone, which stand
//! apart from the crates that they call, so that those are proved once.
#![tactic(auto)]

#[cfg(test)]
mod graphs;
#[cfg(test)]
mod lists;
#[cfg(test)]
mod loads;
#[cfg(test)]
mod numbers;
#[cfg(test)]
mod placing;
#[cfg(test)]
mod programs;
#[cfg(test)]
mod references;
#[cfg(test)]
mod routes;
#[cfg(test)]
mod schedules;
#[cfg(test)]
mod shelves;
#[cfg(test)]
mod stages;
#[cfg(test)]
mod texts;
