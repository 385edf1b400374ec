//! Small machines behind a gate, drivers that are asked through it, and threads that make calls on it.
#![tactic(auto)]

#[cfg(test)]
mod adder;
mod adder_call;
#[cfg(test)]
mod adding;
#[cfg(test)]
mod asking;
#[cfg(test)]
mod bench;
#[cfg(test)]
mod driver_tests;
mod errand;
#[cfg(test)]
mod house;
#[cfg(test)]
mod noting;
#[cfg(test)]
mod removal;
#[cfg(test)]
mod tests;
