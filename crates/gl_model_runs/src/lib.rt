//! Worked runs of the machine: what its definitions answer to lists of calls, computed.
#![tactic(auto)]

pub mod rows;
