//! Devices with an actor or two: what each call is answered, and what two threads make of one device.
#![tactic(auto)]

#[cfg(test)]
mod aggregated;
#[cfg(test)]
mod aggregated_tests;
#[cfg(test)]
mod chip_files;
#[cfg(test)]
mod device_tests;
#[cfg(test)]
mod files;
#[cfg(test)]
mod handed_back;
#[cfg(test)]
mod on_places;
#[cfg(test)]
mod on_requests;
#[cfg(test)]
mod refusal_tests;
#[cfg(test)]
mod tests;
#[cfg(test)]
mod unplugged_target;
#[cfg(test)]
mod unplugging;
