//! Machines that answer one call after another, the histories of their calls, and what can happen to
//! them when several passes make calls: entering and leaving places, closing and draining them.
#![tactic(auto)]

mod history;
mod laws;
mod machine;

pub use history::Entry;
pub use laws::{
    closed_is_gone_or_anothers, deeds_stand, deeds_stay, drained_stays_empty, every_run_is_legal,
    leaving_has_remover, legal_worlds_are_sound, nothing_after_gone, nothing_behind_gone,
    phases_go_forward, phases_never_fall, quiet_entries_keep_removals, refused_is_closing,
    removals_go_on, strangers_remove_nothing,
};
pub use machine::Machine;
