//! The statements of a session as clients of the device: names of files, what each statement asks, and what it prints.
#![tactic(auto)]

mod actions;
mod closing;
mod copied;
mod files;
mod held;
mod holding;
mod joining;
mod laws;
mod old;
mod over;
mod paths;
mod replies;
mod steps;
mod talk;
mod tools;
mod words;

pub use laws::{
    files_close_by_number, setup_closes_by_number, slots_are_own, statements_ask_what_they_say,
    statements_keep_within_cost, statements_leave_entries, talks_are_statements_and_the_end,
    talks_find_their_files, talks_keep_within_cost, talks_make_at_most, talks_print_lines,
    words_are_read_as_they_are,
};
pub use over::{TalkedOver, talk_over};
pub use talk::Talk;
