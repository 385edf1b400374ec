//! What is shared between threads, as plain data: the rule of the shared words and of the slot in which
//! the machine lies, what each pass knows, and what each atomic step changes.
#![tactic(auto)]

mod held;
mod laws;
mod plays;
mod rule;
mod view;

pub use held::Held;
pub use laws::{
    closed_is_leaving, drained_is_empty, inside_is_not_gone, known_drained_stays_empty,
    one_history, plays_are_moves,
};
pub use plays::{
    BackOut, Close, Commit, CountInside, Enter, FindTurn, JoinPass, Learn, Leave, PassOn,
    SplitPass, TakeTicket,
};
pub use rule::{GateRule, GateSize};
pub use view::{Joined, View};
