//! The text of a session: its sections and statements, or its first fault.
#![tactic(auto)]

mod cost;
mod cursor;
mod escaped;
mod faults;
mod feed;
mod forms;
mod heads;
mod initials;
mod laws;
mod limits;
mod load;
mod reading;
mod refusal;
mod rows;
mod said;
mod script;
mod section;
mod served;
mod table;
mod version;

pub use faults::text_at;
pub use feed::Feed;
pub use forms::number_within;
pub use laws::{
    faults_are_of_the_text, limits_by_value, loads_are_sessions, loads_have_no_aggregate,
    sentence_is_single, sentences_are_spelled, served_lines_are_sessions, spelled_are_sentences,
    statements_are_said, statements_have_their_words,
};
pub use limits::{JOINED_MAX, SESSION_MAX, TURNS_MAX};
pub use load::generate;
pub use refusal::{Refusal, RefusalKind, Spot};
pub use said::Said;
pub use script::Script;
pub use section::{Head, SectionKind, Statement};
pub use served::{LineKind, Stage, line_kind};
pub use table::{Keyword, keyword_of};
pub use version::Version;
