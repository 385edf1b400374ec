//! A session that is answered line by line.
#![tactic(auto)]

mod alone;
mod answered;
mod closing;
mod ended;
mod frames;
mod laws;
mod limits;
mod making;
mod question;
mod served;
mod serving;
mod slots;
mod streams;
mod under_way;

pub use answered::Answer;
pub use ended::Ended;
pub use laws::{frames_are_session, limits_by_value, text_is_one};
pub use limits::LINE_MAX;
pub use served::Served;
pub use serving::serve;
pub use streams::write_all;
