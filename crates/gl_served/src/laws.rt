//! What a session that is served comes to. Each law stands as the contract of a function that does nothing.

ghost use Rattle.std.specs.Prelude.{◌≡◌};
ghost use Rattle.gl_served.specs.Whole.{FramesAreSession, TextIsOne};

use crate::limits::{LINE_MAX, PAIRS};
use gl_script::served_lines_are_sessions;

/// The text of what was accepted is the one that One gives, over the answers of Planned, for the session that has its statements in `setup`.
pub fn text_is_one()
    ensures { TextIsOne }
{}

/// The lines that were accepted are together a session, a `data` as the statement that it stands for, and One of it, over the answers of Planned, is
/// what was answered to them: once `setup` was accepted, and as long as the session isn't too long and doesn't cost too much.
pub fn frames_are_session()
    ensures { FramesAreSession }
{
    served_lines_are_sessions();
}

/// The limits are these numbers.
pub fn limits_by_value()
    ensures line { LINE_MAX ≡ 8192 }
    ensures pairs { PAIRS ≡ 2147483647 }
{}
