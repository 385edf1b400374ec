//! What a client does next.

use gl_base::{ByteList, Do};

/// What a client of the device does next. Which it is, is said by its program (`specs/Program`).
#[derive(Drop)]
pub enum Next {
    /// It asks for this operation, and waits for its result.
    Call(Do),
    /// It prints this text.
    Print(ByteList),
    /// It has come to its end.
    End,
}
