//! The turns of a client over scripted results.

use crate::transcript::{put_call, put_short};
use gl_base::{Do, Errno, Got};
use gl_client::Next;

/// How often a client goes on at most.
pub const TURNS: u32 = 1000;

/// What a client did in a turn.
#[derive(Clone, Copy, PartialEq, Eq)]
pub enum Turn {
    /// It asked for an operation, and waits for its result.
    Asked,
    /// It printed a text.
    Printed,
    /// It came to its end.
    Ended,
}

/// How an operation is written.
#[derive(Clone, Copy, PartialEq, Eq)]
pub enum Form {
    /// A line with all that it says.
    Whole,
    /// Its name and a number.
    Short,
}

/// Appends an operation.
fn put(what: &Do, form: Form, out: &mut Vec<u8>) -> Result<(), Errno> {
    match form {
        Form::Whole => put_call(what, out),
        Form::Short => put_short(what, out),
    }
}

/// Appends what a client asks or prints in a turn.
pub fn take_turn(next: Next, form: Form, out: &mut Vec<u8>) -> Result<Turn, Errno> {
    match next {
        Next::Call(what) => {
            put(&what, form, out)?;
            Ok(Turn::Asked)
        }
        Next::Print(text) => {
            out.extend_from_slice(text.as_slice())?;
            Ok(Turn::Printed)
        }
        Next::End => Ok(Turn::Ended),
    }
}

/// The result of the operation that was asked for, if one was, taken from those that are left. It is an error where none is left.
pub fn result_of<'a>(left: &mut &'a [Got], turn: Turn) -> Result<Option<&'a Got>, Errno> {
    if turn != Turn::Asked {
        return Ok(None);
    }
    match left.split_first() {
        Some((first, rest)) => {
            *left = rest;
            Ok(Some(first))
        }
        None => Err(Errno::Inval),
    }
}

/// An error where not all results were taken.
pub fn all_taken(left: &[Got]) -> Result<(), Errno> {
    if left.is_empty() {
        Ok(())
    } else {
        Err(Errno::Inval)
    }
}
