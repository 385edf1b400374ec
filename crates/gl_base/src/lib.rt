//! What every crate of the library speaks of: the errors, the limits, names and paths, and the numbers of a text.
#![tactic(auto)]

mod bits;
mod byte_list;
mod bytes_text;
mod chip;
pub mod command;
mod count;
mod decimal;
mod errno;
pub mod flag;
mod irq;
mod kind;
mod label;
pub mod laws;
mod limits;
mod lines;
mod name;
mod op;
mod operation;
mod padded;
mod path;
mod phase;
mod pin;
mod room;
mod seconds;
mod settings;
mod words;

pub use bits::has_bit;
pub use byte_list::ByteList;
pub use bytes_text::{piece_size, put_bytes, put_piece};
pub use chip::{chip_name, chip_number, chip_words_are_three};
pub use command::command_number;
pub use count::count_up;
pub use decimal::{
    decimal_reads_back, plain_decimals_are_digits, put_decimal, read_decimal, read_plain_decimal,
};
pub use errno::Errno;
pub use irq::IrqDo;
pub use kind::Kind;
pub use label::are_label_bytes;
pub use limits::{COST_MAX, DIGITS_MAX, FILES_MAX, LINES_MAX, LINES_PER_REQUEST, PLACES};
pub use lines::Lines;
pub use name::Name;
pub use op::Op;
pub use operation::{Do, Got};
pub use path::Path;
pub use phase::Phase;
pub use pin::PinDo;
pub use room::push_within;
pub use seconds::{put_repeated, put_right_justified, put_seconds};
pub use settings::{Resolved, Settings};
pub use words::{Found, next_word, nth_word, split_first};
