//! The flags of a request's lines: the set of them, and the check that decides whether the flags of a
//! line go together. The flags are those of `linux/gpio.h`, `enum gpio_v2_line_flag`; the rules are those
//! of the kernel's GPIO character device, and their order is this project's choice.
//!
//! The numbers of the flags' bits stand in `gl_base::flag`. No call takes memory.
#![tactic(auto)]

mod line_flags;
mod rules;

pub use line_flags::LineFlags;
pub use rules::check;
