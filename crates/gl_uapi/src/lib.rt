//! The structures of the GPIO character device's uAPI v2 as borrowed bytes: views that read them and
//! functions that write them. The layout is that of `linux/gpio.h`; numbers are little-endian (this
//! project's choice: the kernel uses the machine's own order).
//!
//! A view lends stretches of the bytes that it was made from and copies none of them. No call takes
//! memory, and each view is safe on any bytes.
#![tactic(auto)]

mod chip_infos;
pub mod commands;
pub mod fields;
mod info_changes;
pub mod laws;
pub mod layout;
mod line_configs;
mod line_events;
mod line_infos;
mod line_requests;
mod line_values;
mod new_requests;
pub mod numbers;
mod unwatch;

pub use chip_infos::{ChipRef, write_chip_info};
pub use commands::Command;
pub use info_changes::{Changed, ChangedRef, write_info_changed};
pub use line_configs::{AttrRef, ConfigRef};
pub use line_events::{Event, EventsRef, write_event};
pub use line_infos::{Info, InfoRef, write_line_info};
pub use line_requests::{RequestRef, write_fd, write_request_answer};
pub use line_values::{ValuesRef, write_values};
pub use new_requests::{
    AttributeValue, NewAttribute, write_attribute, write_config, write_request,
};
pub use unwatch::UnwatchRef;
