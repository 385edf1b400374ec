//! The machine: what each call of the library does, one after another, and the laws of it. Here are its definitions;
//! code that answers the calls stands above.
#![tactic(auto)]

pub mod answers;
mod asked;
mod call;
mod device_call;
mod driver_asked;
mod gift;
mod image;
pub mod laws;
mod parsed_request;
mod place;
mod reply;

pub use asked::Asked;
pub use call::{Call, Part};
pub use device_call::{CommandIn, DeviceCall, RemovalOf};
pub use driver_asked::{asks_driver, is_driver_asked};
pub use gift::Gift;
pub use image::Image;
pub use parsed_request::lines_asked;
pub use place::{Origin, Place};
pub use reply::Reply;
