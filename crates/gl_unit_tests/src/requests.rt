//! That requests and configurations go through the writers and the views and stay the same.

use gl_base::Name;
use gl_uapi::{
    AttrRef, AttributeValue, ConfigRef, NewAttribute, RequestRef, write_attribute, write_config,
    write_fd, write_request, write_request_answer,
};

/// The numbers of a request: three offsets, how many lines it has, the room that it asks for, and its file.
type Numbers = ([u32; 3], u32, u32, i32);

/// A configuration: flags, how many attributes, and of the first one kind, value, period and mask.
type Config = (u64, u32, (u32, u64, u32, u64));

/// The numbers of a request, as its view reads them.
fn numbers_told(request: &RequestRef<'_>) -> Numbers {
    (
        [request.offset(0), request.offset(1), request.offset(2)],
        request.num_lines(),
        request.event_buffer_size(),
        request.fd(),
    )
}

/// An attribute, as its view reads it: kind, value, period and mask.
fn attribute_told(attribute: &AttrRef<'_>) -> (u32, u64, u32, u64) {
    (
        attribute.id(),
        attribute.value(),
        attribute.period(),
        attribute.mask(),
    )
}

/// A configuration, as its view reads it.
fn config_told(config: &ConfigRef<'_>) -> Config {
    (
        config.flags(),
        config.num_attrs(),
        attribute_told(&config.attr(0)),
    )
}

/// Whether the padding of a request and of its configuration is zero.
fn is_padded(request: &RequestRef<'_>) -> bool {
    request.padding_is_zero() && request.config().padding_is_zero()
}

/// A request of two lines: each field as `linux/gpio.h` lays it out.
fn two_lines() -> [u8; 592] {
    let mut bytes = [0u8; 592];
    bytes[4] = 7;
    bytes[256] = b'x';
    bytes[288] = 0x34;
    bytes[296] = 1;
    bytes[320] = 3;
    bytes[328] = 0xe8;
    bytes[329] = 3;
    bytes[336] = 2;
    bytes[560] = 2;
    bytes[564] = 16;
    write_fd(&mut bytes, -1);
    bytes
}

/// Whether a request reads as these numbers, this configuration and this consumer, and its padding is zero.
fn is_read(bytes: &[u8], numbers: Numbers, config: Config, consumer: &[u8]) -> bool {
    match RequestRef::of(bytes) {
        Some(request) => {
            is_padded(&request)
                && numbers_told(&request) == numbers
                && config_told(&request.config()) == config
                && Name::read(request.consumer()).as_bytes() == consumer
        }
        None => false,
    }
}

/// Whether a request that is laid out as in `linux/gpio.h` is read.
fn is_laid_out() -> bool {
    let numbers = ([0, 7, 0], 2, 16, -1);
    is_read(&two_lines(), numbers, (0x34, 1, (3, 1000, 1000, 2)), b"x")
}

/// Whether a request that a client wrote, with an attribute for both of its lines, is read so.
fn is_written() -> bool {
    let consumer = Name::filled(b"gpioset");
    let values = NewAttribute {
        value: AttributeValue::OutputValues(2),
        mask: 3,
    };
    let mut bytes = [0xFFu8; 592];
    write_request(&mut bytes, &[5, 7], &consumer, 8, &[values], 0);
    let numbers = ([5, 7, 0], 2, 0, 0);
    is_read(&bytes, numbers, (8, 1, (2, 2, 2, 3)), b"gpioset")
}

/// A period of 1000 microseconds for the first line.
const PERIOD: NewAttribute = NewAttribute {
    value: AttributeValue::Debounce(1000),
    mask: 1,
};

/// Whether a configuration has its attribute where it has to be, and as it is written alone.
fn is_configured() -> [bool; 2] {
    let mut config = [0xFFu8; 272];
    write_config(&mut config, 0x34, &[PERIOD]);
    let mut attribute = [0xFFu8; 24];
    write_attribute(&mut attribute, &PERIOD);
    [
        (config[32], config[40], config[41], config[48]) == (3, 0xe8, 3, 1),
        attribute[..] == config[32..56],
    ]
}

/// The file of a request, as its view reads it.
fn fd_told(bytes: &[u8]) -> Option<i32> {
    match RequestRef::of(bytes) {
        Some(request) => Some(request.fd()),
        None => None,
    }
}

/// Whether a request is answered as far as the buffer goes: one that is whole, and one that is two bytes too short.
fn is_answered() -> [bool; 2] {
    let mut whole = [7; 592];
    write_request_answer(&mut whole, &[0; 592], 5);
    let mut short = [7; 590];
    write_request_answer(&mut short, &[0; 592], 0x0102_0304);
    [fd_told(&whole) == Some(5), short[587..] == [0, 4, 3]]
}

/// Whether requests, a configuration and an answer are as they have to be, in this order.
pub fn checks() -> [bool; 4] {
    [
        is_laid_out(),
        is_written(),
        is_configured() == [true; 2],
        is_answered() == [true; 2],
    ]
}
