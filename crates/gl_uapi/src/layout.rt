//! Lengths and offsets of the structures, in bytes, and the numbers that their fields hold, as
//! `linux/gpio.h` has them. Each stands here alone.

use gl_base::Name;

/// The length of a name field, `GPIO_MAX_NAME_SIZE`: at most 31 bytes of a name, then zeros.
pub const NAME_SIZE: usize = Name::FIELD;
/// The attributes that a configuration and a line's information have room for,
/// `GPIO_V2_LINE_NUM_ATTRS_MAX`.
pub const ATTRIBUTES_MAX: u32 = 10;

/// The length of `struct gpiochip_info`.
pub const CHIP_INFO_SIZE: usize = 68;
/// The chip's name.
pub const CHIP_NAME: usize = 0;
/// The chip's label.
pub const CHIP_LABEL: usize = 32;
/// The chip's number of lines.
pub const CHIP_LINES: usize = 64;

/// The length of `struct gpio_v2_line_values`.
pub const LINE_VALUES_SIZE: usize = 16;
/// The values, a bit a line.
pub const VALUES_BITS: usize = 0;
/// The lines that the values speak of, a bit a line.
pub const VALUES_MASK: usize = 8;

/// The length of `struct gpio_v2_line_attribute`.
pub const LINE_ATTRIBUTE_SIZE: usize = 16;
/// What kind of attribute it is.
pub const ATTRIBUTE_ID: usize = 0;
/// The padding of an attribute.
pub const ATTRIBUTE_PADDING: usize = 4;
/// The length of that padding.
pub const ATTRIBUTE_PADDING_SIZE: usize = 4;
/// The flags or the values, 8 bytes, or the debounce period in microseconds, 4 bytes.
pub const ATTRIBUTE_VALUE: usize = 8;
/// Where a debounce period ends.
pub const ATTRIBUTE_PERIOD_END: usize = 12;

/// The length of `struct gpio_v2_line_config_attribute`: an attribute, and the lines that have it.
pub const CONFIG_ATTRIBUTE_SIZE: usize = 24;
/// The lines that have the attribute, a bit a line.
pub const CONFIG_ATTRIBUTE_MASK: usize = 16;

/// The length of `struct gpio_v2_line_config`.
pub const LINE_CONFIG_SIZE: usize = 272;
/// The flags of the lines that no attribute gives other flags.
pub const CONFIG_FLAGS: usize = 0;
/// How many attributes the configuration has.
pub const CONFIG_NUM_ATTRS: usize = 8;
/// The padding of a configuration.
pub const CONFIG_PADDING: usize = 12;
/// The length of that padding.
pub const CONFIG_PADDING_SIZE: usize = 20;
/// The first of ten attributes.
pub const CONFIG_ATTRIBUTES: usize = 32;

/// The length of `struct gpio_v2_line_request`.
pub const LINE_REQUEST_SIZE: usize = 592;
/// The first of 64 offsets on the chip.
pub const REQUEST_OFFSETS: usize = 0;
/// The length of one offset.
pub const REQUEST_OFFSET_SIZE: usize = 4;
/// Who asks for the lines.
pub const REQUEST_CONSUMER: usize = 256;
/// The lines' configuration.
pub const REQUEST_CONFIG: usize = 288;
/// How many lines are asked for.
pub const REQUEST_NUM_LINES: usize = 560;
/// How many events the request's ring is to hold.
pub const REQUEST_EVENT_BUFFER_SIZE: usize = 564;
/// The padding of a request.
pub const REQUEST_PADDING: usize = 568;
/// The length of that padding.
pub const REQUEST_PADDING_SIZE: usize = 20;
/// The file's number, which the answer holds.
pub const REQUEST_FD: usize = 588;

/// The length of `struct gpio_v2_line_info`.
pub const LINE_INFO_SIZE: usize = 256;
/// The line's name.
pub const INFO_NAME: usize = 0;
/// Who holds the line.
pub const INFO_CONSUMER: usize = 32;
/// The line's offset on its chip.
pub const INFO_OFFSET: usize = 64;
/// How many attributes the information has.
pub const INFO_NUM_ATTRS: usize = 68;
/// The line's flags.
pub const INFO_FLAGS: usize = 72;
/// The first of ten attributes.
pub const INFO_ATTRIBUTES: usize = 80;
/// The padding of an information.
pub const INFO_PADDING: usize = 240;
/// The length of that padding.
pub const INFO_PADDING_SIZE: usize = 16;

/// The length of `struct gpio_v2_line_info_changed`.
pub const INFO_CHANGED_SIZE: usize = 288;
/// The line's information after the change.
pub const CHANGED_INFO: usize = 0;
/// When it changed, in nanoseconds of the monotonic clock.
pub const CHANGED_TIMESTAMP: usize = 256;
/// What kind of change it is.
pub const CHANGED_KIND: usize = 264;
/// The padding of a change.
pub const CHANGED_PADDING: usize = 268;
/// The length of that padding.
pub const CHANGED_PADDING_SIZE: usize = 20;

/// The length of `struct gpio_v2_line_event`.
pub const LINE_EVENT_SIZE: usize = 48;
/// When the edge came, in nanoseconds.
pub const EVENT_TIMESTAMP: usize = 0;
/// Which edge it is.
pub const EVENT_ID: usize = 8;
/// The line's offset on its chip.
pub const EVENT_OFFSET: usize = 12;
/// The event's number among those of its request.
pub const EVENT_SEQNO: usize = 16;
/// The event's number among those of its line in the request.
pub const EVENT_LINE_SEQNO: usize = 20;
/// The padding of an event.
pub const EVENT_PADDING: usize = 24;
/// The length of that padding.
pub const EVENT_PADDING_SIZE: usize = 24;

/// The length of the structure that stops the watching of a line: its offset alone.
pub const UNWATCH_SIZE: usize = 4;
/// The line's offset.
pub const UNWATCH_OFFSET: usize = 0;

/// An attribute of flags, `GPIO_V2_LINE_ATTR_ID_FLAGS`.
pub const ATTRIBUTE_FLAGS: u32 = 1;
/// An attribute of output values, `GPIO_V2_LINE_ATTR_ID_OUTPUT_VALUES`.
pub const ATTRIBUTE_OUTPUT_VALUES: u32 = 2;
/// An attribute with a debounce period, `GPIO_V2_LINE_ATTR_ID_DEBOUNCE`.
pub const ATTRIBUTE_DEBOUNCE: u32 = 3;

/// A rising edge, `GPIO_V2_LINE_EVENT_RISING_EDGE`.
pub const EVENT_RISING: u32 = 1;
/// A falling edge, `GPIO_V2_LINE_EVENT_FALLING_EDGE`.
pub const EVENT_FALLING: u32 = 2;

/// A line was requested, `GPIO_V2_LINE_CHANGED_REQUESTED`.
pub const CHANGED_REQUESTED: u32 = 1;
/// A line was released, `GPIO_V2_LINE_CHANGED_RELEASED`.
pub const CHANGED_RELEASED: u32 = 2;
/// A line was configured anew, `GPIO_V2_LINE_CHANGED_CONFIG`.
pub const CHANGED_CONFIG: u32 = 3;
