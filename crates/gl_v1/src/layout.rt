//! Lengths and offsets of the first structures, in bytes, as `linux/gpio.h` has them. Each stands here alone.

/// The lines that a handle has at most, `GPIOHANDLES_MAX`.
pub const V1_HANDLES_MAX: u32 = 64;
/// The length of values, a byte a line.
pub const V1_VALUES_SIZE: usize = 64;

/// The length of `struct gpiochip_info`, which both uAPIs share.
pub const V1_CHIP_INFO_SIZE: usize = 68;

/// The length of `struct gpioline_info`.
pub const V1_LINE_INFO_SIZE: usize = 72;
/// The line's offset on its chip.
pub const V1_INFO_OFFSET: usize = 0;
/// The line's flags, 32 bits.
pub const V1_INFO_FLAGS: usize = 4;
/// The line's name.
pub const V1_INFO_NAME: usize = 8;
/// Who holds the line.
pub const V1_INFO_CONSUMER: usize = 40;

/// The length of `struct gpiohandle_request`.
pub const V1_HANDLE_REQUEST_SIZE: usize = 364;
/// The first of 64 offsets on the chip, 32 bits each.
pub const V1_HANDLE_OFFSETS: usize = 0;
/// The length of these offsets.
pub const V1_HANDLE_OFFSETS_SIZE: usize = 256;
/// The flags of all lines, 32 bits.
pub const V1_HANDLE_FLAGS: usize = 256;
/// The values of outputs, a byte a line.
pub const V1_HANDLE_VALUES: usize = 260;
/// Who asks for the lines.
pub const V1_HANDLE_CONSUMER: usize = 324;
/// How many lines are asked for.
pub const V1_HANDLE_LINES: usize = 356;
/// The file's number, which the answer holds.
pub const V1_HANDLE_FD: usize = 360;

/// The length of `struct gpiohandle_config`.
pub const V1_HANDLE_CONFIG_SIZE: usize = 84;
/// The flags of all lines, 32 bits.
pub const V1_CONFIG_FLAGS: usize = 0;
/// The values of outputs, a byte a line.
pub const V1_CONFIG_VALUES: usize = 4;
/// The padding of a configuration, 16 bytes, which isn't looked at (this project's choice).
pub const V1_CONFIG_PADDING: usize = 68;

/// The length of `struct gpiohandle_data`: values alone.
pub const V1_HANDLE_DATA_SIZE: usize = 64;

/// The length of `struct gpioevent_request`.
pub const V1_EVENT_REQUEST_SIZE: usize = 48;
/// The line's offset on its chip.
pub const V1_EVENT_OFFSET: usize = 0;
/// The line's flags, as those of a handle, 32 bits.
pub const V1_EVENT_HANDLE_FLAGS: usize = 4;
/// Which edges are events, 32 bits.
pub const V1_EVENT_FLAGS: usize = 8;
/// Who asks for the line.
pub const V1_EVENT_CONSUMER: usize = 12;
/// The file's number, which the answer holds.
pub const V1_EVENT_FD: usize = 44;

/// The length of `struct gpioevent_data`.
pub const V1_EVENT_DATA_SIZE: usize = 16;
/// When the edge came, in nanoseconds, 64 bits.
pub const V1_DATA_TIMESTAMP: usize = 0;
/// Which edge, 32 bits: 1 is rising and 2 falling, as in v2.
pub const V1_DATA_ID: usize = 8;
/// The padding of an event, 4 bytes.
pub const V1_DATA_PADDING: usize = 12;
