//! The numbers of the first structures, by value: those that a C compiler gets from `linux/gpio.h`. With a wrong
//! number there is no proof.

ghost use Rattle.std.specs.Prelude.{◌≡◌, [], ◌∷◌, map};
ghost use Rattle.gl_v1.specs.Flags.{new_bits, old_bits};

use crate::commands::{
    HANDLE_GET_VALUES, HANDLE_SET_CONFIG, HANDLE_SET_VALUES, LINE_EVENT, LINE_HANDLE, LINE_INFO,
};
use crate::flags::{EVENT_TABLE, HANDLE_TABLE, INFO_TABLE, UNKNOWN};
use crate::layout::{
    V1_CHIP_INFO_SIZE, V1_CONFIG_FLAGS, V1_CONFIG_PADDING, V1_CONFIG_VALUES, V1_DATA_ID,
    V1_DATA_PADDING, V1_DATA_TIMESTAMP, V1_EVENT_CONSUMER, V1_EVENT_DATA_SIZE, V1_EVENT_FD,
    V1_EVENT_FLAGS, V1_EVENT_HANDLE_FLAGS, V1_EVENT_OFFSET, V1_EVENT_REQUEST_SIZE,
    V1_HANDLE_CONFIG_SIZE, V1_HANDLE_CONSUMER, V1_HANDLE_DATA_SIZE, V1_HANDLE_FD, V1_HANDLE_FLAGS,
    V1_HANDLE_LINES, V1_HANDLE_OFFSETS, V1_HANDLE_OFFSETS_SIZE, V1_HANDLE_REQUEST_SIZE,
    V1_HANDLE_VALUES, V1_HANDLES_MAX, V1_INFO_CONSUMER, V1_INFO_FLAGS, V1_INFO_NAME,
    V1_INFO_OFFSET, V1_LINE_INFO_SIZE, V1_VALUES_SIZE,
};

/// Lengths and offsets, as `sizeof` and `offsetof` give them: of each structure first its own length, then its fields.
pub fn layout_by_value()
    // struct gpiochip_info
    ensures chip_info { (V1_CHIP_INFO_SIZE ∷ []) ≡ (68 ∷ []) }
    // struct gpioline_info
    ensures line_info { (V1_LINE_INFO_SIZE ∷ V1_INFO_OFFSET ∷ V1_INFO_FLAGS ∷ V1_INFO_NAME ∷ V1_INFO_CONSUMER ∷ []) ≡ (72 ∷ 0 ∷ 4 ∷ 8 ∷ 40 ∷ []) }
    // struct gpiohandle_request
    ensures handle_request { (V1_HANDLE_REQUEST_SIZE ∷ V1_HANDLE_OFFSETS ∷ V1_HANDLE_OFFSETS_SIZE ∷ V1_HANDLE_FLAGS ∷ V1_HANDLE_VALUES ∷ V1_VALUES_SIZE ∷ V1_HANDLE_CONSUMER ∷ V1_HANDLE_LINES ∷ V1_HANDLE_FD ∷ V1_HANDLES_MAX ∷ []) ≡ (364 ∷ 0 ∷ 256 ∷ 256 ∷ 260 ∷ 64 ∷ 324 ∷ 356 ∷ 360 ∷ 64 ∷ []) }
    // struct gpiohandle_config
    ensures handle_config { (V1_HANDLE_CONFIG_SIZE ∷ V1_CONFIG_FLAGS ∷ V1_CONFIG_VALUES ∷ V1_CONFIG_PADDING ∷ []) ≡ (84 ∷ 0 ∷ 4 ∷ 68 ∷ []) }
    // struct gpiohandle_data
    ensures handle_data { (V1_HANDLE_DATA_SIZE ∷ []) ≡ (64 ∷ []) }
    // struct gpioevent_request
    ensures event_request { (V1_EVENT_REQUEST_SIZE ∷ V1_EVENT_OFFSET ∷ V1_EVENT_HANDLE_FLAGS ∷ V1_EVENT_FLAGS ∷ V1_EVENT_CONSUMER ∷ V1_EVENT_FD ∷ []) ≡ (48 ∷ 0 ∷ 4 ∷ 8 ∷ 12 ∷ 44 ∷ []) }
    // struct gpioevent_data
    ensures event_data { (V1_EVENT_DATA_SIZE ∷ V1_DATA_TIMESTAMP ∷ V1_DATA_ID ∷ V1_DATA_PADDING ∷ []) ≡ (16 ∷ 0 ∷ 8 ∷ 12 ∷ []) }
{}

/// The numbers of commands, and the bits of flags in both uAPIs.
pub fn numbers_by_value()
    // GPIO_GET_LINEINFO_IOCTL, GPIO_GET_LINEHANDLE_IOCTL and GPIO_GET_LINEEVENT_IOCTL
    ensures chip_commands { (LINE_INFO ∷ LINE_HANDLE ∷ LINE_EVENT ∷ []) ≡ (3225990146 ∷ 3245126659 ∷ 3224417284 ∷ []) }
    // GPIOHANDLE_GET_LINE_VALUES_IOCTL, GPIOHANDLE_SET_LINE_VALUES_IOCTL and GPIOHANDLE_SET_CONFIG_IOCTL
    ensures handle_commands { (HANDLE_GET_VALUES ∷ HANDLE_SET_VALUES ∷ HANDLE_SET_CONFIG ∷ []) ≡ (3225465864 ∷ 3225465865 ∷ 3226776586 ∷ []) }
    // GPIOHANDLE_REQUEST_.. against GPIO_V2_LINE_FLAG_..
    ensures handle { (old_bits HANDLE_TABLE ≡ (0 ∷ 1 ∷ 2 ∷ 3 ∷ 4 ∷ 5 ∷ 6 ∷ 7 ∷ [])) × (new_bits HANDLE_TABLE ≡ (2 ∷ 3 ∷ 1 ∷ 6 ∷ 7 ∷ 8 ∷ 9 ∷ 10 ∷ [])) }
    // GPIOEVENT_REQUEST_.. against GPIO_V2_LINE_FLAG_EDGE_..
    ensures event { (old_bits EVENT_TABLE ≡ (0 ∷ 1 ∷ [])) × (new_bits EVENT_TABLE ≡ (4 ∷ 5 ∷ [])) }
    // GPIOLINE_FLAG_.. against GPIO_V2_LINE_FLAG_..
    ensures information { (old_bits INFO_TABLE ≡ (0 ∷ 1 ∷ 2 ∷ 3 ∷ 4 ∷ 5 ∷ 6 ∷ 7 ∷ [])) × (new_bits INFO_TABLE ≡ (0 ∷ 3 ∷ 1 ∷ 6 ∷ 7 ∷ 8 ∷ 9 ∷ 10 ∷ [])) }
    // no GPIO_V2_LINE_FLAG_.. has this bit
    ensures unknown { UNKNOWN ≡ 63 }
{}
