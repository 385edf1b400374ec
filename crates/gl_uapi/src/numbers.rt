//! The numbers of the layout, by value: those that a C compiler gets from `linux/gpio.h`. With a wrong
//! number there is no proof.

ghost use Rattle.std.specs.Prelude.{◌≡◌, [], ◌∷◌};

use crate::layout::{
    ATTRIBUTE_DEBOUNCE, ATTRIBUTE_FLAGS, ATTRIBUTE_ID, ATTRIBUTE_OUTPUT_VALUES, ATTRIBUTE_PADDING,
    ATTRIBUTE_PADDING_SIZE, ATTRIBUTE_PERIOD_END, ATTRIBUTE_VALUE, ATTRIBUTES_MAX, CHANGED_CONFIG,
    CHANGED_INFO, CHANGED_KIND, CHANGED_PADDING, CHANGED_PADDING_SIZE, CHANGED_RELEASED,
    CHANGED_REQUESTED, CHANGED_TIMESTAMP, CHIP_INFO_SIZE, CHIP_LABEL, CHIP_LINES, CHIP_NAME,
    CONFIG_ATTRIBUTE_MASK, CONFIG_ATTRIBUTE_SIZE, CONFIG_ATTRIBUTES, CONFIG_FLAGS,
    CONFIG_NUM_ATTRS, CONFIG_PADDING, CONFIG_PADDING_SIZE, EVENT_FALLING, EVENT_ID,
    EVENT_LINE_SEQNO, EVENT_OFFSET, EVENT_PADDING, EVENT_PADDING_SIZE, EVENT_RISING, EVENT_SEQNO,
    EVENT_TIMESTAMP, INFO_ATTRIBUTES, INFO_CHANGED_SIZE, INFO_CONSUMER, INFO_FLAGS, INFO_NAME,
    INFO_NUM_ATTRS, INFO_OFFSET, INFO_PADDING, INFO_PADDING_SIZE, LINE_ATTRIBUTE_SIZE,
    LINE_CONFIG_SIZE, LINE_EVENT_SIZE, LINE_INFO_SIZE, LINE_REQUEST_SIZE, LINE_VALUES_SIZE,
    NAME_SIZE, REQUEST_CONFIG, REQUEST_CONSUMER, REQUEST_EVENT_BUFFER_SIZE, REQUEST_FD,
    REQUEST_NUM_LINES, REQUEST_OFFSET_SIZE, REQUEST_OFFSETS, REQUEST_PADDING, REQUEST_PADDING_SIZE,
    UNWATCH_OFFSET, UNWATCH_SIZE, VALUES_BITS, VALUES_MASK,
};

/// Lengths, offsets and the lengths of paddings, as `sizeof` and `offsetof` give them: of each structure
/// first its own length, then its fields.
pub fn layout_by_value()
    // struct gpiochip_info
    ensures chip_info { (CHIP_INFO_SIZE ∷ CHIP_NAME ∷ CHIP_LABEL ∷ CHIP_LINES ∷ []) ≡ (68 ∷ 0 ∷ 32 ∷ 64 ∷ []) }
    // struct gpio_v2_line_values
    ensures line_values { (LINE_VALUES_SIZE ∷ VALUES_BITS ∷ VALUES_MASK ∷ []) ≡ (16 ∷ 0 ∷ 8 ∷ []) }
    // struct gpio_v2_line_attribute
    ensures line_attribute { (LINE_ATTRIBUTE_SIZE ∷ ATTRIBUTE_ID ∷ ATTRIBUTE_PADDING ∷ ATTRIBUTE_PADDING_SIZE ∷ ATTRIBUTE_VALUE ∷ ATTRIBUTE_PERIOD_END ∷ []) ≡ (16 ∷ 0 ∷ 4 ∷ 4 ∷ 8 ∷ 12 ∷ []) }
    // struct gpio_v2_line_config_attribute
    ensures config_attribute { (CONFIG_ATTRIBUTE_SIZE ∷ CONFIG_ATTRIBUTE_MASK ∷ []) ≡ (24 ∷ 16 ∷ []) }
    // struct gpio_v2_line_config
    ensures line_config { (LINE_CONFIG_SIZE ∷ CONFIG_FLAGS ∷ CONFIG_NUM_ATTRS ∷ CONFIG_PADDING ∷ CONFIG_PADDING_SIZE ∷ CONFIG_ATTRIBUTES ∷ []) ≡ (272 ∷ 0 ∷ 8 ∷ 12 ∷ 20 ∷ 32 ∷ []) }
    // struct gpio_v2_line_request
    ensures line_request { (LINE_REQUEST_SIZE ∷ REQUEST_OFFSETS ∷ REQUEST_OFFSET_SIZE ∷ REQUEST_CONSUMER ∷ REQUEST_CONFIG ∷ REQUEST_NUM_LINES ∷ REQUEST_EVENT_BUFFER_SIZE ∷ REQUEST_PADDING ∷ REQUEST_PADDING_SIZE ∷ REQUEST_FD ∷ []) ≡ (592 ∷ 0 ∷ 4 ∷ 256 ∷ 288 ∷ 560 ∷ 564 ∷ 568 ∷ 20 ∷ 588 ∷ []) }
    // struct gpio_v2_line_info
    ensures line_info { (LINE_INFO_SIZE ∷ INFO_NAME ∷ INFO_CONSUMER ∷ INFO_OFFSET ∷ INFO_NUM_ATTRS ∷ INFO_FLAGS ∷ INFO_ATTRIBUTES ∷ INFO_PADDING ∷ INFO_PADDING_SIZE ∷ []) ≡ (256 ∷ 0 ∷ 32 ∷ 64 ∷ 68 ∷ 72 ∷ 80 ∷ 240 ∷ 16 ∷ []) }
    // struct gpio_v2_line_info_changed
    ensures info_changed { (INFO_CHANGED_SIZE ∷ CHANGED_INFO ∷ CHANGED_TIMESTAMP ∷ CHANGED_KIND ∷ CHANGED_PADDING ∷ CHANGED_PADDING_SIZE ∷ []) ≡ (288 ∷ 0 ∷ 256 ∷ 264 ∷ 268 ∷ 20 ∷ []) }
    // struct gpio_v2_line_event
    ensures line_event { (LINE_EVENT_SIZE ∷ EVENT_TIMESTAMP ∷ EVENT_ID ∷ EVENT_OFFSET ∷ EVENT_SEQNO ∷ EVENT_LINE_SEQNO ∷ EVENT_PADDING ∷ EVENT_PADDING_SIZE ∷ []) ≡ (48 ∷ 0 ∷ 8 ∷ 12 ∷ 16 ∷ 20 ∷ 24 ∷ 24 ∷ []) }
    // the offset that GET_LINEINFO_UNWATCH takes
    ensures unwatch { (UNWATCH_SIZE ∷ UNWATCH_OFFSET ∷ []) ≡ (4 ∷ 0 ∷ []) }
{}

/// The numbers that fields hold.
pub fn numbers_by_value()
    // GPIO_MAX_NAME_SIZE
    ensures name { (NAME_SIZE ∷ []) ≡ (32 ∷ []) }
    // GPIO_V2_LINE_NUM_ATTRS_MAX
    ensures attributes { (ATTRIBUTES_MAX ∷ []) ≡ (10 ∷ []) }
    // GPIO_V2_LINE_ATTR_ID_FLAGS, .._OUTPUT_VALUES and .._DEBOUNCE
    ensures attribute_ids { (ATTRIBUTE_FLAGS ∷ ATTRIBUTE_OUTPUT_VALUES ∷ ATTRIBUTE_DEBOUNCE ∷ []) ≡ (1 ∷ 2 ∷ 3 ∷ []) }
    // GPIO_V2_LINE_EVENT_RISING_EDGE and .._FALLING_EDGE
    ensures events { (EVENT_RISING ∷ EVENT_FALLING ∷ []) ≡ (1 ∷ 2 ∷ []) }
    // GPIO_V2_LINE_CHANGED_REQUESTED, .._RELEASED and .._CONFIG
    ensures changes { (CHANGED_REQUESTED ∷ CHANGED_RELEASED ∷ CHANGED_CONFIG ∷ []) ≡ (1 ∷ 2 ∷ 3 ∷ []) }
{}
