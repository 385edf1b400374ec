//! The numbers of the library, by value.
ghost use Rattle.std.specs.Prelude.{◌≡◌};

use crate::command::{
    GET_CHIPINFO, GET_LINE, GET_LINEINFO, GET_LINEINFO_UNWATCH, GET_LINEINFO_WATCH,
    LINE_GET_VALUES, LINE_SET_CONFIG, LINE_SET_VALUES,
};
use crate::flag::{
    ACTIVE_LOW, BIAS_DISABLED, BIAS_PULL_DOWN, BIAS_PULL_UP, EDGE_FALLING, EDGE_RISING,
    EVENT_CLOCK_HTE, EVENT_CLOCK_REALTIME, INPUT, OPEN_DRAIN, OPEN_SOURCE, OUTPUT, USED,
};
use crate::limits::{COST_MAX, DIGITS_MAX, FILES_MAX, LINES_MAX, LINES_PER_REQUEST, PLACES};
use crate::name::Name;
use crate::path::Path;

/// The limits are these numbers.
pub fn limits_by_value()
    ensures places { PLACES ≡ 64 }
    ensures lines { LINES_MAX ≡ 512 }
    ensures lines_of_a_request { LINES_PER_REQUEST ≡ 64 }
    ensures files { FILES_MAX ≡ 256 }
    ensures cost { COST_MAX ≡ 300000 }
    ensures digits { DIGITS_MAX ≡ 20 }
    ensures name { Name.LONGEST ≡ 31 }
    ensures name_field { Name.FIELD ≡ 32 }
    ensures path { Path.LONGEST ≡ 127 }
{}

/// The flags are these bits of a line's word of flags (`linux/gpio.h`, `enum gpio_v2_line_flag`).
pub fn flags_by_value()
    ensures used { USED ≡ 0 }
    ensures active_low { ACTIVE_LOW ≡ 1 }
    ensures input { INPUT ≡ 2 }
    ensures output { OUTPUT ≡ 3 }
    ensures edge_rising { EDGE_RISING ≡ 4 }
    ensures edge_falling { EDGE_FALLING ≡ 5 }
    ensures open_drain { OPEN_DRAIN ≡ 6 }
    ensures open_source { OPEN_SOURCE ≡ 7 }
    ensures bias_pull_up { BIAS_PULL_UP ≡ 8 }
    ensures bias_pull_down { BIAS_PULL_DOWN ≡ 9 }
    ensures bias_disabled { BIAS_DISABLED ≡ 10 }
    ensures event_clock_realtime { EVENT_CLOCK_REALTIME ≡ 11 }
    ensures event_clock_hte { EVENT_CLOCK_HTE ≡ 12 }
{}

/// The commands have these numbers, as a C compiler gets them from `linux/gpio.h`.
pub fn commands_by_value()
    ensures get_chipinfo { GET_CHIPINFO ≡ 0x8044_B401 }
    ensures get_lineinfo { GET_LINEINFO ≡ 0xC100_B405 }
    ensures get_lineinfo_watch { GET_LINEINFO_WATCH ≡ 0xC100_B406 }
    ensures get_line { GET_LINE ≡ 0xC250_B407 }
    ensures get_lineinfo_unwatch { GET_LINEINFO_UNWATCH ≡ 0xC004_B40C }
    ensures set_config { LINE_SET_CONFIG ≡ 0xC110_B40D }
    ensures get_values { LINE_GET_VALUES ≡ 0xC010_B40E }
    ensures set_values { LINE_SET_VALUES ≡ 0xC010_B40F }
{}
