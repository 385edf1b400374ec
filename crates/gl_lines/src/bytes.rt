//! The structures that tools hand in, at the front of a buffer of 592 bytes. All other bytes of the buffer are zero.
ghost use Rattle.gl_args.specs.Options.{options_in};
ghost use Rattle.std.specs.Prelude.{◌≡◌};
ghost use Rattle.gl_lines.specs.Bytes.{mask_of, values_sent, info_sent, direction, edges_asked, active_low_flag, flags_of, line_bit, with_values, debounced, attribute_of, request_sent};

use gl_args::{Opts, ToolName};
use gl_base::{LINES_PER_REQUEST, Name, flag};
use gl_uapi::{AttributeValue, Info, NewAttribute, write_line_info, write_request, write_values};

/// What asks for the values of a request's first lines; of 64 where there are more.
#[tactic(auto, using(crate::proofs::Buffers::behind_values))]
pub fn values_sent(count: usize) -> [u8; 592]
    ensures { result ≡ values_sent count }
{
    let mut bytes = [0; 592];
    write_values(&mut bytes, 0, mask_of(count));
    bytes
}

/// What asks for the information on the line at an offset, by GET_LINEINFO or its watch: the structure with nothing but its
/// offset set, in front of zeros. `write_line_info` writes it, of an information that has the offset alone.
#[tactic(auto, using(crate::proofs::Buffers::behind_info))]
pub fn info_sent(offset: u32) -> [u8; 592]
    ensures { result ≡ info_sent offset }
{
    let info = Info {
        name: Name::empty(),
        consumer: Name::empty(),
        offset,
        flags: 0,
        period: 0,
    };
    let mut bytes = [0; 592];
    write_line_info(&mut bytes, &info);
    bytes
}

/// What requests lines for a tool; zeros where there are more than 64.
pub(crate) fn request_sent(tool: ToolName, opts: &Opts, offsets: &[u32]) -> [u8; 592]
    ensures { result ≡ request_sent tool (options_in opts.now) offsets.now }
{
    if offsets.len() > LINES_PER_REQUEST as usize {
        return [0; 592];
    }
    let flags = flags_of(tool, opts);
    let mut bytes = [0; 592];
    match attribute_of(tool, opts) {
        Some(attribute) => {
            write_request(&mut bytes, offsets, &opts.consumer, flags, &[attribute], 0);
        }
        None => write_request(&mut bytes, offsets, &opts.consumer, flags, &[], 0),
    }
    bytes
}

/// A bit for each of the first lines; for 64 where there are more.
fn mask_of(count: usize) -> u64
    ensures { result ≡ mask_of count }
{
    if count >= 64 {
        return u64::MAX;
    }
    (1 << count) - 1
}

/// The flags that a tool asks for.
fn flags_of(tool: ToolName, opts: &Opts) -> u64
    ensures { result ≡ flags_of tool (options_in opts.now) }
{
    direction(tool)
        | edges_asked(tool, opts)
        | active_low_flag(opts.active_low)
        | opts.drive
        | opts.bias
}

/// gpioset makes outputs, the others inputs.
fn direction(tool: ToolName) -> u64
    ensures { result ≡ direction tool }
{
    match tool {
        ToolName::Set => 1 << flag::OUTPUT,
        ToolName::Detect | ToolName::Info | ToolName::Get | ToolName::Watch | ToolName::Notify => 1
            << flag::INPUT,
    }
}

/// The edges of gpiomon; the others ask for none.
fn edges_asked(tool: ToolName, opts: &Opts) -> u64
    ensures { result ≡ edges_asked tool (options_in opts.now) }
{
    match tool {
        ToolName::Watch => opts.edges,
        ToolName::Detect | ToolName::Info | ToolName::Get | ToolName::Set | ToolName::Notify => 0,
    }
}

fn active_low_flag(active_low: bool) -> u64
    ensures { result ≡ active_low_flag active_low }
{
    if active_low {
        return 1 << flag::ACTIVE_LOW;
    }
    0
}

/// What a tool's lines get beside their flags: gpioset's their values, gpiomon's a debounce period that isn't 0.
fn attribute_of(tool: ToolName, opts: &Opts) -> Option<NewAttribute>
    ensures { result ≡ attribute_of tool (options_in opts.now) }
{
    let mask = mask_of(opts.lines.len());
    match tool {
        ToolName::Set => Some(NewAttribute {
            value: AttributeValue::OutputValues(values_of(&opts.lines)),
            mask,
        }),
        ToolName::Watch => debounced(opts.period_us, mask),
        ToolName::Detect | ToolName::Info | ToolName::Get | ToolName::Notify => None,
    }
}

fn debounced(period: u32, mask: u64) -> Option<NewAttribute>
    ensures { result ≡ debounced period mask }
{
    if period == 0 {
        return None;
    }
    Some(NewAttribute {
        value: AttributeValue::Debounce(period),
        mask,
    })
}

/// The values of gpioset's lines, a bit a line.
fn values_of(lines: &[(Name, bool)]) -> u64
    ensures { result ≡ with_values 0 0 lines.now }
{
    let mut bits = 0;
    for (i, line) in lines.iter().enumerate() {
        bits |= line_bit(i, line.1);
    }
    bits
}

/// The bit of a line with its value; a request has at most 64 lines.
fn line_bit(i: usize, value: bool) -> u64
    ensures { result ≡ line_bit i value }
{
    if i < 64 && value {
        return 1 << i;
    }
    0
}
