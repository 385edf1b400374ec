//! What a client hands in to request lines: a request, its configuration and its attributes. All padding and every
//! attribute that isn't used is zero.

ghost use Rattle.std.specs.Prelude.{◌≡◌, ◌+◌, ◌*◌, ◌≤◌, ◌++◌, length, take, drop};
ghost use Rattle.gl_uapi.specs.Fields.{overwritten};
ghost use Rattle.gl_uapi.specs.LineConfig.{SpellsAttribute, SpellsConfig};
ghost use Rattle.gl_uapi.specs.LineRequest.{SpellsRequest};
ghost use Rattle.gl_uapi.specs.NewRequest.{value_id, value_number, new_attribute, new_attribute_bytes, attributes_bytes, new_config, new_config_bytes, offsets_bytes, new_request, new_request_bytes, AttributeFits, ConfigFits, RequestFits};

use crate::fields::{put_name, put_u32, put_u64, put_zeros};
use crate::layout::{
    ATTRIBUTE_DEBOUNCE, ATTRIBUTE_FLAGS, ATTRIBUTE_ID, ATTRIBUTE_OUTPUT_VALUES, ATTRIBUTE_PADDING,
    ATTRIBUTE_PADDING_SIZE, ATTRIBUTE_VALUE, ATTRIBUTES_MAX, CONFIG_ATTRIBUTE_MASK,
    CONFIG_ATTRIBUTE_SIZE, CONFIG_ATTRIBUTES, CONFIG_FLAGS, CONFIG_NUM_ATTRS, CONFIG_PADDING,
    CONFIG_PADDING_SIZE, LINE_CONFIG_SIZE, LINE_REQUEST_SIZE, REQUEST_CONFIG, REQUEST_CONSUMER,
    REQUEST_EVENT_BUFFER_SIZE, REQUEST_FD, REQUEST_NUM_LINES, REQUEST_OFFSET_SIZE, REQUEST_OFFSETS,
    REQUEST_PADDING,
};
use gl_base::{LINES_PER_REQUEST, Name};

/// What an attribute gives its lines.
#[derive(Clone, Copy, PartialEq, Eq)]
pub enum AttributeValue {
    /// These flags in place of the configuration's.
    Flags(u64),
    /// These values of outputs, a bit a line.
    OutputValues(u64),
    /// This debounce period, in microseconds.
    Debounce(u32),
}

/// An attribute, and the lines that get it.
#[derive(Clone, Copy, PartialEq, Eq)]
pub struct NewAttribute {
    /// What it gives them.
    pub value: AttributeValue,
    /// The lines, a bit a line: bit `i` is the line at position `i` of the request.
    pub mask: u64,
}

impl AttributeValue {
    /// What kind of attribute it is.
    fn id(self) -> u32
        ensures { result ≡ value_id self }
    {
        match self {
            AttributeValue::Flags(_) => ATTRIBUTE_FLAGS,
            AttributeValue::OutputValues(_) => ATTRIBUTE_OUTPUT_VALUES,
            AttributeValue::Debounce(_) => ATTRIBUTE_DEBOUNCE,
        }
    }

    /// What stands in its eight bytes.
    fn number(self) -> u64
        ensures { result ≡ value_number self }
    {
        match self {
            AttributeValue::Flags(flags) => flags,
            AttributeValue::OutputValues(values) => values,
            AttributeValue::Debounce(period) => u64::from(period),
        }
    }
}

/// Writes an attribute and its lines over the first 24 bytes, and leaves the rest.
pub fn write_attribute(out: &mut [u8], attribute: &NewAttribute)
    requires { CONFIG_ATTRIBUTE_SIZE ≤ length out.old }
    ensures spelled { AttributeFits attribute.now → SpellsAttribute (take CONFIG_ATTRIBUTE_SIZE out.new) (new_attribute attribute.now) }
    ensures bytes { out.new ≡ new_attribute_bytes attribute.now ++ drop CONFIG_ATTRIBUTE_SIZE out.old }
{
    put_attribute(out, 0, attribute);
}

/// Writes a configuration over the first 272 bytes, and leaves the rest: flags for all lines, and at most ten
/// attributes for some of them.
pub fn write_config(out: &mut [u8], flags: u64, attributes: &[NewAttribute])
    requires room { LINE_CONFIG_SIZE ≤ length out.old }
    requires attributes { length attributes.now ≤ ATTRIBUTES_MAX }
    ensures spelled { ConfigFits flags attributes.now → SpellsConfig (take LINE_CONFIG_SIZE out.new) (new_config flags attributes.now) }
    ensures bytes { out.new ≡ new_config_bytes flags attributes.now ++ drop LINE_CONFIG_SIZE out.old }
{
    put_config(out, 0, flags, attributes);
}

/// Writes a request for at most 64 lines over the first 592 bytes, and leaves the rest. `events` is how many
/// events its ring is to hold; 0 leaves it to the answerer.
pub fn write_request(
    out: &mut [u8],
    offsets: &[u32],
    consumer: &Name,
    flags: u64,
    attributes: &[NewAttribute],
    events: u32,
)
    requires room { LINE_REQUEST_SIZE ≤ length out.old }
    requires lines { length offsets.now ≤ LINES_PER_REQUEST }
    requires attributes { length attributes.now ≤ ATTRIBUTES_MAX }
    ensures spelled { RequestFits offsets.now flags attributes.now events → SpellsRequest (take LINE_REQUEST_SIZE out.new) (new_request offsets.now consumer.now flags attributes.now events) }
    ensures bytes { out.new ≡ new_request_bytes offsets.now consumer.now flags attributes.now events ++ drop LINE_REQUEST_SIZE out.old }
{
    let offsets_end = REQUEST_OFFSET_SIZE * offsets.len();
    put_offsets(out, REQUEST_OFFSETS, offsets);
    put_zeros(out, offsets_end, REQUEST_CONSUMER - offsets_end);
    put_name(out, REQUEST_CONSUMER, consumer);
    put_config(out, REQUEST_CONFIG, flags, attributes);
    put_u32(out, REQUEST_NUM_LINES, offsets.len() as u32);
    put_u32(out, REQUEST_EVENT_BUFFER_SIZE, events);
    put_zeros(out, REQUEST_PADDING, LINE_REQUEST_SIZE - REQUEST_PADDING);
}

/// Writes the offsets of lines one after the other.
fn put_offsets(out: &mut [u8], start: usize, offsets: &[u32])
    requires { start + REQUEST_OFFSET_SIZE * length offsets.now ≤ length out.old }
    ensures { out.new ≡ overwritten start (offsets_bytes offsets.now) out.old }
{
    for (i, offset) in offsets.iter().enumerate() {
        put_u32(out, start + REQUEST_OFFSET_SIZE * i, *offset);
    }
}

/// Writes a configuration at an offset.
fn put_config(out: &mut [u8], start: usize, flags: u64, attributes: &[NewAttribute])
    requires room { start + LINE_CONFIG_SIZE ≤ length out.old }
    requires attributes { length attributes.now ≤ ATTRIBUTES_MAX }
    ensures { out.new ≡ overwritten start (new_config_bytes flags attributes.now) out.old }
{
    let used = CONFIG_ATTRIBUTE_SIZE * attributes.len();
    put_u64(out, start + CONFIG_FLAGS, flags);
    put_u32(out, start + CONFIG_NUM_ATTRS, attributes.len() as u32);
    put_zeros(out, start + CONFIG_PADDING, CONFIG_PADDING_SIZE);
    put_attributes(out, start + CONFIG_ATTRIBUTES, attributes);
    put_zeros(
        out,
        start + CONFIG_ATTRIBUTES + used,
        LINE_CONFIG_SIZE - CONFIG_ATTRIBUTES - used,
    );
}

/// Writes attributes one after the other.
fn put_attributes(out: &mut [u8], start: usize, attributes: &[NewAttribute])
    requires { start + CONFIG_ATTRIBUTE_SIZE * length attributes.now ≤ length out.old }
    ensures { out.new ≡ overwritten start (attributes_bytes attributes.now) out.old }
{
    for (i, attribute) in attributes.iter().enumerate() {
        put_attribute(out, start + CONFIG_ATTRIBUTE_SIZE * i, attribute);
    }
}

/// Writes an attribute at an offset.
fn put_attribute(out: &mut [u8], start: usize, attribute: &NewAttribute)
    requires { start + CONFIG_ATTRIBUTE_SIZE ≤ length out.old }
    ensures { out.new ≡ overwritten start (new_attribute_bytes attribute.now) out.old }
{
    put_u32(out, start + ATTRIBUTE_ID, attribute.value.id());
    put_zeros(out, start + ATTRIBUTE_PADDING, ATTRIBUTE_PADDING_SIZE);
    put_u64(out, start + ATTRIBUTE_VALUE, attribute.value.number());
    put_u64(out, start + CONFIG_ATTRIBUTE_MASK, attribute.mask);
}
