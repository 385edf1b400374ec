//! A configuration's settings, line by line.

ghost use Rattle.std.specs.Prelude.{◌≡◌, ◌<◌, ◌≤◌, None, Some, IfOk, IfErr};
ghost use Rattle.gl_base.specs.Lines.{IsLineCount};
ghost use Rattle.gl_base.specs.Positions.{table_from};
ghost use Rattle.gl_base.specs.Settings.{no_settings};
ghost use Rattle.std.specs.Option.{is_some, option_map};
ghost use Rattle.gl_uapi.specs.LineConfig.{attribute_in};
ghost use Rattle.gl_uapi.specs.declared.layout.TheConstants.{ATTRIBUTE_DEBOUNCE};
ghost use Rattle.gl_attrs.specs.Setting.{attribute_for, flags_for, value_for, period_for, settings_for, resolved_for};
ghost use Rattle.gl_attrs.specs.ConfigFault.{config_fault, line_fault};

use gl_base::{Errno, LINES_PER_REQUEST, Resolved, Settings, flag, has_bit};
use gl_flags::check;
use gl_uapi::layout::{
    ATTRIBUTE_DEBOUNCE, ATTRIBUTE_FLAGS, ATTRIBUTE_OUTPUT_VALUES, ATTRIBUTES_MAX,
};
use gl_uapi::{AttrRef, ConfigRef};

/// What the settings of a line past those of the request are.
const NO_SETTINGS: Settings = Settings {
    flags: 0,
    value: false,
    debounce_us: 0,
};

/// The settings of the first `lines` lines, 1 to 64 of them, of a request with this configuration, as
/// [`settings_of`] gives them, where it has no fault for so many.
///
/// The refusals, the first case that holds:
///
/// - `Inval`: more than ten attributes, or padding that isn't zero.
/// - For each line in order, what [`check`] says of its flags; then `Inval` where a debounce attribute
///   has the line and its flags lack `INPUT`.
pub fn resolve(config: ConfigRef<'_>, lines: u32) -> Result<Resolved, Errno>
    requires { IsLineCount lines }
    ensures set { IfOk result (λ resolved. resolved ≡ resolved_for config.entry lines) }
    ensures passed { IfOk result (λ _. config_fault config.entry lines ≡ None) }
    ensures refused { IfErr result (λ errno. config_fault config.entry lines ≡ Some errno) }
{
    if config.num_attrs() > ATTRIBUTES_MAX || !config.padding_is_zero() {
        return Err(Errno::Inval);
    }
    for i in 0..lines {
        if let Some(errno) = line_fault(&config, i) {
            return Err(errno);
        }
    }
    Ok(settings_of(config, lines))
}

/// The settings that a configuration gives each of the first `lines` lines, 1 to 64 of them, of a request,
/// also where they don't go together. Past them the array has no flags, the value false and no period.
pub fn settings_of(config: ConfigRef<'_>, lines: u32) -> Resolved
    requires { IsLineCount lines }
    ensures { result ≡ resolved_for config.entry lines }
{
    let mut settings = lines_without_settings();
    for i in 0..lines {
        settings[i as usize] = line_settings(&config, i);
    }
    Resolved {
        count: lines,
        lines: settings,
    }
}

/// Settings of no line.
#[tactic(auto, unfolding(gl_base::specs::Positions::table_from))]
fn lines_without_settings() -> [Settings; LINES_PER_REQUEST as usize]
    ensures { result ≡ table_from (λ _. no_settings) 0 LINES_PER_REQUEST }
{
    [NO_SETTINGS; LINES_PER_REQUEST as usize]
}

/// Why the line at position `i` of the request can't have its settings, if it can't.
fn line_fault(config: &ConfigRef<'_>, i: u32) -> Option<Errno>
    requires { i < LINES_PER_REQUEST }
    ensures { result ≡ line_fault config.now i }
{
    match check(line_flags(config, i)) {
        Err(errno) => Some(errno),
        Ok(flags) => {
            if is_debounced(config, i) && !flags.has(flag::INPUT) {
                return Some(Errno::Inval);
            }
            None
        }
    }
}

/// Whether the configuration gives the line at position `i` of the request a debounce period.
fn is_debounced(config: &ConfigRef<'_>, i: u32) -> bool
    requires { i < LINES_PER_REQUEST }
    ensures { result ≡ is_some (attribute_for ATTRIBUTE_DEBOUNCE config.now i) }
{
    attribute_of(config, ATTRIBUTE_DEBOUNCE, i).is_some()
}

/// The settings that the configuration gives the line at position `i` of the request.
fn line_settings(config: &ConfigRef<'_>, i: u32) -> Settings
    requires { i < LINES_PER_REQUEST }
    ensures { result ≡ settings_for config.now i }
{
    let value = match attribute_of(config, ATTRIBUTE_OUTPUT_VALUES, i) {
        Some(attribute) => has_bit(attribute.value(), i),
        None => false,
    };
    let debounce_us = match attribute_of(config, ATTRIBUTE_DEBOUNCE, i) {
        Some(attribute) => attribute.period(),
        None => 0,
    };
    Settings {
        flags: line_flags(config, i),
        value,
        debounce_us,
    }
}

/// The flags that the configuration gives the line at position `i` of the request.
fn line_flags(config: &ConfigRef<'_>, i: u32) -> u64
    requires { i < LINES_PER_REQUEST }
    ensures { result ≡ flags_for config.now i }
{
    match attribute_of(config, ATTRIBUTE_FLAGS, i) {
        Some(attribute) => attribute.value(),
        None => config.flags(),
    }
}

/// The first attribute of this kind whose mask has the line at position `i` of the request.
fn attribute_of<'a>(config: &ConfigRef<'a>, id: u32, i: u32) -> Option<AttrRef<'a>>
    requires { i < LINES_PER_REQUEST }
    ensures { option_map attribute_in result ≡ attribute_for id config.now i }
{
    let count = config.num_attrs().min(ATTRIBUTES_MAX);
    for k in 0..count {
        let attribute = config.attr(k);
        if attribute.id() == id && has_bit(attribute.mask(), i) {
            return Some(attribute);
        }
    }
    None
}
