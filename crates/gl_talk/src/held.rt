//! The tools of an actor that were started.
ghost use Rattle.std.specs.Prelude.{◌≡◌, ◌∷◌, [], IfOk, None, Some, map, is_some, find, option_map, MatchOption};
ghost use Rattle.std.specs.List.{position};
ghost use Rattle.gl_base.specs.Rows.{without_first};
ghost use Rattle.gl_monitor.specs.Monitor.{watched_by};
ghost use Rattle.gl_values.specs.Client.{held_by};
ghost use Rattle.gl_talk.specs.Open.{held_of_name, is_monitor, is_monitor_row, is_set, is_set_row, monitor_in, set_in, watched_of_name};
ghost use Rattle.gl_talk.specs.Words.{name_word};

use gl_base::Name;
use gl_monitor::Monitor;
use gl_values::Client;

/// A gpioset that was started: its name, and the tool.
#[derive(Drop)]
pub struct SetRow {
    /// Its name.
    pub name: Name,
    /// The tool.
    pub client: Client,
}

/// A gpiomon or gpionotify that was started.
#[derive(Drop)]
pub struct MonitorRow {
    /// Its name.
    pub name: Name,
    /// The tool.
    pub monitor: Monitor,
}

/// The name of a row, which is kept as it is.
pub fn row_name(name: &Name) -> Name
    ensures { result ≡ name_word name.now }
{
    let _bytes = name.as_bytes();
    *name
}

/// Where the gpioset of a name stands.
fn set_position(tools: &[SetRow], name: &[u8]) -> Option<usize>
    ensures { result ≡ position (is_set_row name.now) tools.now }
{
    tools.iter().position(|tool| tool.name.as_bytes() == name)
}

/// Where the monitor of a name stands.
fn monitor_position(tools: &[MonitorRow], name: &[u8]) -> Option<usize>
    ensures { result ≡ position (is_monitor_row name.now) tools.now }
{
    tools.iter().position(|tool| tool.name.as_bytes() == name)
}

/// Whether there is a gpioset of a name.
pub fn has_set(tools: &[SetRow], name: &[u8]) -> bool
    ensures { result ≡ is_some (held_of_name name.now (map set_in tools.now)) }
{
    for tool in tools {
        if tool.name.as_bytes() == name {
            return true;
        }
    }
    false
}

/// Whether there is a monitor of a name.
pub fn has_monitor(tools: &[MonitorRow], name: &[u8]) -> bool
    ensures { result ≡ is_some (watched_of_name name.now (map monitor_in tools.now)) }
{
    for tool in tools {
        if tool.name.as_bytes() == name {
            return true;
        }
    }
    false
}

/// Takes out the gpioset of a name.
pub fn take_set(tools: &mut Vec<SetRow>, name: &[u8]) -> Option<Client>
    ensures held { held_of_name name.now (map set_in tools.old.items) ≡ option_map held_by result }
    ensures left { MatchOption result (tools.new.items ≡ tools.old.items) (λ client. map set_in tools.new.items ≡ without_first (is_set name.now) (map set_in tools.old.items)) }
{
    match set_position(tools, name) {
        Some(at) => {
            let row = tools.remove(at);
            Some(row.client)
        }
        None => None,
    }
}

/// Takes out the monitor of a name.
pub fn take_monitor(tools: &mut Vec<MonitorRow>, name: &[u8]) -> Option<Monitor>
    ensures watched { watched_of_name name.now (map monitor_in tools.old.items) ≡ option_map watched_by result }
    ensures left { MatchOption result (tools.new.items ≡ tools.old.items) (λ monitor. map monitor_in tools.new.items ≡ without_first (is_monitor name.now) (map monitor_in tools.old.items)) }
{
    match monitor_position(tools, name) {
        Some(at) => {
            let row = tools.remove(at);
            Some(row.monitor)
        }
        None => None,
    }
}
