//! What a monitor reads: the items in the bytes of an answer.
ghost use Rattle.std.specs.Prelude.{◌≡◌, ◌/◌, ◌<◌, ◌≤◌, ◌++◌, length, IfOk, OnOk, IsOkUnless};
ghost use Rattle.gl_monitor.specs.Items.{item_size, is_chosen, chosen, event_item, change_at, events_from, changes_from, items_from, items_in, to_items};

use gl_args::ToolName;
use gl_base::{Errno, has_bit};
use gl_uapi::{ChangedRef, Event, EventsRef};
use std::alloc::Global;

/// What a monitor prints: an edge of a line, or a change of one.
#[derive(Clone, Copy, PartialEq, Eq)]
pub struct Item {
    /// When it came, in nanoseconds.
    pub time: u64,
    /// The event's id, or the kind of change, as `linux/gpio.h` numbers them.
    pub number: u32,
    /// The line's offset.
    pub offset: u32,
}

/// How many items a read asks for at most.
pub(crate) const ITEMS_MAX: u32 = 16;

/// How many bytes an item has.
pub(crate) fn item_size(tool: ToolName) -> u32
    ensures size { result ≡ item_size tool }
    ensures small { result ≤ 288 }
    ensures some { 48 ≤ result }
{
    match tool {
        ToolName::Notify => 288,
        ToolName::Detect | ToolName::Info | ToolName::Get | ToolName::Set | ToolName::Watch => 48,
    }
}

/// The items that bytes hold and that are printed. An answer of more than 16 items is none.
pub(crate) fn items_in(
    alloc: Global,
    tool: ToolName,
    edges: u64,
    bytes: &[u8],
) -> Result<Vec<Item>, Errno>
    ensures ok { IfOk result (λ items. items.items ≡ items_in tool edges bytes.now) }
    ensures memory_alone { IsOkUnless result Errno.NoMemory }
{
    let size = item_size(tool) as usize;
    let mut items = Vec::new(alloc);
    if bytes.len() > size * ITEMS_MAX as usize {
        return Ok(items);
    }
    put_items(tool, edges, bytes, &mut items)?;
    Ok(items)
}

/// Appends the items that bytes hold.
fn put_items(tool: ToolName, edges: u64, bytes: &[u8], items: &mut Vec<Item>) -> Result<(), Errno>
    requires { length bytes.now ≤ 4608 }
    ensures ok { OnOk result (items.new.items ≡ items.old.items ++ items_from tool edges bytes.now 0 (length bytes.now / item_size tool)) }
    ensures memory_alone { IsOkUnless result Errno.NoMemory }
{
    match tool {
        ToolName::Notify => put_changes(edges, bytes, items),
        ToolName::Detect | ToolName::Info | ToolName::Get | ToolName::Set | ToolName::Watch =>
            put_events(bytes, items),
    }
}

/// Appends the edges that bytes hold.
#[tactic(auto, using(crate::proofs::Turns::turns))]
fn put_events(bytes: &[u8], items: &mut Vec<Item>) -> Result<(), Errno>
    requires { length bytes.now ≤ 4608 }
    ensures ok { OnOk result (items.new.items ≡ items.old.items ++ events_from bytes.now 0 (length bytes.now / 48)) }
    ensures memory_alone { IsOkUnless result Errno.NoMemory }
{
    let events = EventsRef::of(bytes);
    for i in 0..events.count() {
        items.push(event_item(&events.get(i)))?;
    }
    Ok(())
}

#[tactic(auto, using(crate::proofs::Turns::turns))]
/// Appends the changes that bytes hold, as far as they are of a chosen kind.
fn put_changes(edges: u64, bytes: &[u8], items: &mut Vec<Item>) -> Result<(), Errno>
    requires { length bytes.now ≤ 4608 }
    ensures ok { OnOk result (items.new.items ≡ items.old.items ++ changes_from edges bytes.now 0 (length bytes.now / 288)) }
    ensures memory_alone { IsOkUnless result Errno.NoMemory }
{
    for i in 0..bytes.len() / 288 {
        put_change(edges, bytes, i, items)?;
    }
    Ok(())
}

/// Appends a change, where it is of a chosen kind.
fn put_change(edges: u64, bytes: &[u8], i: usize, items: &mut Vec<Item>) -> Result<(), Errno>
    requires { i < length bytes.now / 288 }
    ensures ok { OnOk result (items.new.items ≡ items.old.items ++ to_items (change_at edges bytes.now i)) }
    ensures memory_alone { IsOkUnless result Errno.NoMemory }
{
    match change_at(edges, bytes, i) {
        Some(item) => {
            items.push(item)?;
            Ok(())
        }
        None => Ok(()),
    }
}

/// The change at a place, where it is of a chosen kind.
#[tactic(auto, unfolding(gl_uapi::specs::Fields::stretch))]
fn change_at(edges: u64, bytes: &[u8], i: usize) -> Option<Item>
    requires { i < length bytes.now / 288 }
    ensures { result ≡ change_at edges bytes.now i }
{
    match ChangedRef::of(&bytes[288 * i..]) {
        Some(changed) => change_item(
            edges,
            Item {
                time: changed.timestamp(),
                number: changed.kind(),
                offset: changed.info().offset(),
            },
        ),
        None => unreachable!(),
    }
}

/// An edge as an item.
fn event_item(event: &Event) -> Item
    ensures { result ≡ event_item event.now }
{
    Item {
        time: event.timestamp,
        number: event.id,
        offset: event.offset,
    }
}

/// A change as an item, where it is of a chosen kind.
fn change_item(edges: u64, item: Item) -> Option<Item>
    ensures { result ≡ chosen edges item }
{
    if is_chosen(edges, item.number) {
        return Some(item);
    }
    None
}

/// Whether a kind of change is chosen.
fn is_chosen(edges: u64, kind: u32) -> bool
    ensures { result ≡ is_chosen edges kind }
{
    kind < 64 && has_bit(edges, kind)
}
