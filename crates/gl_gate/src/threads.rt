//! Gates and passes in threads.

use crate::gate::Gate;
use crate::pass::Pass;
use gl_world::Machine;

fn needs_sync<T: Sync>() {}

fn needs_send<T: Send>() {}

/// Threads may share the gate of every machine, and a pass may go from one thread to another. That this
/// function is proved says so; nothing calls it.
#[allow(dead_code)]
fn go_to_threads<M: Machine>() {
    needs_sync::<Gate<M>>();
    needs_send::<Gate<M>>();
    needs_send::<Pass<M>>();
}
