//! The changes that wait for a file.

ghost use Rattle.std.specs.Prelude.{◌≡◌, ◌*◌, ◌≤◌, ◌++◌, [], length, take, drop, min, IfOk, IsOkUnless};
ghost use Rattle.std.specs.List.{flat_map};
ghost use Rattle.circular_buffer.specs.Buffer.{buffer};
ghost use Rattle.gl_uapi.specs.InfoChanged.{changed_bytes};
ghost use Rattle.gl_watch.specs.Queue.{appended};

use circular_buffer::HeapCircularBuffer;
use gl_base::Errno;
use gl_uapi::layout::INFO_CHANGED_SIZE;
use gl_uapi::{Changed, write_info_changed};
use std::alloc::Global;
use std::marker::Model;

/// How many changes wait for a file at most. Where so many wait, the newest change is dropped. Both are as
/// gpiolib has it: its queue for a chip's file has 32 changes, and one that doesn't fit is dropped.
pub const QUEUE_CHANGES_MAX: usize = 32;

/// Changes that wait, the oldest first. Contracts see the list of them.
#[derive(Drop)]
pub struct InfoQueue {
    changes: HeapCircularBuffer<Changed>,
}

impl Model for InfoQueue {
    ghost use Rattle.std.specs.Prelude.{◌≡◌, ◌≤◌, List, length};
    ghost use Rattle.gl_uapi.specs.declared.info_changes.Changed.{Changed};
    ghost use Rattle.gl_watch.specs.declared.queue.TheConstants.{QUEUE_CHANGES_MAX};

    ghost Value = { List Changed };

    ghost view = { λ q. q.changes.items };

    ghost invariant = { λ q. (q.changes.capacity ≡ QUEUE_CHANGES_MAX) × (length q.changes.items ≤ QUEUE_CHANGES_MAX) };
}

impl InfoQueue {
    /// A queue without changes, with room for 32. `NoMemory` alone is refused.
    pub fn new(alloc: Global) -> Result<InfoQueue, Errno>
        ensures ok { IfOk result (λ queue. queue ≡ []) }
        ensures memory_alone { IsOkUnless result Errno.NoMemory }
    {
        match HeapCircularBuffer::with_capacity(alloc, QUEUE_CHANGES_MAX) {
            Ok(changes) => Ok(InfoQueue { changes }),
            Err(_) => Err(Errno::NoMemory),
        }
    }

    /// How many changes wait.
    pub(crate) fn len(&self) -> u32
        ensures len { result ≡ length self.now }
        ensures within { result ≤ QUEUE_CHANGES_MAX }
    {
        self.changes.len() as u32
    }

    /// Adds a change where there is room; else the queue keeps what it has.
    pub(crate) fn push(&mut self, changed: &Changed)
        ensures { self.new ≡ appended changed.now self.old }
    {
        match self.changes.try_push_back(*changed) {
            Ok(()) => {}
            Err(_) => {}
        }
    }

    /// Moves the first changes into `out`, at most `max` of them, as bytes one after the other, and answers
    /// how many. What stands behind them in `out` stays.
    pub(crate) fn read(&mut self, max: u32, out: &mut [u8]) -> u32
        requires { INFO_CHANGED_SIZE * max ≤ length out.old }
        ensures count { result ≡ min max (length self.old) }
        ensures queue { self.new ≡ drop result self.old }
        ensures out { out.new ≡ flat_map changed_bytes (take result self.old) ++ drop (INFO_CHANGED_SIZE * result) out.old }
    {
        let count = max.min(self.len());
        for i in 0..count {
            let changed = self.changes.pop_front().unwrap();
            let start = INFO_CHANGED_SIZE * i as usize;
            write_info_changed(&mut out[start..], &changed);
        }
        count
    }
}
