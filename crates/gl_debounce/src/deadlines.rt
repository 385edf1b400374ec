//! The deadlines of the lines, the first of them at hand.

ghost use Rattle.std.specs.Prelude.{◌≡◌, ◌<◌, [], ◌∷◌, ◌++◌, IfOk, IsOkUnless, MatchOption, None, Some, length, slice_index_or, slice_set, vec_capacity};
ghost use Rattle.gl_debounce.specs.Order.{AreNone, IsFirst};

use crate::due::Due;
use crate::heap::{add, remove_at};
use crate::timer::TABLE_SIZE;
use gl_base::{Errno, push_within};
use std::alloc::Global;
use std::marker::Model;

/// The deadline of each line that has a row, if it has one. Contracts see the list of them by line. They stand
/// in a heap, and a table tells where each line stands in it: so the first is found at once, and a deadline
/// comes and goes in as many steps as the heap is deep.
#[derive(Drop)]
pub(crate) struct Deadlines {
    heap: Vec<Due>,
    slots: Vec<Option<u32>>,
}

impl Model for Deadlines {
    ghost use Rattle.std.specs.Prelude.{ℕ, List, Option};

    ghost Value = { List (Option ℕ) };

    ghost use Rattle.std.specs.Prelude.{◌≡◌, length, vec_capacity};
    ghost use Rattle.gl_debounce.specs.Order.{Agree, IsOrdered, deadlines_of, rank_at};
    ghost use Rattle.gl_debounce.specs.declared.timer.TheConstants.{TABLE_SIZE};

    ghost view = { λ d. deadlines_of d.heap.items d.slots.items };

    ghost invariant = { λ d. (vec_capacity d.heap ≡ TABLE_SIZE) × Agree d.heap.items d.slots.items
        × IsOrdered (length d.heap.items) (rank_at d.heap.items) × (vec_capacity d.slots ≡ TABLE_SIZE) };
}

impl Deadlines {
    /// No line has a row, and there is room for those of all lines. `NoMemory` is its one refusal; no other
    /// call takes memory.
    pub(crate) fn new(alloc: Global) -> Result<Deadlines, Errno>
        ensures ok { IfOk result (λ deadlines. deadlines ≡ []) }
        ensures memory_alone { IsOkUnless result Errno.NoMemory }
    {
        let heap = Vec::with_capacity(alloc, TABLE_SIZE as usize)?;
        let slots = Vec::with_capacity(alloc, TABLE_SIZE as usize)?;
        Ok(Deadlines { heap, slots })
    }

    /// The next line gets a row. It has no deadline.
    pub(crate) fn add_row(&mut self)
        requires { length self.old < TABLE_SIZE }
        ensures { self.new ≡ self.old ++ None ∷ [] }
    {
        push_within(&mut self.slots, None);
    }

    /// The first of all deadlines, by moment and then by line, or None where no line has one.
    pub(crate) fn first(&self) -> Option<Due>
        ensures { MatchOption result (AreNone self.now) (λ due. IsFirst self.now due) }
    {
        if self.heap.is_empty() {
            return None;
        }
        Some(self.heap[0])
    }

    /// The deadline of a line, if it has one.
    pub(crate) fn at(&self, line: u32) -> Option<u64>
        requires { line < length self.now }
        ensures { result ≡ slice_index_or self.now line None }
    {
        match self.slots[line as usize] {
            None => None,
            Some(at) => Some(self.heap[at as usize].deadline),
        }
    }

    /// Takes the line's deadline away, if it has one.
    pub(crate) fn clear(&mut self, line: u32)
        requires { line < length self.old }
        ensures { self.new ≡ slice_set self.old line None }
    {
        match self.slots[line as usize] {
            None => {}
            Some(at) => remove_at(&mut self.heap, &mut self.slots, at),
        }
    }

    /// The line has this deadline from now on, and no other.
    pub(crate) fn set(&mut self, line: u32, deadline: u64)
        requires { line < length self.old }
        ensures { self.new ≡ slice_set self.old line (Some deadline) }
    {
        self.clear(line);
        add(&mut self.heap, &mut self.slots, Due { deadline, line });
    }
}
