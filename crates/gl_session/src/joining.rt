//! Requests whose lines are joined.

ghost use Rattle.std.specs.Prelude.{◌≡◌, ◌+◌, ◌<◌, ◌≤◌, ◌++◌, [], ◌∷◌, length, take};
ghost use Rattle.gl_base.specs.Rows.{Each};
ghost use Rattle.gl_asking.specs.Rows.{IsSomeRow, file_of};
ghost use Rattle.gl_check.specs.Joining.{joined_at, line_count, target_in, targets_in};
ghost use Rattle.gl_session.specs.Targets.{IsTarget};

use crate::rows::Rows;
use gl_asking::{FileKind, FileRow};
use gl_base::{LINES_PER_REQUEST, Lines};
use gl_driver::{Map, Target};
use std::marker::Model;

/// What stands past the last target.
const NO_TARGET: Target = Target {
    place: 0,
    fd: 0,
    lines: Lines {
        count: 0,
        offsets: [0; LINES_PER_REQUEST as usize],
    },
};

/// Requests in order, four at most. Contracts see the list of them.
#[derive(Drop)]
pub struct Targets {
    count: u32,
    targets: [Target; 4],
}

impl Model for Targets {
    ghost use Rattle.std.specs.Prelude.{List, take};
    ghost use Rattle.gl_driver.specs.declared.map.Target.{Target};
    ghost use Rattle.gl_session.specs.Targets.{AreTargets};

    ghost Value = { List Target };

    ghost view = { λ t. take t.count t.targets };

    ghost invariant = { λ t. AreTargets t.count t.targets };
}

impl Targets {
    /// None.
    pub fn new() -> Targets
        ensures { result ≡ [] }
    {
        Targets {
            count: 0,
            targets: [NO_TARGET; 4],
        }
    }

    /// The requests in slots, the first `count` of these, in order.
    pub fn in_slots(rows: &Rows, slots: &[u32; 4], count: u32) -> Targets
        ensures { result ≡ targets_in (take count slots.now) rows.now }
    {
        let mut targets = Targets::new();
        for n in 0..4u32 {
            if n < count {
                targets.add(rows.in_slot(slots[n as usize]).row());
            }
        }
        targets
    }

    /// Adds a file, if it is there and a request.
    fn add(&mut self, row: Option<FileRow>)
        requires few { length self.old < 4 }
        requires row { IsSomeRow row }
        ensures added { self.new ≡ self.old ++ target_in (file_of row) }
        ensures one { length self.new ≤ length self.old + 1 }
    {
        if let Some(row) = row {
            if let FileKind::Request(lines) = row.kind() {
                self.push(Target {
                    place: row.place(),
                    fd: row.number(),
                    lines,
                });
            }
        }
    }

    /// Adds a target.
    fn push(&mut self, target: Target)
        requires few { length self.old < 4 }
        requires target { IsTarget target }
        ensures { self.new ≡ self.old ++ target ∷ [] }
    {
        self.targets[self.count as usize] = target;
        self.count += 1;
    }

    /// The targets.
    pub fn as_slice(&self) -> &[Target]
        ensures { result.now ≡ self.now }
    {
        &self.targets[..self.count as usize]
    }

    /// How many lines they have.
    pub fn line_count(&self) -> u32
        ensures { result ≡ line_count self.now }
    {
        let mut count = 0;
        for n in 0..self.count {
            count += self.targets[n as usize].lines.count;
        }
        count
    }

    /// The map of the chip at a place whose lines are theirs.
    pub fn joined_at(&self, place: u8) -> Map
        ensures joined { result ≡ joined_at place self.now }
        ensures few { length self.now ≤ 4 }
        ensures each { Each IsTarget self.now }
    {
        Map {
            place,
            count: self.count,
            targets: self.targets,
        }
    }
}
